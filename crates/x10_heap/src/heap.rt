//! The heap of a place.
ghost use Rattle.std.specs.Prelude.{◌≡◌, ◌<◌, ◌≤◌, ◌+◌, ◌^◌, ◌++◌, List, ℕ, IfOk, IfErr, IsOk, Ok, Err, Some, None, length, replicate, slice_get, nat_lt};
ghost use Rattle.x10_kinds.specs.declared.limit.Limit.TheVariants as limits;
ghost use Rattle.x10_kinds.specs.declared.stop.Stop.TheVariants as stop;
ghost use Rattle.x10_model.specs.declared.limits.TheConstants.{MOST_BYTES};
ghost use Rattle.x10_model.specs.Modules.{FitsText};
ghost use Rattle.x10_model.specs.Frames.{FitsRail};
ghost use Rattle.x10_model.specs.Readers.{IsBytes};
ghost use Rattle.x10_heap.specs.Heaps.{ObjectState, empty, shortened, with_object, with_rail, with_text, with_export, with_field, with_byte, HasField, IsFull, IsWithinLimits, Refuses, IsJoined};

use crate::export::Export;
use crate::objects::Objects;
use crate::rail::Rail;
use crate::texts::Texts;
use std::alloc::{AllocError, Global};
use std::marker::Model;
use x10_kinds::{Limit, Stop};
use x10_model::limits::MOST_BYTES;

/// What the activities of a place share: objects, rails and texts, each by its number, and the objects that global references
/// name, by their ids. Each counts from 0, in the order in which things were made; `truncate` alone removes any. There are at
/// most 2^32 - 1 of each. A field is a word without a tag, since the verifier knows its kind. Making takes memory; where it is
/// refused, nothing has changed. Reading and changing take no memory, and constant time.
#[derive(Drop)]
pub struct Heap {
    alloc: Global,
    objects: Objects,
    rails: Vec<Rail>,
    texts: Texts,
    exports: Vec<Export>,
}

impl Model for Heap {
    ghost use Rattle.x10_heap.specs.Heaps.{HeapState, IsWithinLimits};

    ghost Value = { HeapState };

    ghost view = { λ h. record { objects = h.objects; rails = h.rails.items; texts = h.texts; exports = h.exports.items } };

    ghost invariant = { λ h. IsWithinLimits h.objects h.rails.items h.texts h.exports.items };
}

/// The number of what is made next, where there are `count` already; refused where there may be no more.
fn next_number(count: usize, limit: Limit) -> Result<u32, Stop>
    ensures ok { IfOk result (λ number. number ≡ count) }
    ensures full { IsFull count → result ≡ Err (stop.Limit limit) }
    ensures err { IfErr result (λ why. (why ≡ stop.Limit limit) × IsFull count) }
{
    match u32::try_from(count) {
        Ok(number) if number < u32::MAX => Ok(number),
        _ => Err(Stop::Limit(limit)),
    }
}

/// Each number of a row of bytes is below 256, for clauses that say so. Does nothing.
fn known_bytes(bytes: &[u8])
    ensures { IsBytes bytes.now }
{}

impl Heap {
    /// A heap with nothing in it. Takes no memory.
    pub fn new(alloc: Global) -> Heap
        ensures { result ≡ empty }
    {
        Heap {
            alloc,
            objects: Objects::new(alloc),
            rails: Vec::new(alloc),
            texts: Texts::new(alloc),
            exports: Vec::new(alloc),
        }
    }

    /// Every heap keeps its limits: for callers whose own clauses rely on it. It does nothing.
    pub fn fits(&self)
        ensures { IsWithinLimits self.now.objects self.now.rails self.now.texts self.now.exports }
    {
        let _ = &self.objects;
    }

    /// How many objects there are.
    pub fn objects(&self) -> usize
        ensures value { result ≡ length self.now.objects }
        ensures few { result < 2 ^ 32 }
    {
        self.objects.len()
    }

    /// How many rails there are.
    pub fn rails(&self) -> usize
        ensures value { result ≡ length self.now.rails }
        ensures few { result < 2 ^ 32 }
    {
        self.rails.len()
    }

    /// How many texts there are.
    pub fn texts(&self) -> usize
        ensures value { result ≡ length self.now.texts }
        ensures few { result < 2 ^ 32 }
    {
        self.texts.len()
    }

    /// How many global references there are: their ids are below this.
    pub fn exports(&self) -> usize
        ensures value { result ≡ length self.now.exports }
        ensures few { result < 2 ^ 32 }
    {
        self.exports.len()
    }

    /// Takes back what was made last, down to the given numbers of objects, rails and texts. Takes no memory.
    pub fn truncate(&mut self, objects: usize, rails: usize, texts: usize)
        ensures { self.new ≡ shortened self.old objects rails texts }
    {
        self.objects.truncate(objects);
        self.rails.truncate(rails);
        self.texts.truncate(texts);
    }

    /// Room for so many more objects, rails and texts, so that the lists that have them by their numbers don't grow while they
    /// are made. The fields of objects, and what texts and rails keep elsewhere, take theirs when they are made. Refused only
    /// for lack of memory; nothing has changed then, nor otherwise, but room that was made is kept. Constant time, or that of
    /// moving a list that grows; it grows at least to twice its size, so many calls for little stay linear.
    pub fn reserve(&mut self, objects: usize, rails: usize, texts: usize) -> Result<(), AllocError>
        ensures value { self.new ≡ self.old }
        ensures none { objects ≡ 0 → rails ≡ 0 → texts ≡ 0 → IsOk result }
    {
        self.objects.reserve(objects)?;
        self.rails.reserve(rails)?;
        self.texts.reserve(texts)
    }

    /// A new object of a class, with these words in its fields. Refused where there may be no more objects.
    pub fn new_object(&mut self, class: u16, fields: &[u64]) -> Result<u32, Stop>
        ensures ok { IfOk result (λ number. (number ≡ length self.old.objects)
            × (self.new ≡ with_object self.old class fields.now)) }
        ensures full { IsFull (length self.old.objects) → result ≡ Err (stop.Limit limits.Objects) }
        ensures err { IfErr result (λ why. (self.new ≡ self.old)
            × Refuses (length self.old.objects) limits.Objects why) }
    {
        let number = next_number(self.objects.len(), Limit::Objects)?;
        let Ok(()) = self.objects.push(class, fields) else {
            return Err(Stop::Memory);
        };
        Ok(number)
    }

    /// The class of an object.
    pub fn class(&self, object: u32) -> u16
        requires { object < length self.now.objects }
        ensures { (o : ObjectState) → slice_get self.now.objects object ≡ Some o
            → result ≡ o.class }
    {
        self.objects.class(object as usize)
    }

    /// The words in an object's fields.
    pub fn fields(&self, object: u32) -> &[u64]
        requires { object < length self.now.objects }
        ensures { (o : ObjectState) → slice_get self.now.objects object ≡ Some o
            → result.now ≡ o.fields }
    {
        self.objects.fields(object as usize)
    }

    /// The word in a field of an object. Fields count from 0.
    pub fn get(&self, object: u32, field: u8) -> u64
        requires { HasField self.now object field }
        ensures { (o : ObjectState) → slice_get self.now.objects object ≡ Some o
            → slice_get o.fields field ≡ Some result }
    {
        self.objects.get(object as usize, usize::from(field))
    }

    /// Writes a word to a field of an object.
    pub fn put(&mut self, object: u32, field: u8, word: u64)
        requires { HasField self.old object field }
        ensures { (o : ObjectState) → slice_get self.old.objects object ≡ Some o
            → self.new ≡ with_field self.old object o field word }
    {
        self.objects.put(object as usize, usize::from(field), word);
    }

    /// A new rail of `bytes` zero bytes. Refused where there may be no more rails.
    pub fn new_rail(&mut self, bytes: u16) -> Result<u32, Stop>
        ensures ok { IfOk result (λ number. (number ≡ length self.old.rails)
            × (self.new ≡ with_rail self.old (replicate bytes 0))) }
        ensures full { IsFull (length self.old.rails) → result ≡ Err (stop.Limit limits.Rails) }
        ensures err { IfErr result (λ why. (self.new ≡ self.old)
            × Refuses (length self.old.rails) limits.Rails why) }
    {
        let number = next_number(self.rails.len(), Limit::Rails)?;
        let Ok(bytes) = Vec::from_elem(self.alloc, 0, usize::from(bytes)) else {
            return Err(Stop::Memory);
        };
        let Ok(()) = self.rails.push(Rail { bytes }) else {
            return Err(Stop::Memory);
        };
        Ok(number)
    }

    /// A new rail with bytes of its own that are the same, at most 65,535. Refused where there may be no more rails.
    pub fn copy_rail(&mut self, bytes: &[u8]) -> Result<u32, Stop>
        requires { length bytes.now < 2 ^ 16 }
        ensures ok { IfOk result (λ number. (number ≡ length self.old.rails)
            × (self.new ≡ with_rail self.old bytes.now)) }
        ensures full { IsFull (length self.old.rails) → result ≡ Err (stop.Limit limits.Rails) }
        ensures err { IfErr result (λ why. (self.new ≡ self.old)
            × Refuses (length self.old.rails) limits.Rails why) }
    {
        let number = next_number(self.rails.len(), Limit::Rails)?;
        let Ok(bytes) = Vec::from_slice(self.alloc, bytes) else {
            return Err(Stop::Memory);
        };
        let Ok(()) = self.rails.push(Rail { bytes }) else {
            return Err(Stop::Memory);
        };
        Ok(number)
    }

    /// The bytes of a rail.
    pub fn rail(&self, rail: u32) -> &[u8]
        requires { rail < length self.now.rails }
        ensures value { slice_get self.now.rails rail ≡ Some result.now }
        ensures fits { FitsRail result.now }
    {
        let bytes: &[u8] = &self.rails[rail as usize].bytes;
        known_bytes(bytes);
        bytes
    }

    /// The byte of a rail at an index, where there is one. Indices count from 0.
    pub fn rail_get(&self, rail: u32, index: usize) -> Option<u8>
        requires { rail < length self.now.rails }
        ensures { (bytes : List ℕ) → slice_get self.now.rails rail ≡ Some bytes
            → result ≡ slice_get bytes index }
    {
        self.rail(rail).get(index).copied()
    }

    /// Writes a byte of a rail at an index. False where there is none; then nothing has changed.
    pub fn rail_set(&mut self, rail: u32, index: usize, byte: u8) -> bool
        requires { rail < length self.old.rails }
        ensures { (bytes : List ℕ) → slice_get self.old.rails rail ≡ Some bytes
            → (result ≡ nat_lt index (length bytes))
            × (self.new ≡ with_byte self.old rail bytes index byte) }
    {
        let bytes = &mut self.rails[rail as usize].bytes;
        if index < bytes.len() {
            bytes[index] = byte;
            return true;
        }
        false
    }

    /// A new text with the bytes of another, at most 65,535. Refused where there may be no more texts.
    pub fn new_text(&mut self, text: &str) -> Result<u32, Stop>
        requires { length text.now < 2 ^ 16 }
        ensures ok { IfOk result (λ number. (number ≡ length self.old.texts)
            × (self.new ≡ with_text self.old text.now)) }
        ensures full { IsFull (length self.old.texts) → result ≡ Err (stop.Limit limits.Texts) }
        ensures err { IfErr result (λ why. (self.new ≡ self.old)
            × Refuses (length self.old.texts) limits.Texts why) }
    {
        let number = next_number(self.texts.len(), Limit::Texts)?;
        let Ok(()) = self.texts.push(text) else {
            return Err(Stop::Memory);
        };
        Ok(number)
    }

    /// A text.
    pub fn text(&self, text: u32) -> &str
        requires { text < length self.now.texts }
        ensures value { slice_get self.now.texts text ≡ Some result.now }
        ensures fits { FitsText result.now }
    {
        self.texts.get(text as usize)
    }

    /// A new text of two joined, the first before the second; none where it would be longer than 65,535 bytes, and then
    /// nothing has changed. Refused where there may be no more texts. Takes the time to copy both.
    pub fn join(&mut self, first: u32, second: u32) -> Result<Option<u32>, Stop>
        requires first { first < length self.old.texts }
        requires second { second < length self.old.texts }
        ensures ok { IfOk result (λ made. (t u : List ℕ) → slice_get self.old.texts first ≡ Some t
            → slice_get self.old.texts second ≡ Some u → IsJoined self.old t u made self.new) }
        ensures long { (t u : List ℕ) → slice_get self.old.texts first ≡ Some t
            → slice_get self.old.texts second ≡ Some u → MOST_BYTES < length t + length u
            → result ≡ Ok None }
        ensures full { (t u : List ℕ) → slice_get self.old.texts first ≡ Some t
            → slice_get self.old.texts second ≡ Some u → length t + length u ≤ MOST_BYTES
            → IsFull (length self.old.texts) → result ≡ Err (stop.Limit limits.Texts) }
        ensures err { IfErr result (λ why. (self.new ≡ self.old)
            × Refuses (length self.old.texts) limits.Texts why) }
    {
        let together = self.text(first).len() + self.text(second).len();
        if together > usize::from(MOST_BYTES) {
            return Ok(None);
        }
        let number = next_number(self.texts.len(), Limit::Texts)?;
        let Ok(()) = self.texts.join(first as usize, second as usize) else {
            return Err(Stop::Memory);
        };
        Ok(Some(number))
    }

    /// A new global reference to an object, whose id is the next, even where there is one to it already. Refused where there
    /// may be no more.
    pub fn export(&mut self, object: u32) -> Result<u32, Stop>
        requires { object < length self.old.objects }
        ensures ok { IfOk result (λ id. (id ≡ length self.old.exports)
            × ((o : ObjectState) → slice_get self.old.objects object ≡ Some o
            → self.new ≡ with_export self.old o.class object)) }
        ensures full { IsFull (length self.old.exports)
            → result ≡ Err (stop.Limit limits.References) }
        ensures err { IfErr result (λ why. (self.new ≡ self.old)
            × Refuses (length self.old.exports) limits.References why) }
    {
        let id = next_number(self.exports.len(), Limit::References)?;
        let class = self.class(object);
        let Ok(()) = self.exports.push(Export { class, object }) else {
            return Err(Stop::Memory);
        };
        Ok(id)
    }

    /// The object that a global reference with this id names, and its class.
    pub fn opened(&self, id: u32) -> Export
        requires { id < length self.now.exports }
        ensures { slice_get self.now.exports id ≡ Some result }
    {
        self.exports[id as usize]
    }
}
