//! The objects of a heap, one after another.

ghost use Rattle.std.specs.Prelude.{◌≡◌, ◌<◌, ◌≤◌, ◌+◌, ◌-◌, [], ◌∷◌, ◌++◌, OnOk, OnErr, IsOk, Some, length, take, drop, slice_get, slice_set};
ghost use Rattle.x10_heap.specs.Heaps.{ObjectState};

use crate::ends::start_in;
use std::alloc::{AllocError, Global};
use std::marker::Model;

/// Objects by their numbers from 0: each one's class, and its fields, which follow those of the object before it. So an
/// object takes eight bytes for each field, and ten more.
#[derive(Drop)]
pub struct Objects {
    classes: Vec<u16>,
    /// Where each object's fields end among the words.
    ends: Vec<usize>,
    words: Vec<u64>,
}

impl Model for Objects {
    ghost use Rattle.std.specs.Prelude.{List, length};
    ghost use Rattle.x10_heap.specs.Heaps.{ObjectState};
    ghost use Rattle.x10_heap.specs.Laid.{objects_from, AreLaid};

    ghost Value = { List ObjectState };

    ghost view = { λ o. objects_from 0 o.classes.items o.ends.items o.words.items };

    ghost invariant = { λ o. AreLaid 0 o.classes.items o.ends.items (length o.words.items) };
}

/// The words from one place to another.
#[inline(always)]
fn part(words: &[u64], start: usize, end: usize) -> &[u64]
    requires ordered { start ≤ end }
    requires within { end ≤ length words.now }
    ensures { result.now ≡ take (end - start) (drop start words.now) }
{
    &words[start..end]
}

/// Appends to each list, or to none.
#[inline(always)]
fn append(
    classes: &mut Vec<u16>,
    ends: &mut Vec<usize>,
    words: &mut Vec<u64>,
    class: u16,
    fields: &[u64],
) -> Result<(), AllocError>
    ensures classes { OnOk result (classes.new.items ≡ classes.old.items ++ class ∷ []) }
    ensures ends { OnOk result (ends.new.items ≡ ends.old.items
        ++ (length words.old.items + length fields.now) ∷ []) }
    ensures words { OnOk result (words.new.items ≡ words.old.items ++ fields.now) }
    ensures err { OnErr result ((classes.new.items ≡ classes.old.items)
        × (ends.new.items ≡ ends.old.items) × (words.new.items ≡ words.old.items)) }
{
    classes.reserve(1)?;
    ends.reserve(1)?;
    words.extend_from_slice(fields)?;
    classes.push_reserved(class);
    ends.push_reserved(words.len());
    Ok(())
}

impl Objects {
    /// None. Takes no memory.
    pub(crate) fn new(alloc: Global) -> Objects
        ensures { result ≡ [] }
    {
        Objects {
            classes: Vec::new(alloc),
            ends: Vec::new(alloc),
            words: Vec::new(alloc),
        }
    }

    /// How many there are.
    #[inline(always)]
    pub(crate) fn len(&self) -> usize
        ensures { result ≡ length self.now }
    {
        self.classes.len()
    }

    /// Room for the classes and ends of so many more.
    pub(crate) fn reserve(&mut self, objects: usize) -> Result<(), AllocError>
        ensures value { self.new ≡ self.old }
        ensures none { objects ≡ 0 → IsOk result }
    {
        self.classes.reserve(objects)?;
        self.ends.reserve(objects)
    }

    /// The next object.
    #[inline(always)]
    pub(crate) fn push(&mut self, class: u16, fields: &[u64]) -> Result<(), AllocError>
        ensures ok { OnOk result (self.new ≡ self.old
            ++ record { class = class; fields = fields.now } ∷ []) }
        ensures err { OnErr result (self.new ≡ self.old) }
    {
        append(
            &mut self.classes,
            &mut self.ends,
            &mut self.words,
            class,
            fields,
        )
    }

    /// The class of an object.
    #[inline(always)]
    pub(crate) fn class(&self, object: usize) -> u16
        requires { object < length self.now }
        ensures { (o : ObjectState) → slice_get self.now object ≡ Some o → result ≡ o.class }
    {
        self.classes[object]
    }

    /// The words in an object's fields.
    #[inline(always)]
    pub(crate) fn fields(&self, object: usize) -> &[u64]
        requires { object < length self.now }
        ensures { (o : ObjectState) → slice_get self.now object ≡ Some o → result.now ≡ o.fields }
    {
        part(&self.words, start_in(&self.ends, object), self.ends[object])
    }

    /// The word in a field.
    #[inline(always)]
    pub(crate) fn get(&self, object: usize, field: usize) -> u64
        requires { (o : ObjectState) × (slice_get self.now object ≡ Some o)
            × (field < length o.fields) }
        ensures { (o : ObjectState) → slice_get self.now object ≡ Some o
            → slice_get o.fields field ≡ Some result }
    {
        self.words[start_in(&self.ends, object) + field]
    }

    /// Writes a word to a field.
    #[inline(always)]
    pub(crate) fn put(&mut self, object: usize, field: usize, word: u64)
        requires { (o : ObjectState) × (slice_get self.old object ≡ Some o)
            × (field < length o.fields) }
        ensures { (o : ObjectState) → slice_get self.old object ≡ Some o
            → self.new ≡ slice_set self.old object
            (record o { fields = slice_set o.fields field word }) }
    {
        let start = start_in(&self.ends, object);
        self.words[start + field] = word;
    }

    /// The first so many.
    pub(crate) fn truncate(&mut self, objects: usize)
        ensures { self.new ≡ take objects self.old }
    {
        if objects >= self.classes.len() {
            return;
        }
        let start = start_in(&self.ends, objects);
        self.classes.truncate(objects);
        self.ends.truncate(objects);
        self.words.truncate(start);
    }
}
