//! Operations that depend on the place where they are executed, and global references to its objects.
ghost use Rattle.std.specs.Prelude.{◌≡◌, ◌+◌, ◌<◌, ◌^◌, ℕ, IfErr, IfOk, Err, length};
ghost use Rattle.x10_kinds.specs.declared.limit.Limit.TheVariants as limits;
ghost use Rattle.x10_kinds.specs.declared.stop.Stop.TheVariants as stop;
ghost use Rattle.x10_heap.specs.Heaps.{HeapState, IsFull};
ghost use Rattle.x10_place.specs.Frames.{space_of, numbered, Puts, ActsAt, AsksAt, ReadsAt};
ghost use Rattle.x10_place.specs.Making.{ExportsObject, NamesObject, IsExportRefused};

use crate::call_frame::CallFrame;
use crate::route::Site;
use crate::stay::Locality;
use x10_code::Instr;
use x10_heap::{Heap, home_in, reference};
use x10_kinds::Stop;

/// The place with a number, if there is one.
fn place_numbered(places: u16, number: i64) -> Option<u16>
    ensures { result ≡ numbered places number }
{
    match u16::try_from(number) {
        Ok(place) if place < places => Some(place),
        _ => None,
    }
}

impl CallFrame {
    /// Writes a word to register a and goes on, or goes to x where there is none.
    fn put_or_jump(&mut self, word: Option<u16>, instr: Instr)
        requires there { instr.a < length self.old.registers.items }
        requires next { self.old.pc + 1 < 2 ^ 16 }
        requires target { instr.x < 2 ^ 16 }
        ensures puts { (heap : HeapState) → Puts word (space_of self.old heap) instr
            (space_of self.new heap) }
        ensures function { self.new.function ≡ self.old.function }
    {
        match word {
            Some(word) => self.put(instr.a, u64::from(word)),
            None => self.pc = instr.x as u16,
        }
    }

    /// One operation that depends on the place where it is executed.
    pub(crate) fn act_at(&mut self, locality: Locality, site: Site, instr: Instr)
        requires asks { AsksAt site (length self.old.registers.items) instr }
        requires reads { ReadsAt site locality.places self.old.registers.items instr }
        requires next { self.old.pc + 1 < 2 ^ 16 }
        ensures acts { (heap : HeapState) → ActsAt site locality.here locality.places
            (space_of self.old heap) instr (space_of self.new heap) }
        ensures function { self.new.function ≡ self.old.function }
    {
        match site {
            Site::Here => self.put(instr.a, u64::from(locality.here)),
            Site::Count => self.put(instr.a, u64::from(locality.places)),
            Site::Next => {
                let next = (self.word(instr.b) + 1) % u64::from(locality.places);
                self.put(instr.a, next);
            }
            Site::Numbered => {
                let number = self.word(instr.b).cast_signed();
                self.put_or_jump(place_numbered(locality.places, number), instr);
            }
            Site::IsHere => {
                if home_in(self.word(instr.a)) == locality.here {
                    self.next();
                } else {
                    self.pc = instr.x as u16;
                }
            }
        }
    }

    /// A global reference to the object in register b. Where it is refused, nothing has changed.
    pub(crate) fn export(
        &mut self,
        locality: Locality,
        heap: &mut Heap,
        instr: Instr,
    ) -> Result<(), Stop>
        requires there { instr.a < length self.old.registers.items }
        requires from { instr.b < length self.old.registers.items }
        requires reads { NamesObject heap.old self.old.registers.items instr.b }
        requires next { self.old.pc + 1 < 2 ^ 16 }
        ensures ok { IfOk result (λ _. ExportsObject locality.here
            (space_of self.old heap.old) instr (space_of self.new heap.new)) }
        ensures err { IfErr result (λ why. (self.new ≡ self.old) × (heap.new ≡ heap.old)
            × IsExportRefused heap.old why) }
        ensures full { IsFull (length heap.old.exports)
            → result ≡ Err (stop.Limit limits.References) }
        ensures function { self.new.function ≡ self.old.function }
    {
        heap.fits();
        let object = (self.word(instr.b) - 1) as u32;
        let id = heap.export(object)?;
        self.put(instr.a, reference(locality.here, id));
        Ok(())
    }
}
