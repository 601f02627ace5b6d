//! Texts, objects and rails that an instruction makes in the heap of its place.
ghost use Rattle.std.specs.Prelude.{◌≡◌, ◌+◌, ◌<◌, ◌^◌, ℕ, IfErr, IfOk, Err, length};
ghost use Rattle.x10_kinds.specs.declared.limit.Limit.{Limit};
ghost use Rattle.x10_kinds.specs.declared.stop.Stop.TheVariants as stop;
ghost use Rattle.x10_model.specs.Results as machine;
ghost use Rattle.x10_place.specs.declared.route.Make.TheVariants as make;
ghost use Rattle.x10_place.specs.Frames.{space_of};
ghost use Rattle.x10_place.specs.Making.{Makes, AsksMake, ReadsMake, Overfills, IsRefused};

use crate::call_frame::CallFrame;
use crate::route::Make;
use x10_code::Instr;
use x10_heap::Heap;
use x10_kinds::Stop;
use x10_verify::Verified;

/// A number as the length of a rail, where a rail may be that long.
fn rail_length(number: i64) -> Option<u16>
    ensures { result ≡ machine.rail_length number }
{
    u16::try_from(number).ok()
}

impl CallFrame {
    /// A text of the module becomes a text of the heap.
    #[inline(never)]
    fn make_text(&mut self, verified: &Verified, heap: &mut Heap, instr: Instr) -> Result<(), Stop>
        requires asks { AsksMake make.Text verified.now.program
            (length self.old.registers.items) instr }
        requires next { self.old.pc + 1 < 2 ^ 16 }
        ensures ok { IfOk result (λ _. Makes make.Text verified.now.program
            (space_of self.old heap.old) instr (space_of self.new heap.new)) }
        ensures err { IfErr result (λ why. (self.new ≡ self.old) × (heap.new ≡ heap.old)
            × IsRefused make.Text heap.old self.old.registers.items instr why) }
        ensures full { (limit : Limit) → Overfills make.Text heap.old self.old.registers.items
            instr limit → result ≡ Err (stop.Limit limit) }
        ensures function { self.new.function ≡ self.old.function }
    {
        let text = verified.image().text(instr.x as usize);
        let number = heap.new_text(text)?;
        self.put(instr.a, u64::from(number));
        Ok(())
    }

    /// Two texts are joined, or none where they would be too long.
    #[inline(never)]
    fn join_texts(&mut self, verified: &Verified, heap: &mut Heap, instr: Instr) -> Result<(), Stop>
        requires asks { AsksMake make.JoinedText verified.now.program
            (length self.old.registers.items) instr }
        requires reads { ReadsMake make.JoinedText heap.old self.old.registers.items instr }
        requires next { self.old.pc + 1 < 2 ^ 16 }
        ensures ok { IfOk result (λ _. Makes make.JoinedText verified.now.program
            (space_of self.old heap.old) instr (space_of self.new heap.new)) }
        ensures err { IfErr result (λ why. (self.new ≡ self.old) × (heap.new ≡ heap.old)
            × IsRefused make.JoinedText heap.old self.old.registers.items instr why) }
        ensures full { (limit : Limit) → Overfills make.JoinedText heap.old
            self.old.registers.items instr limit → result ≡ Err (stop.Limit limit) }
        ensures function { self.new.function ≡ self.old.function }
    {
        heap.fits();
        let (first, second) = (self.word(instr.b), self.word(instr.c));
        match heap.join(first as u32, second as u32) {
            Ok(Some(number)) => self.put(instr.a, u64::from(number)),
            Ok(None) => self.pc = instr.x as u16,
            Err(why) => return Err(why),
        }
        Ok(())
    }

    /// An object of a class, with its fields from register b on.
    #[inline(never)]
    fn make_object(
        &mut self,
        verified: &Verified,
        heap: &mut Heap,
        instr: Instr,
    ) -> Result<(), Stop>
        requires asks { AsksMake make.Object verified.now.program
            (length self.old.registers.items) instr }
        requires next { self.old.pc + 1 < 2 ^ 16 }
        ensures ok { IfOk result (λ _. Makes make.Object verified.now.program
            (space_of self.old heap.old) instr (space_of self.new heap.new)) }
        ensures err { IfErr result (λ why. (self.new ≡ self.old) × (heap.new ≡ heap.old)
            × IsRefused make.Object heap.old self.old.registers.items instr why) }
        ensures full { (limit : Limit) → Overfills make.Object heap.old self.old.registers.items
            instr limit → result ≡ Err (stop.Limit limit) }
        ensures function { self.new.function ≡ self.old.function }
    {
        let image = verified.image();
        image.fits();
        let count = image.class(instr.x as usize).len();
        let first = usize::from(instr.b);
        let number = heap.new_object(instr.x as u16, &self.registers[first..first + count])?;
        self.put(instr.a, u64::from(number) + 1);
        Ok(())
    }

    /// A rail of zeros, or none where it can't be that long.
    #[inline(never)]
    fn make_rail(&mut self, verified: &Verified, heap: &mut Heap, instr: Instr) -> Result<(), Stop>
        requires asks { AsksMake make.Rail verified.now.program
            (length self.old.registers.items) instr }
        requires next { self.old.pc + 1 < 2 ^ 16 }
        ensures ok { IfOk result (λ _. Makes make.Rail verified.now.program
            (space_of self.old heap.old) instr (space_of self.new heap.new)) }
        ensures err { IfErr result (λ why. (self.new ≡ self.old) × (heap.new ≡ heap.old)
            × IsRefused make.Rail heap.old self.old.registers.items instr why) }
        ensures full { (limit : Limit) → Overfills make.Rail heap.old self.old.registers.items
            instr limit → result ≡ Err (stop.Limit limit) }
        ensures function { self.new.function ≡ self.old.function }
    {
        let Some(count) = rail_length(self.word(instr.b).cast_signed()) else {
            self.pc = instr.x as u16;
            return Ok(());
        };
        let number = heap.new_rail(count)?;
        self.put(instr.a, u64::from(number));
        Ok(())
    }

    /// One operation that makes something in the heap. Where it is refused, nothing has changed.
    #[inline(always)]
    pub(crate) fn make(
        &mut self,
        verified: &Verified,
        heap: &mut Heap,
        make: Make,
        instr: Instr,
    ) -> Result<(), Stop>
        requires asks { AsksMake make verified.now.program (length self.old.registers.items) instr }
        requires reads { ReadsMake make heap.old self.old.registers.items instr }
        requires next { self.old.pc + 1 < 2 ^ 16 }
        ensures ok { IfOk result (λ _. Makes make verified.now.program
            (space_of self.old heap.old) instr (space_of self.new heap.new)) }
        ensures err { IfErr result (λ why. (self.new ≡ self.old) × (heap.new ≡ heap.old)
            × IsRefused make heap.old self.old.registers.items instr why) }
        ensures full { (limit : Limit) → Overfills make heap.old self.old.registers.items instr
            limit → result ≡ Err (stop.Limit limit) }
        ensures function { self.new.function ≡ self.old.function }
    {
        match make {
            Make::Text => self.make_text(verified, heap, instr),
            Make::JoinedText => self.join_texts(verified, heap, instr),
            Make::Object => self.make_object(verified, heap, instr),
            Make::Rail => self.make_rail(verified, heap, instr),
        }
    }
}
