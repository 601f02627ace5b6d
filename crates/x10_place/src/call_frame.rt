//! Call frames: a function that is being executed, and what an instruction does to it.
ghost use Rattle.std.specs.Prelude.{◌≡◌, ◌≢◌, ◌+◌, ◌<◌, ◌≤◌, ◌^◌, ℕ, OnErr, IfOk, IfNone, IfSome, None, Some, [], length, replicate, slice_index, slice_set, if◌then◌else◌};
ghost use Rattle.std.specs.Int.{w64, cast_signed};
ghost use Rattle.x10_code.specs.declared.op.Op.TheVariants as op;
ghost use Rattle.x10_model.specs.Results as machine;
ghost use Rattle.x10_model.specs.Values.{Int};
ghost use Rattle.x10_place.specs.declared.route.Local.TheVariants as local;
ghost use Rattle.x10_place.specs.Frames.{IsInside, IsFetchedFor, int_at, workspace, space_of, with_space, as_value, given, landing, tried, Acts, AsksNumber, Asks, ReadsNumber, ReadsPartial, Reads, PassesArguments, IsEntered, IsEnteredWith};
ghost use Rattle.x10_place.specs.Routes.{route_of};
ghost use Rattle.x10_place.specs.WorkingStays.{IsTypedFrame};
ghost use Rattle.x10_place.specs.Stays.{IsCalling, GoesNext, GoesNextWith, GoesBack};
ghost use Rattle.x10_place.specs.Stretches.{Locally};

use crate::heap::{
    field, object_of, rail_byte, rail_length, set_field, set_rail_byte, text_length,
};
use crate::route::{Local, Number, Partial, Route, classify};
use crate::store::Store;
use smallvec::SmallVec;
use std::alloc::{AllocError, Global};
use x10_code::Instr;
use x10_heap::{Heap, home_in};
use x10_verify::Verified;

/// A function that is being executed: the number of its next instruction, a word for each register, and how many turns each
/// open loop still makes. A word is a number's 64 bits, a place's number, or a reference's; it has no tag, since the verifier
/// knows its kind. There may be more registers than the function has: a call frame is reused.
#[derive(Drop)]
pub struct CallFrame {
    pub(crate) function: u16,
    pub(crate) pc: u16,
    pub(crate) registers: SmallVec<u64, 8>,
    pub(crate) loops: [u32; 8],
}

/// A call frame at the first instruction of a function, with `registers` registers, which are 0.
pub(crate) fn first_frame(
    alloc: Global,
    function: u16,
    registers: usize,
) -> Result<Box<CallFrame>, AllocError>
    ensures { IfOk result (λ frame. IsEnteredWith function registers [] frame.value) }
{
    let registers = SmallVec::from_elem(alloc, 0, registers)?;
    let frame = CallFrame {
        function,
        pc: 0,
        registers,
        loops: [0; 8],
    };
    Ok(Box::new(alloc, frame)?)
}

/// The number in a register.
#[inline(always)]
fn int(registers: &[u64], register: u8) -> i64
    requires { register < length registers.now }
    ensures { result ≡ int_at registers.now register }
{
    registers[usize::from(register)].cast_signed()
}

/// The quotient, rounded toward zero, which wraps where the least number is divided by -1; none where the divisor is zero.
fn quotient(x: i64, y: i64) -> Option<i64>
    ensures { as_value result ≡ machine.quotient x y }
{
    if y == 0 {
        return None;
    }
    Some(x.wrapping_div(y))
}

/// The remainder, with the sign of the dividend; none where the divisor is zero.
fn remainder(x: i64, y: i64) -> Option<i64>
    ensures { as_value result ≡ machine.remainder x y }
{
    if y == 0 {
        return None;
    }
    Some(x.wrapping_rem(y))
}

/// The number that an operation gives.
#[inline(always)]
fn number(registers: &[u64], heap: &Heap, verified: &Verified, number: Number, instr: Instr) -> i64
    requires asks { AsksNumber number verified.now.program (length registers.now) instr }
    requires reads { ReadsNumber number heap.now registers.now instr }
    ensures { Some (Int result) ≡ given number verified.now.program heap.now registers.now instr }
{
    match number {
        Number::Constant => verified.image().int(instr.x as usize),
        Number::Sum => int(registers, instr.b).wrapping_add(int(registers, instr.c)),
        Number::Difference => int(registers, instr.b).wrapping_sub(int(registers, instr.c)),
        Number::Product => int(registers, instr.b).wrapping_mul(int(registers, instr.c)),
        Number::Less => i64::from(int(registers, instr.b) < int(registers, instr.c)),
        Number::Equal => i64::from(int(registers, instr.b) == int(registers, instr.c)),
        Number::RailLength => rail_length(heap, registers[usize::from(instr.b)]),
        Number::TextLength => text_length(heap, registers[usize::from(instr.b)]),
        Number::PlaceNumber => registers[usize::from(instr.b)] as i64,
    }
}

/// The number that an operation gives, if there is one.
#[inline(always)]
fn attempt(registers: &[u64], heap: &Heap, partial: Partial, instr: Instr) -> Option<i64>
    requires b { instr.b < length registers.now }
    requires c { instr.c < length registers.now }
    requires reads { ReadsPartial partial heap.now registers.now instr }
    ensures { as_value result ≡ tried partial heap.now registers.now instr }
{
    let (x, y) = (int(registers, instr.b), int(registers, instr.c));
    match partial {
        Partial::Quotient => quotient(x, y),
        Partial::Remainder => remainder(x, y),
        Partial::Byte => rail_byte(heap, registers[usize::from(instr.b)], y),
    }
}

/// Writes a word to a register, and goes on: nothing is jumped to.
#[inline(always)]
fn write(word: u64, registers: &mut [u64], register: u8) -> Option<u16>
    requires { register < length registers.old }
    ensures next { result ≡ None }
    ensures written { registers.new ≡ slice_set registers.old register word }
{
    registers[usize::from(register)] = word;
    None
}

/// Where an instruction jumps to: nowhere where something holds, else to x.
#[inline(always)]
fn jump_unless(holds: bool, instr: Instr) -> Option<u16>
    requires { instr.x < 2 ^ 16 }
    ensures { result ≡ (if holds then None else Some instr.x) }
{
    if holds { None } else { Some(instr.x as u16) }
}

/// The number of the next instruction, from that of one and where that jumps to.
#[inline(always)]
fn landing(pc: u16, jump: Option<u16>) -> u16
    requires { pc + 1 < 2 ^ 16 }
    ensures { result ≡ landing pc jump }
{
    match jump {
        Some(target) => target,
        None => pc + 1,
    }
}

/// An operation of one call frame: where it jumps to, if it does. What goes on and what jumps meet in `landing` alone, so that
/// whether a loop turns again is a jump, which a processor foresees, and not a number that the next instruction waits for.
#[inline(always)]
fn act(
    registers: &mut [u64],
    loops: &mut [u32; 8],
    heap: &mut Heap,
    verified: &Verified,
    local: Local,
    instr: Instr,
) -> Option<u16>
    requires asks { Asks local verified.now.program (length registers.old) instr }
    requires reads { Reads local heap.old registers.old instr }
    ensures { (pc : ℕ) → Acts local verified.now.program
        (workspace pc registers.old loops.old heap.old) instr
        (workspace (landing pc result) registers.new loops.new heap.new) }
{
    let (a, b) = (usize::from(instr.a), usize::from(instr.b));
    match local {
        Local::Number(function) => {
            let number = number(registers, heap, verified, function, instr);
            write(number.cast_unsigned(), registers, instr.a)
        }
        Local::Partial(partial) => match attempt(registers, heap, partial, instr) {
            Some(number) => write(number.cast_unsigned(), registers, instr.a),
            None => Some(instr.x as u16),
        },
        Local::Copy => write(registers[b], registers, instr.a),
        Local::Null => write(0, registers, instr.a),
        Local::NotNull => match registers[b] {
            0 => Some(instr.x as u16),
            word => write(word, registers, instr.a),
        },
        Local::GetField => write(field(heap, registers[b], instr.c), registers, instr.a),
        Local::SetField => {
            set_field(heap, registers[a], instr.c, registers[b]);
            None
        }
        Local::SetByte => {
            let (index, number) = (int(registers, instr.b), int(registers, instr.c));
            jump_unless(set_rail_byte(heap, registers[a], index, number), instr)
        }
        Local::Place => write(u64::from(instr.x), registers, instr.a),
        Local::Home => write(u64::from(home_in(registers[b])), registers, instr.a),
        Local::Open => write(object_of(heap, registers[b]), registers, instr.a),
        Local::SamePlace => jump_unless(home_in(registers[a]) == home_in(registers[b]), instr),
        Local::Jump => Some(instr.x as u16),
        Local::JumpIfZero => jump_unless(int(registers, instr.a) != 0, instr),
        Local::Loop => {
            loops[a] = instr.x;
            None
        }
        Local::EndLoop => {
            loops[a] = loops[a].saturating_sub(1);
            if 0 < loops[a] {
                Some(instr.x as u16)
            } else {
                None
            }
        }
    }
}

impl CallFrame {
    /// The word in a register.
    #[inline(always)]
    pub(crate) fn word(&self, register: u8) -> u64
        requires { register < length self.now.registers.items }
        ensures { result ≡ slice_index self.now.registers.items register }
    {
        self.registers[usize::from(register)]
    }

    /// Goes on to the next instruction.
    #[inline(always)]
    pub(crate) fn next(&mut self)
        requires { self.old.pc + 1 < 2 ^ 16 }
        ensures { GoesNext self.old self.new }
    {
        self.pc += 1;
    }

    /// Writes a word to a register, and goes on to the next instruction.
    #[inline(always)]
    pub(crate) fn put(&mut self, register: u8, word: u64)
        requires there { register < length self.old.registers.items }
        requires next { self.old.pc + 1 < 2 ^ 16 }
        ensures { GoesNextWith self.old register word self.new }
    {
        self.registers[usize::from(register)] = word;
        self.pc += 1;
    }

    /// One operation of this call frame alone.
    #[inline(always)]
    pub(crate) fn act(&mut self, heap: &mut Heap, verified: &Verified, local: Local, instr: Instr)
        requires asks { Asks local verified.now.program (length self.old.registers.items) instr }
        requires reads { Reads local heap.old self.old.registers.items instr }
        requires next { self.old.pc + 1 < 2 ^ 16 }
        ensures acts { Acts local verified.now.program (space_of self.old heap.old) instr
            (space_of self.new heap.new) }
        ensures function { self.new.function ≡ self.old.function }
    {
        let registers = self.registers.as_mut_slice();
        let jump = act(registers, &mut self.loops, heap, verified, local, instr);
        self.pc = landing(self.pc, jump);
    }

    /// Operations of this call frame alone, one after another: as many as come before one that isn't, and at most `most`.
    /// How many there were, and the instruction at which the call frame then stands, if it isn't of this one alone.
    #[inline(always)]
    pub(crate) fn run_instructions(
        &mut self,
        heap: &mut Heap,
        verified: &Verified,
        most: u64,
    ) -> (u64, Option<Instr>)
        requires inside { IsInside verified.now.program self.old }
        requires typed { IsTypedFrame verified.now.program heap.old self.old }
        ensures ran { Locally verified.now.program self.old.function
            (space_of self.old heap.old) result.0 (space_of self.new heap.new) }
        ensures inside { IsInside verified.now.program self.new }
        ensures kept { self.new ≡ with_space self.old (space_of self.new heap.new) }
        ensures few { result.0 ≤ most }
        ensures all { IfNone result.1 (result.0 ≡ most) }
        ensures fewer { IfSome result.1 (λ _. result.0 < most) }
        ensures next { IfSome result.1 (IsFetchedFor verified.now.program self.new) }
    {
        verified.certificate();
        let function = usize::from(self.function);
        let code = verified.code(function);
        let mut pc = self.pc;
        let registers = self.registers.as_mut_slice();
        let loops = &mut self.loops;
        let mut left = most;
        while left > 0 {
            let instr = verified.fetch_from(code, function, usize::from(pc));
            let Route::Local(local) = classify(instr.op) else {
                self.pc = pc;
                return (most - left, Some(instr));
            };
            let jump = act(registers, loops, heap, verified, local, instr);
            pc = landing(pc, jump);
            left -= 1;
        }
        self.pc = pc;
        (most, None)
    }

    /// Goes to the first instruction of a function, with no loop open. Its registers are as they were.
    #[inline(always)]
    pub(crate) fn begin(&mut self, function: u16)
        ensures { self.new ≡ record self.old {
          function = function;
          pc = 0;
          loops = replicate 8 0;
        } }
    {
        self.function = function;
        self.pc = 0;
        self.loops = [0; 8];
    }

    /// The call frame of the function that an instruction calls, or begins an activity with, at its first instruction, with
    /// the arguments in its first registers.
    #[inline(always)]
    pub(crate) fn callee(
        &self,
        alloc: Global,
        verified: &Verified,
        store: &mut Store,
        instr: Instr,
    ) -> Result<Box<CallFrame>, AllocError>
        requires fetched { IsFetchedFor verified.now.program self.now instr }
        requires op { PassesArguments instr.op }
        ensures entered { IfOk result (λ frame. IsEntered verified.now.program
            self.now.registers.items instr frame.value) }
        ensures kept { store.new ≡ store.old }
    {
        verified.certificate();
        let signature = verified.image().signature(instr.x as usize);
        let mut frame = store.frame(alloc, usize::from(signature.registers()))?;
        frame.begin(instr.x as u16);
        let words: &[u64] = &self.registers;
        let registers: &mut [u64] = &mut frame.registers;
        let first = usize::from(instr.b);
        for i in 0..signature.parameters() {
            registers[i] = words[first + i];
        }
        Ok(frame)
    }

    /// Goes on after the call at which the call frame stands, with the result of the function that ended, if it gives one.
    #[inline(always)]
    pub(crate) fn resume(&mut self, verified: &Verified, ended: &CallFrame, instr: Instr)
        requires calling { IsCalling verified.now.program self.old ended.now.function }
        requires inside { IsInside verified.now.program ended.now }
        requires fetched { IsFetchedFor verified.now.program ended.now instr }
        requires op { instr.op ≡ op.Ret }
        ensures { GoesBack verified.now.program ended.now instr self.old self.new }
    {
        verified.certificate();
        let to = verified.first_operand(usize::from(self.function), usize::from(self.pc));
        let signature = verified.image().signature(usize::from(ended.function));
        if signature.result().is_some() {
            self.put(to, ended.word(instr.a));
        } else {
            self.next();
        }
    }
}
