//! Call frames.
ghost use Rattle.std.specs.Prelude.{◌≡◌, ◌<◌, ◌++◌, IfOk, OnOk, decimal, length, slice_index};
ghost use Rattle.std.specs.String.{string_bytes};
ghost use Rattle.x10_asm.specs.Listing.{kind_word};
ghost use Rattle.x10_states.specs.Frames.{frame_text, known_text, loops_text, register_text, registers_text, site_text};
ghost use Rattle.x10_states.specs.Json.{comma, elements};
ghost use Rattle.x10_states.specs.Kinds.{known_kind, known_registers};
ghost use Rattle.x10_states.specs.Objects.{numbers_text};

use crate::json::push_comma;
use crate::kinds::Kinds;
use crate::values::push_word;
use std::alloc::{AllocError, Global};
use std::fmt::Write;
use x10_heap::Heap;
use x10_kinds::Kind;
use x10_place::CallFrame;

/// Pushes the word of a kind.
pub fn push_kind(out: &mut String, kind: Kind) -> Result<(), AllocError>
    ensures { OnOk result (string_bytes out.new ≡ string_bytes out.old ++ kind_word kind) }
{
    match kind {
        Kind::Int => out.push_str("int"),
        Kind::Place => out.push_str("place"),
        Kind::Text => out.push_str("text"),
        Kind::Rail => out.push_str("rail"),
        Kind::Obj(class) => write!(out, "obj:{class}"),
        Kind::Opt(class) => write!(out, "opt:{class}"),
        Kind::GRef(class) => write!(out, "gref:{class}"),
    }
}

/// Pushes a register that is set: its number, its kind and its value. Nothing where no kind is known.
fn push_register(
    alloc: Global,
    out: &mut String,
    heap: &Heap,
    register: u8,
    kind: Option<Kind>,
    word: u64,
) -> Result<(), AllocError>
    ensures { OnOk result (string_bytes out.new
        ≡ string_bytes out.old ++ register_text heap.now register kind word) }
{
    let Some(kind) = kind else {
        return Ok(());
    };
    write!(out, "[{register},\"")?;
    push_kind(out, kind)?;
    out.push_str("\",")?;
    push_word(alloc, out, heap, Some(kind), word)?;
    out.push(']')
}

/// A word of a list; 0 where there is none.
fn word_at(words: &[u64], at: u8) -> u64
    ensures { result ≡ slice_index words.now at }
{
    let at = usize::from(at);
    if at < words.len() { words[at] } else { 0 }
}

/// Pushes the register with a number in a list, with a comma before all but the first.
fn push_listed(
    alloc: Global,
    out: &mut String,
    kinds: &Kinds,
    heap: &Heap,
    frame: &CallFrame,
    registers: &[u8],
    at: usize,
) -> Result<(), AllocError>
    requires { at < length registers.now }
    ensures { OnOk result (string_bytes out.new ≡ string_bytes out.old ++ (comma at
        ++ register_text heap.now (slice_index registers.now at)
        (known_kind kinds.now frame.now.function frame.now.pc (slice_index registers.now at))
        (slice_index frame.now.registers.items (slice_index registers.now at)))) }
{
    let register = registers[at];
    let kind = kinds.kind(frame.function(), frame.pc(), register);
    push_comma(out, at)?;
    push_register(
        alloc,
        out,
        heap,
        register,
        kind,
        word_at(frame.registers(), register),
    )
}

fn push_registers(
    alloc: Global,
    out: &mut String,
    kinds: &Kinds,
    heap: &Heap,
    frame: &CallFrame,
    registers: &[u8],
) -> Result<(), AllocError>
    ensures { OnOk result (string_bytes out.new ≡ string_bytes out.old
        ++ elements (length registers.now) (λ i. register_text heap.now
        (slice_index registers.now i)
        (known_kind kinds.now frame.now.function frame.now.pc (slice_index registers.now i))
        (slice_index frame.now.registers.items (slice_index registers.now i)))) }
{
    for i in 0..registers.len() {
        push_listed(alloc, out, kinds, heap, frame, registers, i)?;
    }
    Ok(())
}

/// Pushes the list of registers of a call frame.
#[tactic(auto, unfolding(crate::specs::Frames::registers_text))]
fn push_list_of(
    alloc: Global,
    out: &mut String,
    kinds: &Kinds,
    heap: &Heap,
    frame: &CallFrame,
    registers: &[u8],
) -> Result<(), AllocError>
    ensures { OnOk result (string_bytes out.new ≡ string_bytes out.old
        ++ registers_text heap.now (known_kind kinds.now frame.now.function frame.now.pc)
        registers.now frame.now.registers.items) }
{
    out.push_str("[")?;
    push_registers(alloc, out, kinds, heap, frame, registers)?;
    out.push_str("]")
}

/// Pushes the registers of a call frame, which are those that are known to be set.
#[tactic(auto, unfolding(crate::specs::Frames::known_text))]
fn push_these(
    alloc: Global,
    out: &mut String,
    kinds: &Kinds,
    heap: &Heap,
    frame: &CallFrame,
    registers: &[u8],
) -> Result<(), AllocError>
    requires { registers.now
        ≡ known_registers (known_kind kinds.now frame.now.function frame.now.pc) }
    ensures { OnOk result (string_bytes out.new
        ≡ string_bytes out.old ++ known_text kinds.now heap.now frame.now) }
{
    out.push_str(",\"registers\":")?;
    push_list_of(alloc, out, kinds, heap, frame, registers)
}

/// The registers that are known to be set where a call frame stands.
fn known_in(alloc: Global, kinds: &Kinds, frame: &CallFrame) -> Result<Vec<u8>, AllocError>
    ensures { IfOk result (λ registers. registers.items
        ≡ known_registers (known_kind kinds.now frame.now.function frame.now.pc)) }
{
    kinds.registers(alloc, frame.function(), frame.pc())
}

/// Pushes the registers of a call frame that are known to be set.
fn push_known(
    alloc: Global,
    out: &mut String,
    kinds: &Kinds,
    heap: &Heap,
    frame: &CallFrame,
) -> Result<(), AllocError>
    ensures { OnOk result (string_bytes out.new
        ≡ string_bytes out.old ++ known_text kinds.now heap.now frame.now) }
{
    let registers = known_in(alloc, kinds, frame)?;
    push_these(alloc, out, kinds, heap, frame, &registers)
}

fn push_number(out: &mut String, at: usize, number: u32) -> Result<(), AllocError>
    ensures { OnOk result (string_bytes out.new
        ≡ string_bytes out.old ++ (comma at ++ decimal number)) }
{
    push_comma(out, at)?;
    write!(out, "{number}")
}

/// Pushes numbers in decimal, with commas between them.
fn push_numbers(out: &mut String, numbers: &[u32]) -> Result<(), AllocError>
    ensures { OnOk result (string_bytes out.new ≡ string_bytes out.old
        ++ elements (length numbers.now) (λ i. decimal (slice_index numbers.now i))) }
{
    for i in 0..numbers.len() {
        push_number(out, i, numbers[i])?;
    }
    Ok(())
}

/// Pushes numbers in decimal, as a list.
#[tactic(auto, unfolding(crate::specs::Objects::numbers_text))]
fn push_list(out: &mut String, numbers: &[u32]) -> Result<(), AllocError>
    ensures { OnOk result (string_bytes out.new
        ≡ string_bytes out.old ++ numbers_text numbers.now) }
{
    out.push('[')?;
    push_numbers(out, numbers)?;
    out.push(']')
}

/// Pushes how many turns the loop of each slot still makes.
#[tactic(auto, unfolding(crate::specs::Frames::loops_text))]
fn push_loops(out: &mut String, loops: &[u32]) -> Result<(), AllocError>
    ensures { OnOk result (string_bytes out.new ≡ string_bytes out.old ++ loops_text loops.now) }
{
    out.push_str(",\"loops\":")?;
    push_list(out, loops)?;
    out.push_str("}")
}

/// Pushes where a call frame stands.
#[tactic(auto, unfolding(crate::specs::Frames::site_text))]
fn push_site(out: &mut String, frame: &CallFrame) -> Result<(), AllocError>
    ensures { OnOk result (string_bytes out.new
        ≡ string_bytes out.old ++ site_text frame.now.function frame.now.pc) }
{
    let (function, pc) = (frame.function(), frame.pc());
    out.push_str("{\"function\":")?;
    write!(out, "{function},\"pc\":{pc}")
}

/// Pushes a call frame: its function and where it stands there, the registers that are known to be set there, each with its
/// kind and its value, and how many turns the loop of each slot still makes. Linear in the registers and their texts.
#[tactic(auto, unfolding(crate::specs::Frames::frame_text))]
pub fn push_frame(
    alloc: Global,
    out: &mut String,
    kinds: &Kinds,
    heap: &Heap,
    frame: &CallFrame,
) -> Result<(), AllocError>
    ensures { OnOk result (string_bytes out.new
        ≡ string_bytes out.old ++ frame_text kinds.now heap.now frame.now) }
{
    push_site(out, frame)?;
    push_known(alloc, out, kinds, heap, frame)?;
    push_loops(out, frame.loops())
}
