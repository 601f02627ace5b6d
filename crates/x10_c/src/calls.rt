//! The calls of the header, each with the clauses of what it calls.
ghost use Rattle.std.specs.Prelude.{◌≡◌, ◌≢◌, List, ℕ, None, length, take};
ghost use Rattle.x10_task.specs.declared.task.Verb.TheVariants as verb;
ghost use Rattle.x10_cli.specs.declared.fault.Fault.{Fault};
ghost use Rattle.x10_cli.specs.Answers.{CanBeDone, IsVerifiedImage};
ghost use Rattle.x10_cli.specs.Telling.{fault_line};
ghost use Rattle.x10_c.specs.Numbers.{no_fault, numbers_of};
ghost use Rattle.x10_c.specs.Calls.{Answers, HasRoom, IsAddress, IsBounded, IsMutAddress, IsTold, asked_of};

use crate::answer::{NULL, SMALL, copy, give, tell};
use crate::null::is_null;
use crate::numbers::{FaultNumbers, fault};
use crate::work::{assembled, bounded, checked, line_of, listed, ran, verified};
use std::alloc::Global;

/// Does a command, and gives the caller what came of it and what it wrote.
macro_rules! answer {
    ($command:ident($alloc:ident, $($with:ident),*), $buffer:ident, $needed:ident, $told:ident) => {{
        if is_null(&*$needed) || is_null(&*$told) {
            return NULL;
        }
        let mut text = Vec::new($alloc);
        let done = $command($alloc, $($with,)* &mut text);
        give(done, &text, $buffer, $needed, $told)
    }};
}

/// Verifies an image. 0: it is the image of a module that the verifier accepts; 1: it isn't, and the fault is the one that is due;
/// 2: memory was refused.
#[unsafe(no_mangle)]
pub extern "C" fn burjeeg_verify(alloc: Global, image: &[u8], told: &mut FaultNumbers) -> u32
    requires told { IsMutAddress told }
    ensures verified { result ≡ 0 → IsVerifiedImage image.now }
    ensures clear { result ≡ 0 → told.new ≡ no_fault }
    ensures refused { result ≡ 1 → IsVerifiedImage image.now → ⊥ }
    ensures due { result ≢ 0 → IsTold image.now None result told.new }
{
    if is_null(&*told) {
        return NULL;
    }
    tell(verified(alloc, image), told)
}

/// Tells how many steps each function of an image takes at most, with those that it calls.
#[unsafe(no_mangle)]
pub extern "C" fn burjeeg_bounds(
    alloc: Global,
    image: &[u8],
    bounds: &mut [u64],
    count: &mut usize,
    told: &mut FaultNumbers,
) -> u32
    requires count { IsMutAddress count }
    requires told { IsMutAddress told }
    ensures done { result ≡ 0 → IsBounded image.now (take count.new bounds.new) }
    ensures clear { result ≡ 0 → told.new ≡ no_fault }
    ensures refused { result ≡ 1 → CanBeDone verb.Bounds None image.now → ⊥ }
    ensures due { result ≢ 0 → result ≢ 6 → IsTold image.now None result told.new }
    ensures room { HasRoom result count.new bounds.old bounds.new }
    ensures wanted { result ≡ 6 → (found : List ℕ) × IsBounded image.now found
        × (count.new ≡ length found) }
{
    if is_null(&*count) || is_null(&*told) {
        return NULL;
    }
    *count = 0;
    match bounded(alloc, image) {
        Ok(found) => {
            let status = tell(Ok(()), told);
            if copy(&found, bounds, count) {
                status
            } else {
                SMALL
            }
        }
        Err(fault) => tell(Err(fault), told),
    }
}

/// Writes the canonical listing of an image.
#[unsafe(no_mangle)]
pub extern "C" fn burjeeg_list(
    alloc: Global,
    image: &[u8],
    buffer: &mut [u8],
    needed: &mut usize,
    told: &mut FaultNumbers,
) -> u32
    requires needed { IsMutAddress needed }
    requires told { IsMutAddress told }
    ensures { Answers verb.List None image.now result told.new needed.new buffer.old buffer.new }
{
    answer!(listed(alloc, image), buffer, needed, told)
}

/// Writes the image of a text.
#[unsafe(no_mangle)]
pub extern "C" fn burjeeg_assemble(
    alloc: Global,
    text: &[u8],
    buffer: &mut [u8],
    needed: &mut usize,
    told: &mut FaultNumbers,
) -> u32
    requires needed { IsMutAddress needed }
    requires told { IsMutAddress told }
    ensures { Answers verb.Asm None text.now result told.new needed.new buffer.old buffer.new }
{
    answer!(assembled(alloc, text), buffer, needed, told)
}

/// Writes the report about a text or an image: the bound of each function, or what is wrong, explained.
#[unsafe(no_mangle)]
pub extern "C" fn burjeeg_check(
    alloc: Global,
    bytes: &[u8],
    buffer: &mut [u8],
    needed: &mut usize,
    told: &mut FaultNumbers,
) -> u32
    requires needed { IsMutAddress needed }
    requires told { IsMutAddress told }
    ensures { Answers verb.Check None bytes.now result told.new needed.new buffer.old buffer.new }
{
    answer!(checked(alloc, bytes), buffer, needed, told)
}

/// Verifies an image, runs it at so many places, 0 for its least number, and writes the lines that they printed. It makes at most
/// `limit` events, in rounds.
#[unsafe(no_mangle)]
pub extern "C" fn burjeeg_run(
    alloc: Global,
    image: &[u8],
    places: u16,
    limit: u64,
    buffer: &mut [u8],
    needed: &mut usize,
    told: &mut FaultNumbers,
) -> u32
    requires needed { IsMutAddress needed }
    requires told { IsMutAddress told }
    ensures { Answers verb.Run (asked_of places) image.now result told.new needed.new buffer.old
        buffer.new }
{
    answer!(ran(alloc, image, places, limit), buffer, needed, told)
}

/// Writes the line by which the program tells a fault. 1: no fault has these numbers; 2: memory was refused.
#[unsafe(no_mangle)]
pub extern "C" fn burjeeg_fault_line(
    alloc: Global,
    told: &FaultNumbers,
    buffer: &mut [u8],
    needed: &mut usize,
) -> u32
    requires told { IsAddress told }
    requires needed { IsMutAddress needed }
    ensures line { (f : Fault) → numbers_of f ≡ told.now → result ≡ 0
        → take needed.new buffer.new ≡ fault_line f }
    ensures length { (f : Fault) → numbers_of f ≡ told.now → result ≡ 6
        → needed.new ≡ length (fault_line f) }
    ensures refused { result ≡ 1 → (f : Fault) → numbers_of f ≡ told.now → ⊥ }
    ensures room { HasRoom result needed.new buffer.old buffer.new }
{
    if is_null(told) || is_null(&*needed) {
        return NULL;
    }
    *needed = 0;
    let Some(fault) = fault(told) else {
        return 1;
    };
    let Ok(text) = line_of(alloc, fault) else {
        return 2;
    };
    if copy(&text, buffer, needed) {
        return 0;
    }
    SMALL
}
