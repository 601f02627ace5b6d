//! What a call answers: a status, a fault as numbers, and a text in the caller's buffer.
ghost use Rattle.std.specs.Prelude.{◌≡◌, ◌<◌, ◌≤◌, true, false, ℕ, List, Option, length, take, drop};
ghost use Rattle.x10_task.specs.declared.task.Verb.{Verb};
ghost use Rattle.x10_c.specs.Calls.{Answers, Came, status_in, told_of};

use crate::numbers::{FaultNumbers, none, numbers};
use x10_cli::Fault;

/// The status where a pointer is null.
pub const NULL: u32 = 5;
/// The status where the caller's buffer is too small.
pub const SMALL: u32 = 6;

/// Tells what came of a call: its fault, or that there is none, and its status.
pub fn tell(done: Result<(), Fault>, told: &mut FaultNumbers) -> u32
    ensures status { result ≡ status_in done }
    ensures told { told.new ≡ told_of done }
{
    match done {
        Ok(()) => {
            *told = none();
            0
        }
        Err(fault) => {
            *told = numbers(fault);
            u32::from(fault.status())
        }
    }
}

/// Copies items into the front of a buffer, where it has room; whether it has.
pub fn copy<T: Copy>(items: &[T], buffer: &mut [T], needed: &mut usize) -> bool
    ensures needed { needed.new ≡ length items.now }
    ensures written { result ≡ true → take needed.new buffer.new ≡ items.now }
    ensures rest { result ≡ true → drop needed.new buffer.new ≡ drop needed.new buffer.old }
    ensures fits { result ≡ true → needed.new ≤ length buffer.old }
    ensures small { result ≡ false → length buffer.old < needed.new }
    ensures kept { result ≡ false → buffer.new ≡ buffer.old }
{
    *needed = items.len();
    if buffer.len() < items.len() {
        return false;
    }
    buffer[..items.len()].copy_from_slice(items);
    true
}

/// Gives the caller what came of a command, and what it printed.
pub fn give(
    done: Result<(), Fault>,
    text: &[u8],
    buffer: &mut [u8],
    needed: &mut usize,
    told: &mut FaultNumbers,
) -> u32
    ensures { (v : Verb) (asked : Option ℕ) (bytes : List ℕ) → Came v asked bytes done text.now
        → Answers v asked bytes result told.new needed.new buffer.old buffer.new }
{
    let status = tell(done, told);
    if copy(text, buffer, needed) {
        return status;
    }
    SMALL
}
