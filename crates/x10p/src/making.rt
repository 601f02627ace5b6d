//! Work whose output is kept until it is whole.
ghost use Rattle.std.specs.Prelude.{◌≡◌, IsTrue};

use crate::trouble::Trouble;
use std::sync::Wait;
use std::thread::Threads;
use x10_cli::execute;
use x10_files::{Output, Told, whole};
use x10_task::{Task, Verb};

/// Does the work. What it prints goes to `made`, and what is said about a fault to `told`.
pub fn make<R: Threads + Wait + Sync>(
    rt: &HostRuntime,
    threads: &R,
    task: &Task,
    bytes: &[u8],
    source: Option<&str>,
    made: &mut Output<Vec<u8>>,
    told: &mut Told,
) -> Result<u8, Trouble> {
    let status = execute(threads, rt.alloc(), task, bytes, source, made, told);
    if made.wants_memory() {
        return Err(Trouble::Memory);
    }
    Ok(status)
}

/// Writes what was made to a file, whole or not at all, if there is anything to write.
pub fn write_made(
    rt: &HostRuntime,
    task: &Task,
    status: u8,
    made: &[u8],
    output: &str,
) -> Result<(), Trouble> {
    if !is_written(task.verb, status) || made.is_empty() {
        return Ok(());
    }
    match whole::write(rt, output, made) {
        Ok(()) => Ok(()),
        Err(error) => Err(Trouble::writing(error)),
    }
}

/// Whether a file is written at a status: an image only where the work is done; a picture or page also where the run stopped.
fn is_written(verb: Verb, status: u8) -> bool
    ensures { verb ≡ Verb.Asm → IsTrue result → status ≡ 0 }
{
    status == 0 || matches!(verb, Verb::Draw | Verb::DrawPage)
}
