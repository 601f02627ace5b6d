//! A run, and what was in it.
use crate::terminal::speak;
use crate::trouble::Trouble;
use std::io::{BufWriter, Write};
use x10_cli::{Fault, run_counted, tell};
use x10_files::{Output, Told};
use x10_task::Task;

/// Does a run and prints what it prints, then what is said about a fault, and last, where standard output could be written, what
/// was in the run.
pub fn run(
    rt: &HostRuntime,
    task: &Task,
    bytes: &[u8],
    source: Option<&str>,
) -> Result<u8, Trouble> {
    let alloc = rt.alloc();
    let Ok(mut out) = BufWriter::new(alloc, Output::new(rt.stdout())) else {
        return Err(Trouble::Memory);
    };
    let mut told = Told::new(alloc)?;
    let mut stats = None;
    let status = run_counted(alloc, task, bytes, source, &mut out, &mut told, &mut stats);
    let status = speak(rt, task, out.get_ref().failure(), told.bytes(), status);
    if status != 4
        && let Some(text) = &stats
        && rt.stderr().write_all(text.as_bytes()).is_err()
    {
        return Ok(tell(Fault::File, &mut rt.stderr()));
    }
    Ok(status)
}
