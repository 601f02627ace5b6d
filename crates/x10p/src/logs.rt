//! Logs of runs with threads: one that is written when its run is over, and one that is read to be audited or shown.
use crate::input;
use crate::making::write_made;
use crate::terminal::speak;
use crate::trouble::Trouble;
use std::fs::{self, File};
use std::io::{self, BufWriter};
use std::sync::Wait;
use std::thread::Threads;
use x10_cli::{audit_logged, run_logged, show_logged};
use x10_files::{Output, Told, whole};
use x10_task::{Task, Verb};

/// Does a run with threads, and prints what it prints; then, if that could be written, writes its log, if it has one, whole or
/// not at all.
pub fn run<R: Threads + Wait + Sync>(
    rt: &HostRuntime,
    threads: &R,
    task: &Task,
    bytes: &[u8],
    source: Option<&str>,
    log: &str,
) -> Result<u8, Trouble> {
    let alloc = rt.alloc();
    let Ok(mut out) = BufWriter::new(alloc, Output::new(rt.stdout())) else {
        return Err(Trouble::Memory);
    };
    let mut told = Told::new(alloc)?;
    let mut text = None;
    let status = run_logged(
        threads, alloc, task, bytes, source, &mut out, &mut told, &mut text,
    );
    if status != 4
        && let Some(text) = &text
        && let Err(error) = whole::write(rt, log, text.as_bytes())
    {
        return Err(Trouble::writing(error));
    }
    Ok(speak(rt, task, out.get_ref().failure(), told.bytes(), status))
}

/// Makes the turns of a log again, and prints what the places print, or for a trace what happens, event by event.
pub fn print(
    rt: &HostRuntime,
    task: &Task,
    bytes: &[u8],
    source: Option<&str>,
    log: &str,
) -> Result<u8, Trouble> {
    let alloc = rt.alloc();
    let log = read(rt, task, log)?;
    let Ok(mut out) = BufWriter::new(alloc, Output::new(rt.stdout())) else {
        return Err(Trouble::Memory);
    };
    let mut told = Told::new(alloc)?;
    let status = if matches!(task.verb, Verb::Trace | Verb::TraceVerbose) {
        show_logged(alloc, task, bytes, source, &log, &mut out, &mut told)
    } else {
        audit_logged(alloc, task, bytes, source, &log, &mut out, &mut told)
    };
    Ok(speak(rt, task, out.get_ref().failure(), told.bytes(), status))
}

/// Makes the turns of a log again, and writes the picture or page of what happened once that is whole, if there is one. A log that would
/// be written over is left as it is.
pub fn draw(
    rt: &HostRuntime,
    task: &Task,
    bytes: &[u8],
    source: Option<&str>,
    log: &str,
    output: &str,
) -> Result<u8, Trouble> {
    let alloc = rt.alloc();
    let log = read(rt, task, log)?;
    let mut made = Output::new(Vec::new(alloc));
    let mut told = Told::new(alloc)?;
    let status = show_logged(alloc, task, bytes, source, &log, &mut made, &mut told);
    if made.wants_memory() {
        return Err(Trouble::Memory);
    }
    write_made(rt, task, status, made.writer(), output)?;
    Ok(speak(rt, task, None, told.bytes(), status))
}

/// The bytes of the log with a name, which isn't that of the file to write.
fn read(rt: &HostRuntime, task: &Task, name: &str) -> Result<Vec<u8>, Trouble> {
    let mut file = match fs::open(rt, name) {
        Ok(file) => file,
        Err(error) => return Err(Trouble::reading_log(error)),
    };
    match is_written(rt, task, &file) {
        Ok(false) => {}
        Ok(true) => return Err(Trouble::OverLog),
        Err(error) => return Err(Trouble::reading_log(error)),
    }
    let log = input::read_log(rt, &mut file)?;
    if str::from_utf8(&log).is_err() {
        return Err(Trouble::NoText);
    }
    Ok(log)
}

/// Whether a log is the file that is to be written.
fn is_written(rt: &HostRuntime, task: &Task, log: &File) -> io::Result<bool> {
    match task.output {
        Some(output) => whole::is_one_file(rt, log, output),
        None => Ok(false),
    }
}
