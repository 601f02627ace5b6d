//! The program `x10p`: it reads its words and the file that they name, and does what they ask for.
#![tactic(auto)]

mod counts;
mod input;
mod logs;
mod making;
mod terminal;
mod text;
mod trouble;

use crate::making::{make, write_made};
use crate::terminal::{show_report, shows_report, speak};
use crate::text::{Given, as_told, is_input, is_text, read, read_input, written};
use crate::trouble::Trouble;
use std::fs::{self, File};
use std::io::{BufWriter, ErrorKind, IsTerminal, Write};
use std::process::ExitCode;
use std::sync::Wait;
use std::thread::Threads;
use std::{env, io};
use x10_cli::{Fault, digits_in, execute, tell};
use x10_files::{Output, Told, whole};
use x10_task::{Task, Verb};
use x10_usage::{Usage, no_text, parse};

fn main(rt: HostRuntime) -> ExitCode {
    match words(&rt) {
        Ok(words) => ExitCode::from(follow(&rt, &rt, &words)),
        Err(error) if error.kind() == ErrorKind::OutOfMemory => {
            ExitCode::from(tell(Fault::Memory, &mut rt.stderr()))
        }
        Err(_) => ExitCode::from(help(&rt, &no_text(rt.alloc()))),
    }
}

/// The words of the command line. One that isn't UTF-8 is an error.
fn words(rt: &HostRuntime) -> io::Result<Vec<String>> {
    Ok(env::args(rt)?.collect(rt.alloc())?)
}

fn follow<R: Threads + Wait + Sync>(rt: &HostRuntime, threads: &R, words: &[String]) -> u8 {
    match parse(rt.alloc(), words, rt.stderr().is_terminal()) {
        Ok(task) => match perform(rt, threads, &task) {
            Ok(status) => status,
            Err(trouble) => trouble.tell(rt, &task),
        },
        Err(usage) => help(rt, &usage),
    }
}

/// Reads what the task names and does the work, which reports its own faults. A cause is a name alone, and a frame may be digits.
fn perform<R: Threads + Wait + Sync>(
    rt: &HostRuntime,
    threads: &R,
    task: &Task,
) -> Result<u8, Trouble> {
    if task.verb == Verb::Explain {
        return print(rt, threads, task, task.input.as_bytes(), None);
    }
    if task.verb == Verb::Frame
        && let Some(bytes) = digits_in(rt.alloc(), task.input)?
    {
        return print(rt, threads, task, &bytes, None);
    }
    let (bytes, text) = match read_named(rt, threads, task)? {
        Given::Bytes(bytes, text) => (bytes, text),
        Given::Refused(told, status) => return Ok(speak(rt, task, None, told.bytes(), status)),
    };
    let task = &as_told(task);
    let source = match &text {
        Some(text) => str::from_utf8(text).ok(),
        None => None,
    };
    if let Some(log) = task.log {
        return with_log(rt, threads, task, &bytes, source, log);
    }
    match task.output {
        Some(output) => write(rt, threads, task, &bytes, source, output),
        None if task.stats => counts::run(rt, task, &bytes, source),
        None if shows_report(rt, task) => show(rt, threads, task, &bytes),
        None => print(rt, threads, task, &bytes, source),
    }
}

/// Does the work with a log: reads it, or runs and writes it.
fn with_log<R: Threads + Wait + Sync>(
    rt: &HostRuntime,
    threads: &R,
    task: &Task,
    bytes: &[u8],
    source: Option<&str>,
    log: &str,
) -> Result<u8, Trouble> {
    if task.verb == Verb::Run {
        return logs::run(rt, threads, task, bytes, source, log);
    }
    match task.output {
        Some(output) => logs::draw(rt, task, bytes, source, log, output),
        None => logs::print(rt, task, bytes, source, log),
    }
}

/// Reads what the task names. A file that would be read and written is left as it is, and so is one with the name of a text.
fn read_named<R: Threads + Wait + Sync>(
    rt: &HostRuntime,
    threads: &R,
    task: &Task,
) -> Result<Given, Trouble> {
    if is_input(task) {
        check_name(task)?;
        return read_input(rt, threads, task);
    }
    let mut file = match fs::open(rt, task.input) {
        Ok(file) => file,
        Err(error) => return Err(Trouble::reading(error)),
    };
    check_file(rt, task, &file)?;
    check_name(task)?;
    read(rt, threads, task, &mut file)
}

/// Whether the file to write is another one than the file to read.
fn check_file(rt: &HostRuntime, task: &Task, file: &File) -> Result<(), Trouble> {
    let Some(output) = written(task) else {
        return Ok(());
    };
    match whole::is_one_file(rt, file, output) {
        Ok(false) => Ok(()),
        Ok(true) => Err(Trouble::OneFile),
        Err(error) => Err(Trouble::reading(error)),
    }
}

/// Whether the file to write has another name than a text.
fn check_name(task: &Task) -> Result<(), Trouble> {
    match written(task) {
        Some(output) if is_text(output) => Err(Trouble::OverText),
        _ => Ok(()),
    }
}

/// Does the work, and prints what it prints.
fn print<R: Threads + Wait + Sync>(
    rt: &HostRuntime,
    threads: &R,
    task: &Task,
    bytes: &[u8],
    source: Option<&str>,
) -> Result<u8, Trouble> {
    let Ok(mut out) = BufWriter::new(rt.alloc(), Output::new(rt.stdout())) else {
        return Err(Trouble::Memory);
    };
    let mut told = Told::new(rt.alloc())?;
    let alloc = rt.alloc();
    let status = execute(threads, alloc, task, bytes, source, &mut out, &mut told);
    Ok(speak(rt, task, out.get_ref().failure(), told.bytes(), status))
}

/// Checks, and prints the report as people at a terminal read it.
fn show<R: Threads + Wait + Sync>(
    rt: &HostRuntime,
    threads: &R,
    task: &Task,
    bytes: &[u8],
) -> Result<u8, Trouble> {
    let mut report = Output::new(Vec::new(rt.alloc()));
    let mut told = Told::new(rt.alloc())?;
    let status = make(rt, threads, task, bytes, None, &mut report, &mut told)?;
    match show_report(rt, task, status == 0, report.writer()) {
        Ok(()) => Ok(speak(rt, task, None, told.bytes(), status)),
        Err(error) => Err(Trouble::writing(error)),
    }
}

/// Does the work, and writes what it makes once that is whole, if there is anything to write; then what is said about a fault.
fn write<R: Threads + Wait + Sync>(
    rt: &HostRuntime,
    threads: &R,
    task: &Task,
    bytes: &[u8],
    source: Option<&str>,
    output: &str,
) -> Result<u8, Trouble> {
    let mut made = Output::new(Vec::new(rt.alloc()));
    let mut told = Told::new(rt.alloc())?;
    let status = make(rt, threads, task, bytes, source, &mut made, &mut told)?;
    write_made(rt, task, status, made.writer(), output)?;
    Ok(speak(rt, task, None, told.bytes(), status))
}

/// Prints help on standard output, and what is wrong with the words on standard error.
fn help(rt: &HostRuntime, usage: &Usage) -> u8 {
    let shown = if usage.status == 0 {
        rt.stdout().write_all(usage.text().as_bytes())
    } else {
        rt.stderr().write_all(usage.text().as_bytes())
    };
    match shown {
        Ok(()) => usage.status,
        Err(_) => 4,
    }
}
