//! Texts in place of images, and standard input in place of files.
use crate::input::{self, Wanted};
use crate::making::make;
use crate::trouble::Trouble;
use std::fs::File;
use std::sync::Wait;
use std::thread::Threads;
use x10_cli::is_image;
use x10_files::{Output, Told};
use x10_task::{Task, Verb};

/// How the name of a text ends.
const TEXT: &str = ".asm";

/// What a command works with.
#[derive(Drop)]
pub enum Given {
    /// Bytes, and the text from which they were assembled, if they were.
    Bytes(Vec<u8>, Option<Vec<u8>>),
    /// There is no image, since the text is refused: what is said about that, and the status.
    Refused(Told, u8),
}

/// The name by which standard input is read.
const INPUT: &str = "-";

/// Whether a task reads standard input.
pub fn is_input(task: &Task) -> bool {
    task.input == INPUT
}

/// The name of the file that a task writes: IMAGE, SVG, or the log of a run.
pub fn written<'a>(task: &Task<'a>) -> Option<&'a str> {
    match task.verb {
        Verb::Run => task.log,
        _ => task.output,
    }
}

/// A task as it is told, where standard input isn't named by its sign.
pub fn as_told<'a>(task: &Task<'a>) -> Task<'a> {
    let mut told = *task;
    if is_input(task) {
        told.input = "Standard input";
    }
    told
}

/// Whether a file's name says that it is a text.
pub fn is_text(name: &str) -> bool {
    name.ends_with(TEXT)
}

/// Reads a file as far as it can be what the command takes. A text, by its name, is assembled where the command takes an image.
pub fn read<R: Threads + Wait + Sync>(
    rt: &HostRuntime,
    threads: &R,
    task: &Task,
    file: &mut File,
) -> Result<Given, Trouble> {
    if is_text(task.input) && takes_image(task.verb) {
        let text = input::read(rt, Wanted::Text, file)?;
        return assembled(rt, threads, task, text);
    }
    Ok(Given::Bytes(input::read(rt, wanted_by(task), file)?, None))
}

/// Reads standard input as far as it can be what the command takes. Where the command takes an image, its first bytes say whether
/// it is one; else it is a text, which is assembled.
pub fn read_input<R: Threads + Wait + Sync>(
    rt: &HostRuntime,
    threads: &R,
    task: &Task,
) -> Result<Given, Trouble> {
    let mut reader = rt.reader();
    if !takes_image(task.verb) {
        let bytes = input::read(rt, wanted_by(task), &mut reader)?;
        return Ok(Given::Bytes(bytes, None));
    }
    let bytes = input::read(rt, Wanted::TextOrImage, &mut reader)?;
    if is_image(&bytes) {
        return Ok(Given::Bytes(bytes, None));
    }
    assembled(rt, threads, &as_told(task), bytes)
}

/// What a task reads its file as.
fn wanted_by(task: &Task) -> Wanted {
    match task.verb {
        Verb::Asm => Wanted::Text,
        Verb::Check => Wanted::TextOrImage,
        Verb::Frame => Wanted::Frame(task.places.unwrap_or_default()),
        _ => Wanted::Image,
    }
}

fn takes_image(verb: Verb) -> bool {
    !matches!(verb, Verb::Asm | Verb::Check | Verb::Frame | Verb::Explain)
}

/// The image that a text spells, or why it spells none.
fn assembled<R: Threads + Wait + Sync>(
    rt: &HostRuntime,
    threads: &R,
    task: &Task,
    text: Vec<u8>,
) -> Result<Given, Trouble> {
    let mut asm = *task;
    asm.verb = Verb::Asm;
    let mut image = Output::new(Vec::new(rt.alloc()));
    let mut told = Told::new(rt.alloc())?;
    let status = make(rt, threads, &asm, &text, None, &mut image, &mut told)?;
    if status != 0 {
        return Ok(Given::Refused(told, status));
    }
    Ok(Given::Bytes(image.into_writer(), Some(text)))
}
