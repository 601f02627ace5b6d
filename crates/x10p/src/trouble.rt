//! What goes wrong with files and streams, before a command is at work or after it.
use crate::text::{as_told, written};
use std::alloc::AllocError;
use std::io::{self, ErrorKind, Write};
use x10_cli::{Fault, tell};
use x10_task::Task;

/// Why a file can't be used.
#[derive(Drop)]
pub enum Trouble {
    /// No memory for what is in it, or is to be.
    Memory,
    /// The file to read can't be opened or read.
    Read(io::Error),
    /// The log to read can't be opened or read.
    ReadLog(io::Error),
    /// The log to read isn't UTF-8.
    NoText,
    /// The file to write, IMAGE, SVG or a log, can't be written.
    Written(io::Error),
    /// TEXT has more bytes than a text can have.
    TooLong,
    /// The files to read and to write are one.
    OneFile,
    /// The log to read and the file to write are one.
    OverLog,
    /// The file to write has the name of a text.
    OverText,
}

impl Trouble {
    /// What reading failed for.
    pub fn reading(error: io::Error) -> Trouble {
        match error.kind() {
            ErrorKind::OutOfMemory => Trouble::Memory,
            _ => Trouble::Read(error),
        }
    }

    /// What reading a log failed for.
    pub fn reading_log(error: io::Error) -> Trouble {
        Trouble::reading(error).of_log()
    }

    /// The same, of the log.
    pub fn of_log(self) -> Trouble {
        match self {
            Trouble::Read(error) => Trouble::ReadLog(error),
            other => other,
        }
    }

    /// What writing failed for.
    pub fn writing(error: io::Error) -> Trouble {
        match error.kind() {
            ErrorKind::OutOfMemory => Trouble::Memory,
            _ => Trouble::Written(error),
        }
    }

    fn fault(&self) -> Fault {
        match self {
            Trouble::Memory => Fault::Memory,
            _ => Fault::File,
        }
    }

    /// Reports it, with its reason where the task asks for explanations, and answers the exit status.
    pub fn tell(&self, rt: &HostRuntime, task: &Task) -> u8 {
        let status = tell(self.fault(), &mut rt.stderr());
        if !task.explain {
            return status;
        }
        match self.explain(rt, task) {
            Ok(()) => status,
            Err(_) => 4,
        }
    }

    fn explain(&self, rt: &HostRuntime, task: &Task) -> io::Result<()> {
        let mut err = rt.stderr();
        let input = as_told(task).input;
        match self {
            Trouble::Memory => writeln!(err, "There is no memory for the bytes of {input}."),
            Trouble::Read(error) => writeln!(err, "{input} can't be read: {error}."),
            Trouble::ReadLog(error) => {
                let log = task.log.unwrap_or_default();
                writeln!(err, "{log} can't be read: {error}.")
            }
            Trouble::NoText => {
                let log = task.log.unwrap_or_default();
                writeln!(err, "{log} isn't UTF-8.")
            }
            Trouble::Written(error) => {
                let output = written(task).unwrap_or("Standard output");
                writeln!(err, "{output} can't be written: {error}.")
            }
            Trouble::TooLong => writeln!(err, "{input} is longer than a text can be."),
            Trouble::OneFile => {
                let output = written(task).unwrap_or_default();
                writeln!(err, "{output} is the same file as {input}.")
            }
            Trouble::OverLog => {
                let log = task.log.unwrap_or_default();
                writeln!(err, "{log} is the log, which nothing is written over.")
            }
            Trouble::OverText => {
                let output = written(task).unwrap_or_default();
                writeln!(
                    err,
                    "{output} has the name of a text, which nothing is written over."
                )
            }
        }
    }
}

impl From<AllocError> for Trouble {
    fn from(_error: AllocError) -> Trouble {
        Trouble::Memory
    }
}
