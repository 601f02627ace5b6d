use super::usage::words_of;
use std::alloc::Global;
use std::io::{self, ErrorKind, Write};
use std::sync::Wait;
use std::test::*;
use std::thread::Threads;
use x10_cli::execute;
use x10_samples::SEVEN;
use x10_task::Task;
use x10_usage::parse;

/// A writer that takes a byte at a time, `room` of them, and then fails.
#[derive(Drop)]
struct Narrow {
    taken: Vec<u8>,
    room: usize,
}

impl Write for Narrow {
    fn write(&mut self, buf: &[u8]) -> io::Result<usize> {
        let Some(first) = buf.first() else {
            return Ok(0);
        };
        if self.taken.len() >= self.room {
            return Err(io::Error::from(ErrorKind::Other));
        }
        self.taken.push(*first)?;
        Ok(1)
    }

    fn flush(&mut self) -> io::Result<()> {
        Ok(())
    }
}

fn narrow_to(alloc: Global, room: usize) -> Narrow {
    Narrow {
        taken: Vec::new(alloc),
        room,
    }
}

/// The status of a task on an image, and what was written, where the output takes `room` bytes.
fn narrowed<R: Threads + Wait + Sync>(
    rt: &R,
    alloc: Global,
    task: &Task,
    image: &[u8],
    room: usize,
) -> (u8, Vec<u8>, Vec<u8>) {
    let (mut out, mut err) = (narrow_to(alloc, room), Vec::new(alloc));
    let status = execute(rt, alloc, task, image, None, &mut out, &mut err);
    (status, out.taken, err)
}

/// Whether a task that prints a text fails wherever its output does, and reports that.
pub(crate) fn fails<R: Threads + Wait + Sync>(
    rt: &R,
    alloc: Global,
    task: &Task,
    image: &[u8],
    text: &str,
) -> bool {
    for room in 0..text.len() {
        let (status, taken, told) = narrowed(rt, alloc, task, image, room);
        let begun = text.as_bytes().starts_with(&taken) && taken.len() == room;
        if status != 4 || !begun || told.as_slice() != "x10p: file\n".as_bytes() {
            return false;
        }
    }
    true
}

#[test]
fn each_write_fails(rt: HostRuntime) -> Result<(), Fail> {
    let rows = [
        ("run", "0: 7\n"),
        ("bounds", "0 3\n"),
        ("verify", "verified 1 functions, entry bound 3\n"),
    ];
    for (verb, text) in rows {
        let words = words_of(rt.alloc(), &[verb, "F"])?;
        let task = parse(rt.alloc(), &words, false).ok().ok_or("it is a task")?;
        assert!(rt; fails(&rt, rt.alloc(), &task, &SEVEN, text), "{verb}");
    }
    Ok(())
}

#[test]
fn a_fault_that_cannot_be_told(rt: HostRuntime) -> Result<(), Fail> {
    let alloc = rt.alloc();
    let words = words_of(alloc, &["run", "F"])?;
    let task = parse(alloc, &words, false).ok().ok_or("it is a task")?;
    let (mut out, mut err) = (narrow_to(alloc, 0), narrow_to(alloc, 3));
    assert!(rt; execute(&rt, alloc, &task, &[], None, &mut out, &mut err) == 4);
    assert!(rt; err.taken.as_slice() == "x10".as_bytes());
    Ok(())
}
