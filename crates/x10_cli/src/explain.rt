//! What is said about a fault besides its line, for people.

use crate::explain_frame::of_frame;
use crate::explain_limit::{counted_word, of_events, of_turns, with_end};
use crate::explain_log::{log_of, of_log, of_open_log, of_other_image, of_turn};
use crate::fault::Fault;
use std::alloc::{AllocError, Global};
use x10_asm::AsmFault;
use x10_bounds::BoundFault;
use x10_explain::{explain_asm_in, explain_image, explain_verify, explain_verify_in};
use x10_image::ImageView;
use x10_kinds::Limit;
use x10_model::limits::MOST_WIDE;
use x10_task::{Task, Verb};
use x10_verify::{VerifyCause, VerifyFault};

/// Sentences on a fault of a task over the bytes of its file, a line each; none where there is nothing to add. Where they were
/// assembled from a text, its lines are named. The log is the one that is read, or that a run with threads leaves; else empty.
pub(crate) fn explanation(
    alloc: Global,
    task: &Task,
    bytes: &[u8],
    source: Option<&str>,
    log: &[u8],
    fault: Fault,
) -> Result<String, AllocError> {
    let text = of_fault(alloc, task, bytes, source, log, fault)?;
    match fault {
        Fault::StopMemory | Fault::StopLimit(_) | Fault::Limit | Fault::Turns => {
            with_end(alloc, text, task, bytes, source, log, fault)
        }
        _ => Ok(text),
    }
}

/// The sentences on a fault itself.
fn of_fault(
    alloc: Global,
    task: &Task,
    bytes: &[u8],
    source: Option<&str>,
    log: &[u8],
    fault: Fault,
) -> Result<String, AllocError> {
    match fault {
        // a check has said all of this
        _ if task.verb == Verb::Check && fault.status() == 1 => Ok(String::new(alloc)),
        Fault::Asm(fault) => of_asm(alloc, task, bytes, fault),
        Fault::Image(fault) => explain_image(alloc, bytes, fault),
        Fault::Verify(fault) => of_verify(alloc, task, bytes, source, fault),
        Fault::Bounds(fault) => of_verify(alloc, task, bytes, source, structure(fault)),
        Fault::Frame(fault) => of_frame(alloc, task, bytes, fault),
        Fault::Log(fault) => of_log(alloc, task, fault),
        Fault::LogImage => of_other_image(alloc, task),
        Fault::LogDiffers(turn) => of_turn(alloc, task, log, turn),
        Fault::LogOpen => of_open_log(alloc, task),
        Fault::Places => of_places(alloc, task, bytes),
        Fault::Memory => line(alloc, "The system gives no more memory to the program."),
        Fault::StopMemory => of_memory(alloc, task, bytes),
        Fault::StopLimit(limit) => of_count(alloc, limit),
        Fault::Limit => of_events(alloc, task, bytes),
        Fault::Turns => of_turns(alloc, task),
        Fault::Refused(place) => of_refusal(alloc, place),
        Fault::Differs(turn) => of_difference(alloc, turn),
        Fault::Thread => of_thread(alloc, task, bytes),
        Fault::File => of_text(alloc, task, bytes),
    }
}

fn of_asm(alloc: Global, task: &Task, bytes: &[u8], fault: AsmFault) -> Result<String, AllocError> {
    match str::from_utf8(bytes) {
        Ok(text) => explain_asm_in(alloc, task.input, text, fault),
        Err(_) => Ok(String::new(alloc)),
    }
}

fn of_verify(
    alloc: Global,
    task: &Task,
    bytes: &[u8],
    source: Option<&str>,
    fault: VerifyFault,
) -> Result<String, AllocError> {
    let Ok(image) = ImageView::read(alloc, bytes) else {
        return Err(AllocError);
    };
    match source {
        Some(text) => explain_verify_in(alloc, &image, task.input, text, fault),
        None => explain_verify(alloc, &image, fault),
    }
}

/// A fault of structure as the verifier's.
fn structure(fault: BoundFault) -> VerifyFault {
    VerifyFault {
        cause: VerifyCause::Structure(fault.cause),
        function: fault.function,
        pc: fault.pc,
    }
}

fn line(alloc: Global, text: &str) -> Result<String, AllocError> {
    format!(in alloc; "{text}\n")
}

/// The least number of places of an image's module.
fn least_of(alloc: Global, bytes: &[u8]) -> Option<u16> {
    let image = ImageView::read(alloc, bytes).ok()?;
    Some(image.least())
}

/// At how many places a task runs, as far as it says so: where a log is read, that does.
fn places_in(alloc: Global, task: &Task, bytes: &[u8]) -> Option<u16> {
    match task.places {
        Some(places) => Some(places),
        None if task.log.is_some() && task.verb != Verb::Run => None,
        None => least_of(alloc, bytes),
    }
}

fn of_places(alloc: Global, task: &Task, bytes: &[u8]) -> Result<String, AllocError> {
    let Some(least) = least_of(alloc, bytes) else {
        return Ok(String::new(alloc));
    };
    let Some(asked) = task.places else {
        let log = log_of(task);
        return format!(in alloc; "The module asks for {least} places at least; {log} has fewer.\n");
    };
    format!(in alloc; "The module asks for {least} places at least; --places gave {asked}.\n")
}

fn of_memory(alloc: Global, task: &Task, bytes: &[u8]) -> Result<String, AllocError> {
    let Some(places) = places_in(alloc, task, bytes) else {
        return Ok(String::new(alloc));
    };
    // three numbers of four bytes for each pair of places
    let finish = u64::from(places)
        .saturating_mul(u64::from(places))
        .saturating_mul(12);
    let word = counted_word(u64::from(places), "place", "places");
    format!(in alloc;
        "The system gave no memory for what the next event makes. What a place makes it keeps; an open finish takes {finish} bytes here, at {places} {word}.\n"
    )
}

fn of_count(alloc: Global, limit: Limit) -> Result<String, AllocError> {
    let (what, most) = counted(limit);
    format!(in alloc;
        "There may be {most} {what} at most, and the next event would make one more.\n"
    )
}

/// What a limit of the machine counts, and how many there may be.
fn counted(limit: Limit) -> (&'static str, u64) {
    match limit {
        Limit::Objects => ("objects at one place", u64::from(u32::MAX)),
        Limit::Texts => ("texts at one place", u64::from(u32::MAX)),
        Limit::Rails => ("rails at one place", u64::from(u32::MAX)),
        Limit::References => ("global references at one place", u64::from(u32::MAX)),
        Limit::Finishes => ("finishes at one place", u64::from(u32::MAX)),
        Limit::Activities => (
            "activities under one finish, at one place or from one place to another,",
            u64::from(u32::MAX),
        ),
        Limit::FrameObjects => ("objects in one frame", u64::from(MOST_WIDE)),
        Limit::FrameTexts => ("texts in one frame", u64::from(MOST_WIDE)),
        Limit::FrameRails => ("rails in one frame", u64::from(MOST_WIDE)),
        Limit::Keys => ("keys of activities at one place", u64::from(u32::MAX)),
        Limit::Frames => ("frames in one run", u64::MAX),
    }
}

fn of_refusal(alloc: Global, place: u16) -> Result<String, AllocError> {
    format!(in alloc;
        "Place {place} refused a frame that was posted to it. In a run with one thread no place refuses any, so the mistake is in x10p and not in the module.\n"
    )
}

fn of_difference(alloc: Global, turn: usize) -> Result<String, AllocError> {
    format!(in alloc;
        "Turn {turn} of the log, counted from 0, isn't what the worker of its place did; where the log has no such turn, a worker made a turn that isn't there, or the run isn't over behind the last one. So nothing was printed. The mistake is in x10p and not in the module.\n"
    )
}

fn of_thread(alloc: Global, task: &Task, bytes: &[u8]) -> Result<String, AllocError> {
    match places_in(alloc, task, bytes) {
        Some(places) => format!(in alloc;
            "With --threads each place has a thread of its own, here {places} beside the program's, and the system started fewer.\n"
        ),
        None => Ok(String::new(alloc)),
    }
}

/// Where a text isn't UTF-8. Otherwise the fault is the writer's, and its owner knows more about it.
fn of_text(alloc: Global, task: &Task, bytes: &[u8]) -> Result<String, AllocError> {
    let (Verb::Asm | Verb::Check, Err(error)) = (task.verb, str::from_utf8(bytes)) else {
        return Ok(String::new(alloc));
    };
    let name = task.input;
    let before = &bytes[..error.valid_up_to()];
    let (mut line, mut column) = (1u64, 1u64);
    for byte in before {
        (line, column) = after(line, column, *byte);
    }
    format!(in alloc; "{name} isn't UTF-8: line {line}, column {column}.\n")
}

/// The line and column after a byte. The later bytes of a character, which are from 128 to 191, add no column.
fn after(line: u64, column: u64, byte: u8) -> (u64, u64) {
    match byte {
        b'\n' => (line.saturating_add(1), 1),
        128..=191 => (line, column),
        _ => (line, column.saturating_add(1)),
    }
}
