//! The words of a turn's line, each pushed with the space before it.

ghost use Rattle.std.specs.Prelude.{◌≡◌, ◌<◌, ◌^◌, ◌++◌, OnOk, map, FitsSigned};
ghost use Rattle.std.specs.List.{flat_map, AllByRecursion};
ghost use Rattle.std.specs.String.{string_bytes};
ghost use Rattle.std.specs.Int.{w64};
ghost use Rattle.x10_model.specs.Places.{Number};
ghost use Rattle.x10_place.specs.StandsFor.{line_as};
ghost use Rattle.x10_hall.specs.Halls.{frame_of};
ghost use Rattle.x10_log.specs.Logs.{taken_word, run_word, runs, frame_word, line_word};
ghost use Rattle.x10_log.specs.Limits.{FitsFrame, FitsLine};

use std::alloc::{AllocError, Global};
use std::fmt::Write;
use x10_asm::push_quoted;
use x10_hall::{Keys, Posted};
use x10_place::Line;

/// The frames that were taken in.
pub fn push_taken(text: &mut String, taken: &[u64]) -> Result<(), AllocError>
    ensures text { OnOk result (string_bytes text.new
        ≡ string_bytes text.old ++ flat_map taken_word taken.now) }
    ensures fits { OnOk result (AllByRecursion (λ n. n < 2 ^ 64) taken.now) }
{
    for at in 0..taken.len() {
        let number = taken[at];
        write!(text, " <{number}")?;
    }
    Ok(())
}

/// One key, so often.
fn push_run(text: &mut String, key: usize, count: usize) -> Result<(), AllocError>
    ensures { OnOk result (string_bytes text.new
        ≡ string_bytes text.old ++ run_word (record { key = key; count = count })) }
{
    if count == 1 {
        write!(text, " {key}")
    } else {
        write!(text, " {key}*{count}")
    }
}

/// The keys of the steps, each run of one key as one word.
pub fn push_keys(text: &mut String, keys: &Keys) -> Result<(), AllocError>
    ensures text { OnOk result (string_bytes text.new
        ≡ string_bytes text.old ++ flat_map run_word (runs keys.now)) }
    ensures fits { OnOk result (AllByRecursion (λ n. n < 2 ^ 64) keys.now) }
{
    if keys.is_empty() {
        return Ok(());
    }
    let mut key = keys.at(0);
    let mut count = 1;
    for at in 1..keys.len() {
        let next = keys.at(at);
        if next == key {
            count += 1;
        } else {
            push_run(text, key, count)?;
            key = next;
            count = 1;
        }
    }
    push_run(text, key, count)
}

/// A frame that was put out.
fn push_frame(alloc: Global, text: &mut String, frame: &Posted) -> Result<(), AllocError>
    ensures text { OnOk result (string_bytes text.new
        ≡ string_bytes text.old ++ frame_word (frame_of frame.now)) }
    ensures fits { OnOk result (FitsFrame (frame_of frame.now)) }
{
    let to = frame.to;
    let bytes = frame.bytes.as_slice();
    let bytes = hex::encode(alloc, bytes)?;
    write!(text, " >{to}:{bytes}")
}

/// The frames that were put out.
pub fn push_frames(alloc: Global, text: &mut String, frames: &[Posted]) -> Result<(), AllocError>
    ensures text { OnOk result (string_bytes text.new
        ≡ string_bytes text.old ++ flat_map frame_word (map frame_of frames.now)) }
    ensures fits { OnOk result (AllByRecursion FitsFrame (map frame_of frames.now)) }
{
    for at in 0..frames.len() {
        push_frame(alloc, text, &frames[at])?;
    }
    Ok(())
}

/// A number that was printed.
fn push_int(text: &mut String, number: i64) -> Result<(), AllocError>
    ensures text { OnOk result (string_bytes text.new
        ≡ string_bytes text.old ++ line_word (Number number)) }
    ensures fits { FitsSigned w64 number }
{
    write!(text, " ={number}")
}

/// A line that was printed.
fn push_line(text: &mut String, line: &Line) -> Result<(), AllocError>
    ensures text { OnOk result (string_bytes text.new
        ≡ string_bytes text.old ++ line_word (line_as line.now)) }
    ensures fits { OnOk result (FitsLine (line_as line.now)) }
{
    match line {
        Line::Int(number) => push_int(text, *number),
        Line::Text(words) => push_quoted(text, words.as_str()),
    }
}

/// The lines that were printed.
pub fn push_lines(text: &mut String, lines: &[Line]) -> Result<(), AllocError>
    ensures text { OnOk result (string_bytes text.new
        ≡ string_bytes text.old ++ flat_map line_word (map line_as lines.now)) }
    ensures fits { OnOk result (AllByRecursion FitsLine (map line_as lines.now)) }
{
    for at in 0..lines.len() {
        push_line(text, &lines[at])?;
    }
    Ok(())
}
