//! All lines of a frame.
ghost use Rattle.std.specs.Prelude.{◌≡◌, ◌++◌, OnOk, IfOk, IfErr};
ghost use Rattle.std.specs.String.{string_bytes};
ghost use Rattle.x10_model.specs.declared.version.FrameVersion.{FrameVersion};
ghost use Rattle.x10_model.specs.Frames.{Frame, IsSpelled, byte_of, spelling};
ghost use Rattle.x10_model.specs.ReadingFrames.{frame_at};
ghost use Rattle.x10_frame.specs.Faults.{named, IsFaultOrMemory};
ghost use Rattle.x10_frame.specs.Heads.{sent_of, received_of};
ghost use Rattle.x10_frame.specs.declared.fault.FrameFault.TheVariants as fault;
ghost use Rattle.x10_frame_lines.specs.Lines.{IsTold, first_line, launch_lines, head_lines, count_words, count_lines, frame_text};

use crate::graph::push_graph;
use std::alloc::{AllocError, Global};
use std::fmt::Write;
use x10_frame::{FrameFault, FrameView, Head, What};
use x10_model::Finish;

/// The lines of a frame, one for each thing that it says, where there are `places` places. What isn't a frame is refused by its
/// first fault from front to back. Linear in the bytes, in time and in memory.
pub fn frame_lines(alloc: Global, bytes: &[u8], places: u16) -> Result<String, FrameFault>
    ensures told { IfOk result (λ text. IsTold places bytes.now (string_bytes text)) }
    ensures only { (f : Frame) → IsSpelled places f bytes.now
        → IfErr result (λ e. e ≡ fault.Memory) }
    ensures due { IfErr result (λ e. IsFaultOrMemory (named e) (frame_at places bytes.now)) }
{
    let frame = FrameView::read(alloc, bytes, places)?;
    let mut text = String::new(alloc);
    push_frame(&mut text, version_of(bytes), &frame)?;
    Ok(text)
}

/// The first byte of a frame: its version.
fn version_of(bytes: &[u8]) -> u8
    requires { (v : FrameVersion) × (f : Frame) × (bytes.now ≡ spelling v f) }
    ensures { (v : FrameVersion) (f : Frame) → bytes.now ≡ spelling v f → result ≡ byte_of v }
{
    bytes[0]
}

/// The lines of a frame whose first byte is `version`.
#[tactic(auto, unfolding(crate::specs::Lines::frame_text))]
fn push_frame(text: &mut String, version: u8, frame: &FrameView) -> Result<(), AllocError>
    ensures { OnOk result (string_bytes text.new
        ≡ string_bytes text.old ++ frame_text version frame.now) }
{
    push_head(text, version, frame.head())?;
    push_graph(text, frame)?;
    push_counts(text, frame)
}

/// What the frame is, and the numbers before its graph or its counts.
fn push_head(text: &mut String, version: u8, head: Head) -> Result<(), AllocError>
    ensures { OnOk result (string_bytes text.new
        ≡ string_bytes text.old ++ head_lines version head) }
{
    let Head { from, to, what } = head;
    match what {
        What::Spawn { under, function } => {
            push_first(text, "Spawn", version, from, to)?;
            push_launch(text, under, function)
        }
        What::Shift {
            waiting,
            under,
            function,
        } => {
            push_first(text, "Shift", version, from, to)?;
            writeln!(text, "waiting: stay {waiting} of place {from}")?;
            push_launch(text, under, function)
        }
        What::Back { waiting } => {
            push_first(text, "Back", version, from, to)?;
            writeln!(text, "waiting: stay {waiting} of place {to}")
        }
        What::Report { number } => {
            push_first(text, "Report", version, from, to)?;
            writeln!(text, "finish: {number} of place {to}")
        }
    }
}

/// The type of a frame, its version, and its places.
fn push_first(
    text: &mut String,
    name: &str,
    version: u8,
    from: u16,
    to: u16,
) -> Result<(), AllocError>
    ensures { OnOk result (string_bytes text.new
        ≡ string_bytes text.old ++ first_line name.now version from to) }
{
    writeln!(
        text,
        "frame: {name}, version {version}, from place {from} to place {to}"
    )
}

/// What begins, and under which finish.
fn push_launch(text: &mut String, under: Finish, function: u16) -> Result<(), AllocError>
    ensures { OnOk result (string_bytes text.new
        ≡ string_bytes text.old ++ launch_lines under function) }
{
    let Finish { home, number } = under;
    writeln!(text, "finish: {number} of place {home}")?;
    writeln!(text, "function: {function}")
}

/// The counts of a report; nothing of another frame.
fn push_counts(text: &mut String, frame: &FrameView) -> Result<(), AllocError>
    ensures { OnOk result (string_bytes text.new
        ≡ string_bytes text.old ++ count_lines frame.now) }
{
    if frame.counts() == 0 {
        return Ok(());
    }
    text.push_str("sent:")?;
    push_sent(text, frame)?;
    text.push_str("\nreceived:")?;
    push_received(text, frame)?;
    text.push_str("\n")
}

fn push_sent(text: &mut String, frame: &FrameView) -> Result<(), AllocError>
    ensures { OnOk result (string_bytes text.new
        ≡ string_bytes text.old ++ count_words (sent_of frame.now)) }
{
    for place in 0..frame.counts() {
        let count = frame.sent(place);
        write!(text, " {count}")?;
    }
    Ok(())
}

fn push_received(text: &mut String, frame: &FrameView) -> Result<(), AllocError>
    ensures { OnOk result (string_bytes text.new
        ≡ string_bytes text.old ++ count_words (received_of frame.now)) }
{
    for place in 0..frame.counts() {
        let count = frame.received(place);
        write!(text, " {count}")?;
    }
    Ok(())
}
