//! A log's text, written.

ghost use Rattle.std.specs.Prelude.{◌≡◌, ◌++◌, IfOk, OnOk, length, map};
ghost use Rattle.std.specs.List.{flat_map, AllByRecursion};
ghost use Rattle.std.specs.String.{string_bytes};
ghost use Rattle.hex.specs.Hex.{IsBytes};
ghost use Rattle.x10_log.specs.Limits.{FitsTurn, FitsLog};
ghost use Rattle.x10_log.specs.Logs.{turn_value, value_of, turn_line, head_lines, ended_line, spelled};

use crate::pieces::{push_frames, push_keys, push_lines, push_taken};
use std::alloc::{AllocError, Global};
use std::fmt::Write;
use x10_hall::{Repeats, Turn};

/// A turn's line, without the line feed.
#[tactic(auto, unfolding(crate::specs::Logs::turn_line))]
pub fn push_turn(alloc: Global, text: &mut String, turn: &Turn) -> Result<(), AllocError>
    ensures text { OnOk result (string_bytes text.new
        ≡ string_bytes text.old ++ turn_line (turn_value turn.now)) }
    ensures fits { OnOk result (FitsTurn (turn_value turn.now)) }
{
    let place = turn.place;
    write!(text, "{place}")?;
    push_taken(text, &turn.taken)?;
    push_keys(text, &turn.keys)?;
    push_frames(alloc, text, &turn.frames)?;
    push_lines(text, &turn.lines)
}

/// The first three lines.
pub fn push_head(
    alloc: Global,
    text: &mut String,
    digest: &[u8; 32],
    places: u16,
) -> Result<(), AllocError>
    ensures text { OnOk result (string_bytes text.new
        ≡ string_bytes text.old ++ head_lines digest.now places) }
    ensures fits { IsBytes digest.now × (length digest.now ≡ 32) }
{
    let image = hex::encode(alloc, digest.as_slice())?;
    write!(text, "x10 log 1\nimage {image}\nplaces {places}\n")
}

/// The lines of turns.
fn push_turns(alloc: Global, text: &mut String, turns: &Repeats<Turn>) -> Result<(), AllocError>
    ensures text { OnOk result (string_bytes text.new
        ≡ string_bytes text.old ++ flat_map ended_line (map turn_value turns.now.items)) }
    ensures fits { OnOk result (AllByRecursion FitsTurn (map turn_value turns.now.items)) }
{
    for at in 0..turns.len() {
        push_turn(alloc, text, turns.at(at))?;
        text.push_str("\n")?;
    }
    Ok(())
}

/// The text of a log. Linear in its length; the only refusal is for lack of memory.
#[tactic(auto, unfolding(crate::specs::Logs::spelled))]
pub fn write_log(
    alloc: Global,
    digest: &[u8; 32],
    places: u16,
    turns: &Repeats<Turn>,
) -> Result<String, AllocError>
    ensures text { IfOk result (λ text. string_bytes text
        ≡ spelled (value_of digest.now places turns.now.items)) }
    ensures fits { OnOk result (FitsLog (value_of digest.now places turns.now.items)) }
{
    let mut text = String::new(alloc);
    push_head(alloc, &mut text, digest, places)?;
    push_turns(alloc, &mut text, turns)?;
    Ok(text)
}
