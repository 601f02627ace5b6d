//! A turn's line, read.

ghost use Rattle.std.specs.Prelude.{◌≡◌, ◌<◌, ◌↔◌, IfOk, IsTrue};
ghost use Rattle.x10_log.specs.Logs.{TurnValue, turn_value, turn_line};
ghost use Rattle.x10_log.specs.Limits.{IsWithin, FitsTurn};
ghost use Rattle.x10_log.specs.Reading.{Shows};

use crate::cut::word_of;
use crate::draft::Draft;
use crate::fault::LogCause;
use crate::item::place_of;
use crate::writing::push_turn;
use std::alloc::{AllocError, Global};
use x10_hall::Turn;

/// The turn that a line says, perhaps in another spelling.
fn parsed_turn(alloc: Global, places: u16, line: &str) -> Result<Turn, LogCause>
    ensures within { IfOk result (λ turn. IsWithin places (turn_value turn)) }
    ensures found { (t : TurnValue) → IsWithin places t → FitsTurn t → line.now ≡ turn_line t
        → Shows turn_value result t }
{
    let (digits, words) = word_of(line);
    let place = place_of(digits, LogCause::Place)?;
    if place >= places {
        return Err(LogCause::Place);
    }
    let mut draft = Draft::new(alloc, place);
    draft.add_all(alloc, words)?;
    Ok(draft.turn(alloc)?)
}

/// Whether a line is the one that says a turn.
fn is_line_of(alloc: Global, line: &str, turn: &Turn) -> Result<bool, AllocError>
    ensures { IfOk result (λ same. IsTrue same ↔ (line.now ≡ turn_line (turn_value turn.now))) }
{
    let mut text = String::new(alloc);
    push_turn(alloc, &mut text, turn)?;
    Ok(text.as_str() == line)
}

/// The turn that a line says, without the line feed, in a run with so many places.
pub fn read_turn(alloc: Global, places: u16, line: &str) -> Result<Turn, LogCause>
    ensures only { IfOk result (λ turn. line.now ≡ turn_line (turn_value turn)) }
    ensures within { IfOk result (λ turn. IsWithin places (turn_value turn)) }
    ensures found { (t : TurnValue) → IsWithin places t → FitsTurn t → line.now ≡ turn_line t
        → Shows turn_value result t }
{
    let turn = parsed_turn(alloc, places, line)?;
    if !is_line_of(alloc, line, &turn)? {
        return Err(LogCause::Spelling);
    }
    Ok(turn)
}
