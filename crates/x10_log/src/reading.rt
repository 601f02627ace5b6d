//! A log's text, read.

ghost use Rattle.std.specs.Prelude.{◌≡◌, ◌<◌, ◌≤◌, ◌↔◌, IsTrue, ◌++◌, ◌∷◌, [], ℕ, List, IfOk, length, map, codes, decimal, OnOk, MatchResult};
ghost use Rattle.std.specs.List.{flat_map, AllByRecursion};
ghost use Rattle.hex.specs.Hex.{encode_lower, IsBytes};
ghost use Rattle.x10_model.specs.declared.limits.TheConstants.{MOST_PLACES};
ghost use Rattle.x10_log.specs.declared.fault.LogCause.TheVariants.{Memory};
ghost use Rattle.x10_log.specs.Logs.{TurnValue, LogValue, turn_value, log_value, turn_line, ended_line, head_lines, spelled};
ghost use Rattle.x10_log.specs.Limits.{IsWithin, IsLimited, FitsTurn, FitsLog};
ghost use Rattle.x10_log.specs.Reading.{Lacks, Shows, ShowsLog};

use crate::cut::{cut, stripped};
use crate::fault::{LogCause, LogFault};
use crate::item::place_of;
use crate::log::Log;
use crate::turn_line::read_turn;
use std::alloc::{AllocError, Global};
use std::fmt::Write;
use x10_hall::Turn;
use x10_model::limits::MOST_PLACES;

/// A fault on a line.
fn fault_on(line: usize, cause: LogCause) -> LogFault
    ensures { result.cause ≡ cause }
{
    LogFault { line, cause }
}

/// The first line of a text, without the line feed that it has to end with, and the text after it. The number is the line's.
fn line_of(text: &str, line: usize) -> Result<(&str, &str), LogFault>
    ensures some { IfOk result (λ x. text.now ≡ x.0.now ++ 10 ∷ x.1.now) }
    ensures found { (first rest : List ℕ) → Lacks 10 first → text.now ≡ first ++ 10 ∷ rest
        → MatchResult result (λ x. (x.0.now ≡ first) × (x.1.now ≡ rest)) (λ _. ⊥) }
{
    match cut(text, '\n') {
        Some((first, rest)) => Ok((first, rest)),
        None => Err(fault_on(line, LogCause::Ending)),
    }
}

/// The digest that 64 digits spell.
fn digest_of(digits: &str) -> Result<[u8; 32], LogCause>
    ensures { (bytes : List ℕ) → IsBytes bytes → length bytes ≡ 32
        → digits.now ≡ encode_lower bytes → Shows (λ digest. digest) result bytes }
{
    let mut digest = [0; 32];
    match hex::decode_to_slice(digits.as_bytes(), &mut digest) {
        Ok(()) => Ok(digest),
        Err(_) => Err(LogCause::Head),
    }
}

/// The digest that the second line says.
fn image_in(alloc: Global, line: &str) -> Result<[u8; 32], LogCause>
    ensures only { IfOk result (λ digest. line.now ≡ codes "image " ++ encode_lower digest) }
    ensures found { (bytes : List ℕ) → IsBytes bytes → length bytes ≡ 32
        → line.now ≡ codes "image " ++ encode_lower bytes → Shows (λ digest. digest) result bytes }
{
    let Some(digits) = stripped(line, "image ") else {
        return Err(LogCause::Head);
    };
    let digest = digest_of(digits)?;
    if hex::encode(alloc, digest.as_slice())?.as_str() != digits {
        return Err(LogCause::Head);
    }
    Ok(digest)
}

/// Whether a number has these digits.
fn is_decimal(alloc: Global, digits: &str, number: u16) -> Result<bool, AllocError>
    ensures { IfOk result (λ same. IsTrue same ↔ (digits.now ≡ decimal number)) }
{
    let mut text = String::new(alloc);
    write!(text, "{number}")?;
    Ok(text.as_str() == digits)
}

/// How many places the third line says there are.
fn places_in(alloc: Global, line: &str) -> Result<u16, LogCause>
    ensures only { IfOk result (λ places. line.now ≡ codes "places " ++ decimal places) }
    ensures few { IfOk result (λ places. (0 < places) × (places ≤ MOST_PLACES)) }
    ensures found { (n : ℕ) → 0 < n → n ≤ MOST_PLACES → line.now ≡ codes "places " ++ decimal n
        → Shows (λ places. places) result n }
{
    let Some(digits) = stripped(line, "places ") else {
        return Err(LogCause::Head);
    };
    let places = place_of(digits, LogCause::Head)?;
    if places == 0 || places > MOST_PLACES {
        return Err(LogCause::Place);
    }
    if !is_decimal(alloc, digits, places)? {
        return Err(LogCause::Head);
    }
    Ok(places)
}

/// What the first three lines say.
#[derive(Drop)]
struct Head {
    digest: [u8; 32],
    places: u16,
}

/// What the first three lines of a text say, and the text after them.
fn head_in(alloc: Global, text: &str) -> Result<(Head, &str), LogFault>
    ensures only { IfOk result (λ x. text.now ≡ head_lines x.0.digest x.0.places ++ x.1.now) }
    ensures few { IfOk result (λ x. (0 < x.0.places) × (x.0.places ≤ MOST_PLACES)) }
    ensures found { (bytes : List ℕ) (n : ℕ) (rest : List ℕ) → IsBytes bytes → length bytes ≡ 32
        → 0 < n → n ≤ MOST_PLACES → text.now ≡ head_lines bytes n ++ rest
        → MatchResult result (λ x. (x.0.digest ≡ bytes) × (x.0.places ≡ n) × (x.1.now ≡ rest))
        (λ fault. fault.cause ≡ Memory) }
{
    let Some(rest) = stripped(text, "x10 log 1\n") else {
        return Err(fault_on(1, LogCause::Head));
    };
    let (second, rest) = line_of(rest, 2)?;
    let digest = match image_in(alloc, second) {
        Ok(digest) => digest,
        Err(cause) => return Err(fault_on(2, cause)),
    };
    let (third, rest) = line_of(rest, 3)?;
    let places = match places_in(alloc, third) {
        Ok(places) => places,
        Err(cause) => return Err(fault_on(3, cause)),
    };
    Ok((Head { digest, places }, rest))
}

/// Reads a turn's line and appends what it says.
fn push_read(alloc: Global, places: u16, turns: &mut Vec<Turn>, line: &str) -> Result<(), LogCause>
    ensures only { OnOk result ((t : TurnValue) × (line.now ≡ turn_line t) × IsWithin places t
        × (map turn_value turns.new.items ≡ map turn_value turns.old.items ++ t ∷ [])) }
    ensures found { (t : TurnValue) → IsWithin places t → FitsTurn t → line.now ≡ turn_line t
        → MatchResult result (λ _. map turn_value turns.new.items
        ≡ map turn_value turns.old.items ++ t ∷ []) (λ cause. cause ≡ Memory) }
{
    let turn = read_turn(alloc, places, line)?;
    turns.push(turn)?;
    Ok(())
}

/// The turns that the lines after the first three say, in a run with so many places.
fn turns_in(alloc: Global, places: u16, text: &str) -> Result<Vec<Turn>, LogFault>
    ensures only { IfOk result (λ turns. text.now
        ≡ flat_map ended_line (map turn_value turns.items)) }
    ensures within { IfOk result (λ turns. AllByRecursion (IsWithin places)
        (map turn_value turns.items)) }
    ensures found { (ts : List TurnValue) → AllByRecursion (IsWithin places) ts
        → AllByRecursion FitsTurn ts → text.now ≡ flat_map ended_line ts
        → ShowsLog (λ turns. map turn_value turns.items) result ts }
{
    let mut turns = Vec::new(alloc);
    let mut rest = text;
    while let Some((line, after)) = cut(rest, '\n') {
        if let Err(cause) = push_read(alloc, places, &mut turns, line) {
            return Err(fault_on(turns.len() + 4, cause));
        }
        rest = after;
    }
    if !rest.is_empty() {
        return Err(fault_on(turns.len() + 4, LogCause::Ending));
    }
    Ok(turns)
}

/// The log that a text spells. A text that no log within the limits spells is refused, with the first line that is wrong.
/// Linear in the text, in time and memory.
#[tactic(auto, unfolding(crate::specs::Logs::spelled))]
pub fn read_log(alloc: Global, text: &str) -> Result<Log, LogFault>
    ensures only { IfOk result (λ log. text.now ≡ spelled (log_value log)) }
    ensures limited { IfOk result (λ log. IsLimited (log_value log)) }
    ensures found { (l : LogValue) → IsLimited l → FitsLog l → text.now ≡ spelled l
        → ShowsLog log_value result l }
{
    let (head, rest) = head_in(alloc, text)?;
    let digest = head.digest;
    let places = head.places;
    let turns = turns_in(alloc, places, rest)?;
    Ok(Log {
        digest,
        places,
        turns,
    })
}
