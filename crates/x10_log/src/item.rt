//! What a word of a turn's line says.

ghost use Rattle.std.specs.Prelude.{◌≡◌, ◌<◌, ◌≤◌, ◌^◌, ◌++◌, ◌∷◌, ℕ, ℤ, List, FitsSigned, decimal, IfOk, length};
ghost use Rattle.std.specs.Int.{w64};
ghost use Rattle.std.specs.Fmt.{signed_decimal};
ghost use Rattle.hex.specs.Hex.{encode_lower, IsBytes};
ghost use Rattle.hex.specs.declared.error.FromHexError.TheVariants.{OutOfMemory};
ghost use Rattle.x10_model.specs.Places.{Number};
ghost use Rattle.x10_log.specs.declared.fault.LogCause.TheVariants.{Memory};
ghost use Rattle.x10_hall.specs.Halls.{PostedFrame};
ghost use Rattle.x10_log.specs.Logs.{times};
ghost use Rattle.x10_log.specs.Limits.{FitsFrame};
ghost use Rattle.x10_log.specs.Reading as reading;
ghost use Rattle.x10_log.specs.Reading.{Said, said, said_word, FitsSaid, IsPlain, IsEnd, Shows, ShowsBoth, tail_bytes};

use crate::cut::{cut, stripped, word_of};
use crate::fault::LogCause;
use crate::quoted::text_at;
use hex::FromHexError;
use std::alloc::Global;
use std::sync::Arc;
use x10_hall::Posted;
use x10_place::Line;

/// What one word says.
#[derive(Drop)]
pub enum Item {
    /// A frame was taken in, by its number.
    Taken(u64),
    /// So many steps with a key.
    Steps(usize, usize),
    /// A frame was put out.
    Sent(Posted),
    /// A line was printed.
    Printed(Line),
}

/// The number of a frame that was taken in.
fn frame_number(digits: &str) -> Result<u64, LogCause>
    ensures { (n : ℕ) → n < 2 ^ 64 → digits.now ≡ decimal n → result ≡ Ok n }
{
    digits.parse::<u64>().ok().ok_or(LogCause::Taken)
}

/// A key, or how often it was stepped.
fn count_of(digits: &str) -> Result<usize, LogCause>
    ensures { (n : ℕ) → n < 2 ^ 64 → digits.now ≡ decimal n → result ≡ Ok n }
{
    digits.parse::<usize>().ok().ok_or(LogCause::Key)
}

/// The steps of a run.
fn steps(word: &str) -> Result<Item, LogCause>
    ensures { (key count : ℕ) → key < 2 ^ 64 → count < 2 ^ 64
        → word.now ≡ decimal key ++ times count → Shows said result (reading.Steps key count) }
{
    match cut(word, '*') {
        Some((key, count)) => Ok(Item::Steps(count_of(key)?, count_of(count)?)),
        None => Ok(Item::Steps(count_of(word)?, 1)),
    }
}

/// A place, or how many there are; the cause, where it is none.
pub fn place_of(digits: &str, cause: LogCause) -> Result<u16, LogCause>
    ensures { (n : ℕ) → n < 2 ^ 16 → digits.now ≡ decimal n → result ≡ Ok n }
{
    digits.parse::<u16>().ok().ok_or(cause)
}

/// Why hexadecimal is refused.
fn hex_cause(fault: FromHexError) -> LogCause
    ensures { fault ≡ OutOfMemory → result ≡ Memory }
{
    match fault {
        FromHexError::OutOfMemory => LogCause::Memory,
        _ => LogCause::Frame,
    }
}

/// The bytes of a frame.
fn frame_bytes(alloc: Global, digits: &str) -> Result<Vec<u8>, LogCause>
    ensures { (bytes : List ℕ) → IsBytes bytes → digits.now ≡ encode_lower bytes
        → Shows (λ v. v.items) result bytes }
{
    match hex::decode(alloc, digits.as_bytes()) {
        Ok(bytes) => Ok(bytes),
        Err(fault) => Err(hex_cause(fault)),
    }
}

/// A frame that was put out.
fn sent(alloc: Global, text: &str) -> Result<Item, LogCause>
    ensures { (f : PostedFrame) → FitsFrame f
        → text.now ≡ decimal f.to ++ 58 ∷ encode_lower f.bytes
        → Shows said result (reading.Sent f) }
{
    let Some((to, digits)) = cut(text, ':') else {
        return Err(LogCause::Frame);
    };
    let to = place_of(to, LogCause::Frame)?;
    let bytes = frame_bytes(alloc, digits)?;
    let bytes = Arc::new(alloc, bytes)?;
    Ok(Item::Sent(Posted { to, bytes }))
}

/// A number that was printed.
fn int_of(digits: &str) -> Result<i64, LogCause>
    ensures { (z : ℤ) → FitsSigned w64 z → digits.now ≡ signed_decimal z → result ≡ Ok z }
{
    digits.parse::<i64>().ok().ok_or(LogCause::Printed)
}

/// What a word that is no text says.
fn item_of(alloc: Global, word: &str) -> Result<Item, LogCause>
    ensures { (s : Said) → FitsSaid s → IsPlain s → word.now ≡ said_word s
        → Shows said result s }
{
    if let Some(digits) = stripped(word, "<") {
        return Ok(Item::Taken(frame_number(digits)?));
    }
    if let Some(frame) = stripped(word, ">") {
        return sent(alloc, frame);
    }
    if let Some(digits) = stripped(word, "=") {
        return Ok(Item::Printed(Line::Int(int_of(digits)?)));
    }
    steps(word)
}

/// What the first word says, and what follows it.
pub fn item_at(alloc: Global, text: &str) -> Result<(Item, Option<&str>), LogCause>
    ensures found { (s : Said) (rest : List ℕ) → FitsSaid s → IsEnd rest
        → text.now ≡ said_word s ++ rest
        → ShowsBoth said tail_bytes result s rest }
    ensures shorter { IfOk result (λ x. length (tail_bytes x.1) ≤ length text.now) }
{
    if let Some(quoted) = stripped(text, "\"") {
        let (words, rest) = text_at(alloc, quoted)?;
        return Ok((Item::Printed(Line::Text(words)), rest));
    }
    let (word, rest) = word_of(text);
    let item = item_of(alloc, word)?;
    Ok((item, rest))
}
