//! Numbers as words.

ghost use Rattle.std.specs.Prelude.{◌≡◌, ◌≤◌, ◌^◌, IfSome, IfOk, Some};
ghost use Rattle.x10_asm.specs.declared.fault.AsmCause.TheVariants.{Number, Count};
ghost use Rattle.x10_asm.specs.Lines as spec;
ghost use Rattle.x10_asm.specs.Lines.{words};
ghost use Rattle.x10_asm.specs.Checks as checks;
ghost use Rattle.x10_asm.specs.Checks.{given, Answers};
ghost use Rattle.x10_asm.specs.Reading as reading;

use crate::fault::AsmCause;
use crate::split::next_word;

/// The number that decimal digits spell, if it is at most `most`. A word that spells a greater one is given up as soon as that
/// shows.
pub fn number_of(word: &str, most: u64) -> Option<u64>
    requires { most ≤ 2 ^ 63 }
    ensures value { result ≡ spec.number_of most word.now }
    ensures below { IfSome result (λ n. n ≤ most) }
{
    let bytes = word.as_bytes();
    if bytes.is_empty() {
        return None;
    }
    let mut value: u64 = 0;
    for at in 0..bytes.len() {
        let byte = bytes[at];
        if !byte.is_ascii_digit() || value >= 1 << 60 {
            return None;
        }
        value = 10 * value + u64::from(byte - b'0');
        if value > most {
            return None;
        }
    }
    Some(value)
}

/// The number that a word spells, which has to be at most `most`.
pub fn number(word: &str, most: u64) -> Result<u64, AsmCause>
    requires { most ≤ 2 ^ 63 }
    ensures value { result ≡ given (spec.number_of most word.now) Number }
    ensures below { IfOk result (λ n. n ≤ most) }
{
    number_of(word, most).ok_or(AsmCause::Number)
}

/// The number that the first word spells, and the words after it.
pub fn number_at(line: &str, most: u64) -> Result<(u64, &str), AsmCause>
    requires { most ≤ 2 ^ 63 }
    ensures value { Answers (λ x. (x.0, words x.1.now)) result
        (checks.number_at most (words line.now)) }
    ensures below { IfOk result (λ x. x.0 ≤ most) }
{
    let Some((word, rest)) = next_word(line) else {
        return Err(AsmCause::Count);
    };
    Ok((number(word, most)?, rest))
}

/// Nothing, where no word is left.
pub fn no_more(line: &str) -> Result<(), AsmCause>
    ensures { result ≡ checks.no_more (words line.now) }
{
    match next_word(line) {
        None => Ok(()),
        Some(_) => Err(AsmCause::Count),
    }
}

/// The number that the only word of a line spells.
pub fn one_number(line: &str, most: u64) -> Result<u64, AsmCause>
    requires { most ≤ 2 ^ 63 }
    ensures value { result ≡ checks.one_number most (words line.now) }
    ensures below { IfOk result (λ n. n ≤ most) }
{
    let (number, rest) = number_at(line, most)?;
    no_more(rest)?;
    Ok(number)
}

/// Minus a number.
fn negative(number: u64) -> i64
    requires { number ≤ 2 ^ 63 }
    ensures { result ≡ spec.negative number }
{
    if number == 0 {
        0
    } else {
        -((number - 1) as i64) - 1
    }
}

pub fn int_of(word: &str) -> Option<i64>
    ensures { result ≡ spec.int_of word.now }
{
    match word.strip_prefix("-") {
        Some(digits) => Some(negative(number_of(digits, 1 << 63)?)),
        None => Some(number_of(word, (1 << 63) - 1)? as i64),
    }
}

/// The number of 64 bits in two's complement that the only word of a line spells.
pub fn one_int(line: &str) -> Result<i64, AsmCause>
    ensures { result ≡ reading.one_int (words line.now) }
{
    let Some((word, rest)) = next_word(line) else {
        return Err(AsmCause::Count);
    };
    let int = int_of(word).ok_or(AsmCause::Number)?;
    no_more(rest)?;
    Ok(int)
}
