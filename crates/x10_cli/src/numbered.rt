//! Lines of places for people.
ghost use Rattle.std.specs.Prelude.{◌≡◌, ◌≤◌, ◌++◌, OnOk, codes, decimal, drop, take};
ghost use Rattle.std.specs.Fmt.{signed_decimal};
ghost use Rattle.std.specs.Io.KnownBytes.{Appends};
ghost use Rattle.x10_model.specs.Places.{Number, Words};
ghost use Rattle.x10_cli.specs.Lines.{numbered};

use itoa::write_digits;
use std::io::{self, Write};
use std::marker::Model;

/// The most bytes of a line with a number: 20 for the place, 2 behind it, 20 for the number, and the line's end.
const MOST: usize = 43;

/// Writes the lines of a place. A line with a number is put together from its end. What is before the number stays from one
/// line to the next, and is put there again only where the next number begins elsewhere. Contracts see the place.
#[derive(Drop)]
pub(crate) struct PlaceLines {
    place: usize,
    line: [u8; MOST],
    /// Where the place begins, and where what is behind it ends.
    start: usize,
    end: usize,
}

impl Model for PlaceLines {
    ghost use Rattle.std.specs.Prelude.{ℕ};
    ghost use Rattle.x10_cli.specs.Lines.{HasFront};

    ghost Value = { ℕ };

    ghost view = { λ l. l.place };

    ghost invariant = { λ l. HasFront l.place l.line l.start l.end };
}

impl PlaceLines {
    /// Before the first line of a place.
    pub(crate) fn new(place: usize) -> PlaceLines
        ensures { result ≡ place }
    {
        let mut line = [b'\n'; MOST];
        let start = put_front(place, &mut line, MOST - 1);
        PlaceLines {
            place,
            line,
            start,
            end: MOST - 1,
        }
    }

    /// Writes a number behind the place, on a line.
    pub(crate) fn write_int<O: Write>(&mut self, number: i64, out: &mut O) -> io::Result<()>
        ensures line { OnOk result (Appends (O.contents out.old) (O.contents out.new)
            (numbered self.old (Number number))) }
        ensures kept { self.new ≡ self.old }
    {
        let end = put_signed(number, &mut self.line);
        if end != self.end {
            self.start = put_front(self.place, &mut self.line, end);
            self.end = end;
        }
        out.write_all(&self.line[self.start..])
    }

    /// Writes a text behind the place, on a line.
    pub(crate) fn write_text<O: Write>(&self, text: &str, out: &mut O) -> io::Result<()>
        ensures { OnOk result (Appends (O.contents out.old) (O.contents out.new)
            (numbered self.now (Words text.now))) }
    {
        out.write_all(&self.line[self.start..self.end])?;
        out.write_all(text.as_bytes())?;
        out.write_all(b"\n")
    }
}

/// Puts a place and what is behind it before `end`, and answers where it begins.
fn put_front(place: usize, line: &mut [u8; MOST], end: usize) -> usize
    requires { (22 ≤ end) × (end ≤ 42) }
    ensures before { result ≤ end }
    ensures front { drop result line.new ≡ decimal place ++ (codes ": " ++ drop end line.old) }
    ensures kept { drop end line.new ≡ drop end line.old }
{
    line[end - 2] = b':';
    line[end - 1] = b' ';
    write_digits(place as u64, line, end - 2)
}

/// Puts a number before the last byte, and answers where it begins.
#[inline(always)]
fn put_signed(number: i64, line: &mut [u8; MOST]) -> usize
    ensures room { 22 ≤ result }
    ensures within { result ≤ 42 }
    ensures digits { drop result line.new ≡ signed_decimal number ++ drop 42 line.old }
    ensures before { take result line.new ≡ take result line.old }
    ensures kept { drop 42 line.new ≡ drop 42 line.old }
{
    let start = write_digits(number.unsigned_abs(), line, MOST - 1);
    if number >= 0 {
        return start;
    }
    line[start - 1] = b'-';
    start - 1
}
