//! What a place put out and printed, for the caller's buffer.
ghost use Rattle.std.specs.Prelude.{◌≡◌, ◌≢◌, IfOk};
ghost use Rattle.x10_place.specs.StandsFor.{line_as};
ghost use Rattle.x10_handles.specs.declared.inside.Inside.TheVariants as behind;
ghost use Rattle.x10_handles.specs.declared.station.Station.{Station};
ghost use Rattle.x10_cli.specs.Lines.{shown};
ghost use Rattle.x10_c.specs.Handles.{IsLineTo, IsSentTo};

use crate::answer::{SMALL, copy};
use crate::handles::{CLOSED, NOTHING};
use std::alloc::Global;
use std::io::{self, Write};
use x10_handles::{Inside, Station};
use x10_place::Line;

/// Shows something of what is behind a handle, which stays there. Where nothing is, the function that asks for it returns CLOSED.
macro_rules! show {
    ($alloc:ident, $handle:ident, $inside:ident => $shown:expr) => {{
        let Some($inside) = take($alloc, $handle) else {
            return CLOSED;
        };
        let status = $shown;
        put($handle, $inside);
        status
    }};
}

pub(crate) use show;

/// Copies one of the frames that a place's last step put out.
fn frame_to(
    station: &Station,
    number: usize,
    to: &mut u16,
    buffer: &mut [u8],
    needed: &mut usize,
) -> u32
    ensures { IsSentTo station.now.sent number result to.new needed.new buffer.old buffer.new }
{
    *needed = 0;
    *to = 0;
    let Some(frame) = station.frame(number) else {
        return NOTHING;
    };
    *to = frame.to;
    if copy(&frame.bytes, buffer, needed) {
        return 0;
    }
    SMALL
}

/// The same of what is behind a handle.
pub fn sent_in(
    inside: &Inside,
    number: usize,
    to: &mut u16,
    buffer: &mut [u8],
    needed: &mut usize,
) -> u32
    ensures lacks { result ≡ 7 → (s : Station) → inside.now ≡ behind.Place s → ⊥ }
    ensures shows { result ≢ 7 → (s : Station) × (inside.now ≡ behind.Place s)
        × IsSentTo s.sent number result to.new needed.new buffer.old buffer.new }
{
    match inside {
        Inside::Place(station) => frame_to(station, number, to, buffer, needed),
        Inside::Module(_) => CLOSED,
        Inside::World(_) => CLOSED,
    }
}

/// A line as it is printed.
fn text_of(alloc: Global, line: &Line) -> io::Result<Vec<u8>>
    ensures { IfOk result (λ text. text.items ≡ shown (line_as line.now)) }
{
    let mut text = Vec::new(alloc);
    match line {
        Line::Int(number) => write!(text, "{number}")?,
        Line::Text(words) => write!(text, "{words}")?,
    }
    Ok(text)
}

/// Copies one of some lines.
pub(crate) fn line_among(
    alloc: Global,
    lines: &[Line],
    number: usize,
    buffer: &mut [u8],
    needed: &mut usize,
) -> u32
    ensures { IsLineTo lines.now number result needed.new buffer.old buffer.new }
{
    *needed = 0;
    let Some(line) = lines.get(number) else {
        return NOTHING;
    };
    let Ok(text) = text_of(alloc, line) else {
        return 2;
    };
    if copy(&text, buffer, needed) {
        return 0;
    }
    SMALL
}

/// The same of what is behind a handle.
pub fn line_in(
    alloc: Global,
    inside: &Inside,
    number: usize,
    buffer: &mut [u8],
    needed: &mut usize,
) -> u32
    ensures lacks { result ≡ 7 → (s : Station) → inside.now ≡ behind.Place s → ⊥ }
    ensures shows { result ≢ 7 → (s : Station) × (inside.now ≡ behind.Place s)
        × IsLineTo s.place.lines number result needed.new buffer.old buffer.new }
{
    match inside {
        Inside::Place(station) => line_among(alloc, station.place.output(), number, buffer, needed),
        Inside::Module(_) => CLOSED,
        Inside::World(_) => CLOSED,
    }
}
