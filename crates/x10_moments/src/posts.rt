//! Frames in flight: those that an event put out, and all of them.
ghost use Rattle.std.specs.Prelude.{◌≡◌, ◌<◌, ◌+◌, ◌^◌, ◌++◌, OnOk, IfOk, length};
ghost use Rattle.std.specs.String.{string_bytes};
ghost use Rattle.x10_flights.specs.Flights.{flight_of};
ghost use Rattle.x10_states.specs.Json.{comma, elements};
ghost use Rattle.x10_trace.specs.Trace.{in_range};
ghost use Rattle.x10_moments.specs.Moments.{flight_piece, flight_pieces, flights_text, frames_text, post_text, posts_text, told_text, words_of};

use std::alloc::{AllocError, Global};
use std::fmt::Write;
use x10_frame::FrameFault;
use x10_frame_lines::frame_lines;
use x10_states::{push_comma, push_json};
use x10_world::{Done, World};

/// The frames that an event put out, in the world right after it.
pub(crate) fn push_posts(
    alloc: Global,
    text: &mut String,
    world: &World,
    done: &Done,
) -> Result<(), AllocError>
    ensures { OnOk result (string_bytes text.new ≡ string_bytes text.old
        ++ posts_text (length world.now.places) world.now.flights done.now) }
{
    let Done::Moved { first, count, .. } = *done else {
        return text.push_str("[]");
    };
    push_frames(alloc, text, world, first, count)
}

/// The frames in flight among the `count` numbered from `first` on.
#[tactic(auto, unfolding(crate::specs::Moments::frames_text))]
fn push_frames(
    alloc: Global,
    text: &mut String,
    world: &World,
    first: u64,
    count: u64,
) -> Result<(), AllocError>
    ensures { OnOk result (string_bytes text.new ≡ string_bytes text.old
        ++ frames_text (length world.now.places) world.now.flights first (in_range first count)) }
{
    text.push_str("[")?;
    push_range(alloc, text, world, first, count)?;
    text.push_str("]")
}

/// Those of the `count` numbered from `first` on.
fn push_range(
    alloc: Global,
    text: &mut String,
    world: &World,
    first: u64,
    count: u64,
) -> Result<(), AllocError>
    ensures { OnOk result (string_bytes text.new ≡ string_bytes text.old
        ++ elements (in_range first count)
        (λ i. post_text (length world.now.places) (flight_of world.now.flights (first + i)))) }
{
    for i in 0..count.min(u64::MAX - first) {
        push_nth(alloc, text, world, first, i)?;
    }
    Ok(())
}

/// The one that comes `i` numbers behind `first`, with a comma before all but the first.
fn push_nth(
    alloc: Global,
    text: &mut String,
    world: &World,
    first: u64,
    i: u64,
) -> Result<(), AllocError>
    requires { first + i < 2 ^ 64 }
    ensures { OnOk result (string_bytes text.new ≡ string_bytes text.old ++ (comma i
        ++ post_text (length world.now.places) (flight_of world.now.flights (first + i)))) }
{
    push_comma(text, i as usize)?;
    push_post(alloc, text, world, first + i)
}

/// The frame in flight with a number.
#[tactic(auto, unfolding(crate::specs::Moments::post_text))]
fn push_post(alloc: Global, text: &mut String, world: &World, number: u64) -> Result<(), AllocError>
    ensures { OnOk result (string_bytes text.new ≡ string_bytes text.old
        ++ post_text (length world.now.places) (flight_of world.now.flights number)) }
{
    let Some((to, bytes)) = world.frame(number) else {
        return text.push_str("null");
    };
    let words = words(alloc, bytes, world.count())?;
    push_words(text, number, to, &words)
}

/// How many frames were put out, and those of them that are in flight. Linear in that number.
#[tactic(auto, unfolding(crate::specs::Moments::flights_text))]
pub(crate) fn push_flights(
    alloc: Global,
    text: &mut String,
    world: &World,
) -> Result<(), AllocError>
    ensures { OnOk result (string_bytes text.new ≡ string_bytes text.old
        ++ flights_text (length world.now.places) world.now.flights) }
{
    let count = world.posted();
    write!(text, "[{count}")?;
    push_first_flights(alloc, text, world, count)?;
    text.push_str("]")
}

/// Those of the first `count` frames that are in flight, each behind a comma.
fn push_first_flights(
    alloc: Global,
    text: &mut String,
    world: &World,
    count: u64,
) -> Result<(), AllocError>
    ensures { OnOk result (string_bytes text.new ≡ string_bytes text.old
        ++ flight_pieces (length world.now.places) world.now.flights count) }
{
    for number in 0..count {
        push_flight(alloc, text, world, number)?;
    }
    Ok(())
}

/// The frame with a number behind a comma, if it is in flight.
fn push_flight(
    alloc: Global,
    text: &mut String,
    world: &World,
    number: u64,
) -> Result<(), AllocError>
    ensures { OnOk result (string_bytes text.new ≡ string_bytes text.old
        ++ flight_piece (length world.now.places) (flight_of world.now.flights number)) }
{
    let Some((to, bytes)) = world.frame(number) else {
        return Ok(());
    };
    let words = words(alloc, bytes, world.count())?;
    text.push(',')?;
    push_words(text, number, to, &words)
}

/// A frame in flight: its number, where it goes, and what it says.
#[tactic(auto, unfolding(crate::specs::Moments::told_text))]
fn push_words(text: &mut String, number: u64, to: u16, words: &str) -> Result<(), AllocError>
    ensures { OnOk result (string_bytes text.new
        ≡ string_bytes text.old ++ told_text number to words.now) }
{
    write!(text, "[{number},{to},")?;
    push_json(text, words)?;
    text.push_str("]")
}

/// What a frame says, as lines; nothing of bytes that are no frame.
fn words(alloc: Global, bytes: &[u8], places: u16) -> Result<String, AllocError>
    ensures { IfOk result (λ text. string_bytes text ≡ words_of places bytes.now) }
{
    match frame_lines(alloc, bytes, places) {
        Ok(text) => Ok(text),
        Err(FrameFault::Memory) => Err(AllocError),
        Err(_) => Ok(String::new(alloc)),
    }
}
