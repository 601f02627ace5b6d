//! Stays of activities, and what their place counts.
ghost use Rattle.std.specs.Prelude.{◌≡◌, ◌-◌, ◌<◌, ◌∷◌, ◌++◌, OnOk, decimal, length, slice_get, slice_index};
ghost use Rattle.std.specs.String.{string_bytes};
ghost use Rattle.x10_finish.specs.Ledgers.{totals_of};
ghost use Rattle.x10_place.specs.Stays.{finish_at, origin_as};
ghost use Rattle.x10_states.specs.Json.{bool_word, comma, elements, others};
ghost use Rattle.x10_states.specs.Stays.{back_text, callers_text, count_text, counts_text, finishes_text, flags_text, frame_if, frames_text, onward_text, origin_text, own_text, stay_text, totals_in, totals_text, under_text};

use crate::frames::push_frame;
use crate::json::{push_bool, push_comma};
use crate::kinds::Kinds;
use std::alloc::{AllocError, Global};
use std::fmt::Write;
use x10_heap::Heap;
use x10_model::Finish;
use x10_place::{Origin, Place, Stay};

/// Pushes the number that a list has for a place, with a comma before all but the first; 0 where the list is shorter.
fn push_count(out: &mut String, counts: &[u32], place: usize) -> Result<(), AllocError>
    ensures { OnOk result (string_bytes out.new
        ≡ string_bytes out.old ++ (comma place ++ decimal (slice_index counts.now place))) }
{
    let count = if place < counts.len() {
        counts[place]
    } else {
        0
    };
    push_comma(out, place)?;
    write!(out, "{count}")
}

/// Pushes a number for each of so many places.
fn push_counts(out: &mut String, counts: &[u32], places: u16) -> Result<(), AllocError>
    ensures { OnOk result (string_bytes out.new
        ≡ string_bytes out.old ++ elements places (λ p. decimal (slice_index counts.now p))) }
{
    for place in 0..usize::from(places) {
        push_count(out, counts, place)?;
    }
    Ok(())
}

/// Pushes a number for each of so many places, between what stands before and behind them.
#[tactic(auto, unfolding(crate::specs::Stays::counts_text))]
fn push_row(
    out: &mut String,
    before: &str,
    counts: &[u32],
    places: u16,
    behind: &str,
) -> Result<(), AllocError>
    ensures { OnOk result (string_bytes out.new ≡ string_bytes out.old
        ++ counts_text before.now places (slice_index counts.now) behind.now) }
{
    out.push_str(before)?;
    push_counts(out, counts, places)?;
    out.push_str(behind)
}

/// Pushes how many activities live at a place, how many were sent to each place, and how many came from each.
#[tactic(auto, unfolding(crate::specs::Stays::totals_text))]
fn push_totals(
    out: &mut String,
    places: u16,
    live: u32,
    sent: &[u32],
    received: &[u32],
) -> Result<(), AllocError>
    ensures { OnOk result (string_bytes out.new ≡ string_bytes out.old
        ++ totals_text places (totals_in live sent.now received.now)) }
{
    write!(out, ",\"live\":{live}")?;
    push_row(out, ",\"sent\":[", sent, places, "]")?;
    push_row(out, ",\"received\":[", received, places, "]}")
}

/// Pushes what a place has counted of a finish.
fn push_counted(out: &mut String, place: &Place, finish: Finish) -> Result<(), AllocError>
    ensures { OnOk result (string_bytes out.new ≡ string_bytes out.old
        ++ totals_text place.now.places (totals_of place.now.ledger finish)) }
{
    let (live, sent, received) = place.counts(finish);
    push_totals(out, place.places(), live, sent, received)
}

/// Pushes a finish, and what a place has counted of it: how many activities under it live there, how many were sent to each
/// place, and how many came from each. Linear in the places; a look-up of the finish.
#[tactic(auto, unfolding(crate::specs::Stays::count_text))]
pub fn push_finish(out: &mut String, place: &Place, finish: Finish) -> Result<(), AllocError>
    ensures { OnOk result (string_bytes out.new
        ≡ string_bytes out.old ++ count_text place.now finish) }
{
    let Finish { home, number } = finish;
    out.push_str("{\"home\":")?;
    write!(out, "{home},\"number\":{number}")?;
    push_counted(out, place, finish)
}

/// Pushes a comma and the call frame of one of those that called, counted from the last one.
fn push_caller(
    alloc: Global,
    out: &mut String,
    kinds: &Kinds,
    heap: &Heap,
    stay: &Stay,
    at: usize,
) -> Result<(), AllocError>
    requires { at < length stay.now.callers }
    ensures { OnOk result (string_bytes out.new ≡ string_bytes out.old ++ (44
        ∷ frame_if kinds.now heap.now
        (slice_get stay.now.callers (length stay.now.callers - 1 - at)))) }
{
    out.push(',')?;
    match stay.caller(stay.callers() - 1 - at) {
        Some(frame) => push_frame(alloc, out, kinds, heap, frame),
        None => Ok(()),
    }
}

/// Pushes the call frames of those that called, the last one first, with a comma before each.
fn push_callers(
    alloc: Global,
    out: &mut String,
    kinds: &Kinds,
    heap: &Heap,
    stay: &Stay,
) -> Result<(), AllocError>
    ensures { OnOk result (string_bytes out.new ≡ string_bytes out.old
        ++ others (length stay.now.callers) (λ i. frame_if kinds.now heap.now
        (slice_get stay.now.callers (length stay.now.callers - 1 - i)))) }
{
    for i in 0..stay.callers() {
        push_caller(alloc, out, kinds, heap, stay, i)?;
    }
    Ok(())
}

/// Pushes the call frames of those that called, and the end of the list.
#[tactic(auto, unfolding(crate::specs::Stays::callers_text))]
fn push_all_callers(
    alloc: Global,
    out: &mut String,
    kinds: &Kinds,
    heap: &Heap,
    stay: &Stay,
) -> Result<(), AllocError>
    ensures { OnOk result (string_bytes out.new ≡ string_bytes out.old
        ++ callers_text kinds.now heap.now stay.now.callers) }
{
    push_callers(alloc, out, kinds, heap, stay)?;
    out.push_str("]")
}

/// Pushes the call frames of a stay: that of the function that it executes, and each behind the one that it called.
#[tactic(auto, unfolding(crate::specs::Stays::frames_text))]
fn push_frames(
    alloc: Global,
    out: &mut String,
    kinds: &Kinds,
    heap: &Heap,
    stay: &Stay,
) -> Result<(), AllocError>
    ensures { OnOk result (string_bytes out.new
        ≡ string_bytes out.old ++ frames_text kinds.now heap.now stay.now) }
{
    out.push_str("{\"frames\":[")?;
    push_frame(alloc, out, kinds, heap, stay.frame())?;
    push_all_callers(alloc, out, kinds, heap, stay)
}

/// How many finishes a stay opened that are open.
#[tactic(auto, using(crate::proofs::Reversed::same_length))]
fn opened(stay: &Stay) -> usize
    ensures { result ≡ length stay.now.finishes }
{
    stay.finishes().len()
}

/// The number of one of the finishes that a stay opened and that are open, counted from the innermost one.
#[tactic(auto, using(crate::proofs::Reversed::from_the_end, crate::proofs::Reversed::same_length))]
fn opened_at(stay: &Stay, at: usize) -> u32
    requires { at < length stay.now.finishes }
    ensures { result ≡ slice_index stay.now.finishes at }
{
    let finishes = stay.finishes();
    finishes[finishes.len() - 1 - at]
}

/// Pushes the finish with a number, counted from the innermost one, with a comma before all but the first.
fn push_opened(out: &mut String, place: &Place, stay: &Stay, at: usize) -> Result<(), AllocError>
    requires { at < length stay.now.finishes }
    ensures { OnOk result (string_bytes out.new ≡ string_bytes out.old ++ (comma at
        ++ count_text place.now (finish_at place.now.id (slice_index stay.now.finishes at)))) }
{
    let finish = Finish {
        home: place.id(),
        number: opened_at(stay, at),
    };
    push_comma(out, at)?;
    push_finish(out, place, finish)
}

/// Pushes the finishes that a stay of a place opened and that are open, the innermost first, with commas between them.
fn push_each_finish(out: &mut String, place: &Place, stay: &Stay) -> Result<(), AllocError>
    ensures { OnOk result (string_bytes out.new ≡ string_bytes out.old
        ++ elements (length stay.now.finishes) (λ i. count_text place.now
        (finish_at place.now.id (slice_index stay.now.finishes i)))) }
{
    for i in 0..opened(stay) {
        push_opened(out, place, stay, i)?;
    }
    Ok(())
}

/// Pushes the list of the finishes that a stay of a place opened and that are open, the innermost first.
#[tactic(auto, unfolding(crate::specs::Stays::finishes_text))]
fn push_finishes(out: &mut String, place: &Place, stay: &Stay) -> Result<(), AllocError>
    ensures { OnOk result (string_bytes out.new
        ≡ string_bytes out.old ++ finishes_text place.now stay.now) }
{
    out.push_str(",\"finishes\":[")?;
    push_each_finish(out, place, stay)?;
    out.push_str("]")
}

/// Pushes what a stay executes, and which finishes it opened.
#[tactic(auto, unfolding(crate::specs::Stays::own_text))]
fn push_own(
    alloc: Global,
    out: &mut String,
    kinds: &Kinds,
    place: &Place,
    stay: &Stay,
) -> Result<(), AllocError>
    ensures { OnOk result (string_bytes out.new
        ≡ string_bytes out.old ++ own_text kinds.now place.now stay.now) }
{
    push_frames(alloc, out, kinds, place.heap(), stay)?;
    push_finishes(out, place, stay)
}

/// Pushes the finish that a stay inherited.
#[tactic(auto, unfolding(crate::specs::Stays::under_text))]
fn push_under(out: &mut String, place: &Place, under: Finish) -> Result<(), AllocError>
    ensures { OnOk result (string_bytes out.new
        ≡ string_bytes out.old ++ under_text place.now under) }
{
    out.push_str(",\"under\":")?;
    push_finish(out, place, under)
}

/// Pushes whether something holds, behind its name.
fn push_flag(out: &mut String, name: &str, value: bool) -> Result<(), AllocError>
    ensures { OnOk result (string_bytes out.new
        ≡ string_bytes out.old ++ (name.now ++ bool_word value)) }
{
    out.push_str(name)?;
    push_bool(out, value)
}

/// Pushes whether a stay is away, whether it is inside an atomic region, and whether it is idle.
#[tactic(auto, unfolding(crate::specs::Stays::flags_text))]
fn push_flags(out: &mut String, away: bool, inside: bool, idle: bool) -> Result<(), AllocError>
    ensures { OnOk result (string_bytes out.new
        ≡ string_bytes out.old ++ flags_text away inside idle) }
{
    push_flag(out, ",\"away\":", away)?;
    push_flag(out, ",\"inside\":", inside)?;
    push_flag(out, ",\"idle\":", idle)
}

/// Pushes the stay that a result goes back to.
fn push_origin(out: &mut String, back: Option<Origin>) -> Result<(), AllocError>
    ensures { OnOk result (string_bytes out.new
        ≡ string_bytes out.old ++ origin_text (origin_as back)) }
{
    match back {
        None => out.push_str("null"),
        Some(Origin { place, key }) => write!(out, "[{place},{key}]"),
    }
}

/// Pushes where a stay's result goes.
#[tactic(auto, unfolding(crate::specs::Stays::back_text))]
fn push_back(out: &mut String, back: Option<Origin>) -> Result<(), AllocError>
    ensures { OnOk result (string_bytes out.new
        ≡ string_bytes out.old ++ back_text (origin_as back)) }
{
    out.push_str(",\"back\":")?;
    push_origin(out, back)?;
    out.push_str("}")
}

/// Pushes how a stay goes on.
#[tactic(auto, unfolding(crate::specs::Stays::onward_text))]
fn push_onward(out: &mut String, stay: &Stay, idle: bool) -> Result<(), AllocError>
    ensures { OnOk result (string_bytes out.new
        ≡ string_bytes out.old ++ onward_text stay.now idle) }
{
    push_flags(out, stay.is_away(), stay.is_inside(), idle)?;
    push_back(out, stay.back())
}

/// Pushes a stay of a place, of which it is told whether a step would find nothing to do: its call frames, that of the
/// function that it executes first; the finishes that it opened and that are open, the innermost first, and the one that it
/// inherited, each with what the place has counted of it; whether it is away, inside an atomic region, and idle; and where
/// its result goes. Linear in the registers of its frames and their texts, and in its finishes times the places.
#[tactic(auto, unfolding(crate::specs::Stays::stay_text))]
pub fn push_stay(
    alloc: Global,
    out: &mut String,
    kinds: &Kinds,
    place: &Place,
    stay: &Stay,
    idle: bool,
) -> Result<(), AllocError>
    ensures { OnOk result (string_bytes out.new
        ≡ string_bytes out.old ++ stay_text kinds.now place.now stay.now idle) }
{
    push_own(alloc, out, kinds, place, stay)?;
    push_under(out, place, stay.inherited())?;
    push_onward(out, stay, idle)
}
