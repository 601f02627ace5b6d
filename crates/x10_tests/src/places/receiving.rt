//! What a place takes in and what it refuses, after which it goes on.
use super::calls::{at_place_of, idles, ran};
use std::process::Abort;
use std::test::*;
use x10_copy::Refusal;
use x10_frame::FrameFault;
use x10_place::{Line, Place, Stepped};
use x10_samples::{ALONG, AWAY, BACK, CYCLE, NARROW_CYCLE, OTHER_REPORT, REPORT};

/// Main starts an activity at place 1 and one at place 2 in a finish.
const TWO: &str = "places 3
func 1 0 none
RET 0
end
func 1 0 none
FINB
PLACEK 0 1
ATA 0 0 0
PLACEK 0 2
ATA 0 0 0
FINE
RET 0
end
entry 1
";

/// The way back from place 0 to the first key of place 1, with no result.
const BACK_TO_ONE: [u8; 24] = [
    2, 3, 0, 0, 0, 1, 0, 0, 0, 0, 0, 0, 0, 0, 0, 0, 0, 0, 0, 0, 0, 0, 0, 0,
];

/// A new activity at place 1 with a text that isn't UTF-8.
const NO_TEXT: [u8; 38] = [
    2, 1, 0, 0, 0, 1, 0, 0, 0, 0, 0, 1, 0, 0, 0, 1, 0, 0, 0, 1, 0, 0, 0, 0, 0, 0, 0, 0, 3, 0, 0, 0,
    0, 0, 0, 0, 1, 255,
];

/// A new activity from place 1 at place 0, under a finish of place 0, with nothing passed.
pub(crate) fn spawn(finish: u8, function: u8) -> [u8; 28] {
    let mut bytes = [0u8; 28];
    (bytes[0], bytes[1], bytes[3]) = (2, 1, 1);
    (bytes[11], bytes[13]) = (finish, function);
    bytes
}

/// What a place has sent to three places under the first finish of place 0, and received from them.
fn report(from: u8, sent: [u8; 3], received: [u8; 3]) -> [u8; 36] {
    let mut bytes = REPORT;
    bytes[3] = from;
    for place in 0..3usize {
        bytes[15 + 4 * place] = sent[place];
        bytes[27 + 4 * place] = received[place];
    }
    bytes
}

/// The frame of a cycle, with another byte at one position.
fn cycle_with(at: usize, byte: u8) -> [u8; 83] {
    let mut bytes = CYCLE;
    if let Some(place) = bytes.get_mut(at) {
        *place = byte;
    }
    bytes
}

/// Whether a step of the first key moves and puts out nothing.
fn moves(place: &mut Place) -> bool {
    match place.step(0) {
        Ok(Stepped::Moved(sent)) => sent.message.is_none() && sent.report.is_none(),
        _ => false,
    }
}

/// Whether a key is in use.
pub(crate) fn is_used(place: &Place, key: usize) -> bool {
    place.at(key).is_some()
}

/// Whether the first key stands at an instruction of a function.
fn stands_at(place: &Place, function: u16, pc: u16) -> bool {
    matches!(place.at(0), Some((f, n, _)) if f == function && n == pc)
}

/// Whether a place has printed one number, and nothing else.
pub(crate) fn printed(place: &Place, number: i64) -> bool {
    matches!(place.output(), [Line::Int(line)] if *line == number)
}

/// Whether the run has ended.
pub(crate) fn has_ended(place: &Place) -> bool {
    place.closed()
}

/// What is answered to bytes that are refused.
pub(crate) fn refused(place: &mut Place, bytes: &[u8]) -> Option<Refusal> {
    place.receive(bytes).err()
}

/// Whether bytes are taken in.
pub(crate) fn takes(place: &mut Place, bytes: &[u8]) -> bool {
    place.receive(bytes).is_ok()
}

/// Main waits for both reports, in any order. One that comes late changes nothing.
fn waits_for_both(rt: &impl Abort, place: &mut Place) {
    assert!(rt; ran(place, 0, 100) == Some(3));
    assert!(rt; ran(place, 0, 100) == Some(2));
    assert!(rt; idles(place, 0));
    assert!(rt; takes(place, &report(2, [0, 1, 0], [1, 0, 0])));
    assert!(rt; idles(place, 0));
    assert!(rt; takes(place, &report(1, [0, 0, 0], [1, 0, 1])));
    assert!(rt; moves(place));
    assert!(rt; takes(place, &report(1, [0, 0, 0], [1, 0, 0])));
    assert!(rt; !has_ended(place) && moves(place));
    assert!(rt; has_ended(place));
}

#[test]
fn reports_in_another_order(rt: HostRuntime) -> Result<(), Fail> {
    at_place_of(rt.alloc(), TWO, 0, 3, |place| {
        waits_for_both(&rt, place);
        Ok(())
    })
}

/// What place 1 refuses to take in, and why.
fn are_refused(rt: &impl Abort, place: &mut Place) {
    let (no_ref, no_function) = (cycle_with(54, 1), cycle_with(13, 2));
    let elsewhere = cycle_with(5, 0);
    let frames: [(&[u8], Refusal); 5] = [
        (&no_ref, Refusal::Ref),
        (&BACK_TO_ONE, Refusal::Segment),
        (&NO_TEXT, Refusal::Frame(FrameFault::Text)),
        (&no_function, Refusal::Function),
        (&elsewhere, Refusal::NotHere),
    ];
    for (bytes, want) in frames {
        assert!(rt; refused(place, bytes) == Some(want));
    }
}

/// Place 1 takes the frame of a cycle in, and the activity prints 9.
fn prints_nine(rt: &impl Abort, place: &mut Place, cycle: &[u8]) {
    assert!(rt; takes(place, cycle));
    assert!(rt; ran(place, 0, 100) == Some(10));
    assert!(rt; printed(place, 9));
}

/// Place 1 goes on after what it refuses.
fn goes_on(rt: &impl Abort, place: &mut Place) {
    are_refused(rt, place);
    assert!(rt; !is_used(place, 0));
    prints_nine(rt, place, &CYCLE);
}

#[test]
fn refused_and_then_taken(rt: HostRuntime) -> Result<(), Fail> {
    at_place_of(rt.alloc(), ALONG, 1, 2, |place| {
        goes_on(&rt, place);
        Ok(())
    })
}

#[test]
fn version_1_is_taken(rt: HostRuntime) -> Result<(), Fail> {
    at_place_of(rt.alloc(), ALONG, 1, 2, |place| {
        prints_nine(&rt, place, &NARROW_CYCLE);
        Ok(())
    })
}

/// Main comes back and closes its finish. Then nothing begins under it.
fn closes(rt: &impl Abort, place: &mut Place) {
    assert!(rt; ran(place, 0, 100) == Some(3));
    assert!(rt; takes(place, &BACK) && takes(place, &REPORT));
    assert!(rt; takes(place, &OTHER_REPORT));
    assert!(rt; stands_at(place, 2, 3) && moves(place));
    assert!(rt; refused(place, &spawn(1, 0)) == Some(Refusal::Finish));
    assert!(rt; takes(place, &REPORT));
    assert!(rt; ran(place, 0, 100) == Some(3));
    assert!(rt; has_ended(place) && printed(place, 9));
}

#[test]
fn after_the_finish(rt: HostRuntime) -> Result<(), Fail> {
    at_place_of(rt.alloc(), AWAY, 0, 3, |place| {
        closes(&rt, place);
        Ok(())
    })
}
