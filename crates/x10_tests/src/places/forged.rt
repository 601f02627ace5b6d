//! Frames that no place sends: which fault is reported for each, and that the place is as before.
use super::calls::{at_place_of, ran};
use super::receiving::{is_used, refused, spawn, takes};
use std::process::Abort;
use std::test::*;
use x10_copy::Refusal;
use x10_frame::FrameFault;
use x10_place::Place;
use x10_samples::{AWAY, BACK};

/// A function wants a reference whose home is here, and another one. Main makes a reference.
const REFERENCES: &str = "places 2
class
func 2 0 none here:0 gref:0
RET 0
end
func 2 0 none
NEW 0 0 0
GNEW 1 0
RET 0
end
entry 1
";

/// A new activity with two references, of which nothing is right.
const WRONG: [u8; 46] = [
    3, 1, 0, 1, 0, 1, 0, 0, 0, 0, 0, 5, 0, 9, // version to function
    0, 2, 0, 0, 0, 0, 0, 0, 0, 0, 0, 0, 0, 0, // counts
    7, 0, 1, 0, 0, 0, 0, 0, 1, // the first one's home and class
    7, 0, 0, 0, 0, 0, 1, 0, 0, // the second one's number
];

/// What puts one fault after another right, and the fault that is reported then.
const RIGHT: [(usize, u8, Refusal); 6] = [
    (0, 2, Refusal::NotHere),
    (5, 0, Refusal::Function),
    (13, 0, Refusal::Kind),
    (36, 0, Refusal::Home),
    (30, 0, Refusal::Ref),
    (43, 0, Refusal::Finish),
];

/// The way back from place 1 with the number 5, and a new activity with it.
const BACK_WITH_FIVE: [u8; 33] = [
    2, 3, 0, 1, 0, 0, 0, 0, 0, 0, 0, 1, 0, 0, 0, 0, 0, 0, 0, 0, 0, 0, 0, 0, 1, 0, 0, 0, 0, 0, 0, 0,
    5,
];

const SPAWN_WITH_FIVE: [u8; 37] = [
    2, 1, 0, 1, 0, 0, 0, 0, 0, 0, 0, 1, 0, 0, 0, 1, 0, 0, 0, 0, 0, 0, 0, 0, 0, 0, 0, 0, 1, 0, 0, 0,
    0, 0, 0, 0, 5,
];

/// Nothing was sent and nothing received of the seventh finish, as one of three places says.
const REPORT_OF_SEVENTH: [u8; 36] = [
    2, 4, 0, 1, 0, 0, 0, 0, 0, 7, 0, 3, 0, 0, 0, 0, 0, 0, 0, 0, 0, 0, 0, 0, 0, 0, 0, 0, 0, 0, 0, 0,
    0, 0, 0, 0,
];

/// The same of the first, as one of two places says.
const REPORT_OF_TWO_PLACES: [u8; 28] = [
    2, 4, 0, 1, 0, 0, 0, 0, 0, 1, 0, 2, 0, 0, 0, 0, 0, 0, 0, 0, 0, 0, 0, 0, 0, 0, 0, 0,
];

/// Each fault is reported in its turn, and the frame that has none is taken in.
fn each_is_told(rt: &impl Abort, place: &mut Place) {
    let mut frame = WRONG;
    let version = Refusal::Frame(FrameFault::Version);
    assert!(rt; refused(place, &frame) == Some(version));
    for (at, byte, fault) in RIGHT {
        if let Some(wrong) = frame.get_mut(at) {
            *wrong = byte;
        }
        assert!(rt; refused(place, &frame) == Some(fault), "byte {at}");
    }
    assert!(rt; !is_used(place, 1));
    frame[11] = 0;
    assert!(rt; takes(place, &frame) && is_used(place, 1));
}

#[test]
fn one_fault_after_another(rt: HostRuntime) -> Result<(), Fail> {
    at_place_of(rt.alloc(), REFERENCES, 0, 2, |place| {
        assert!(rt; ran(place, 0, 2) == Some(2));
        each_is_told(&rt, place);
        Ok(())
    })
}

/// Frames that are refused where main is away at place 1, in a finish.
fn are_refused(rt: &impl Abort, place: &mut Place) {
    let mut back = BACK;
    back[3] = 2;
    let mut short = spawn(1, 0);
    short[26] = 255;
    short[27] = 255;
    let (unknown, unmet) = (spawn(1, 3), spawn(2, 0));
    let frames: [(&[u8], Refusal); 8] = [
        (&back, Refusal::Segment),
        (&BACK_WITH_FIVE, Refusal::Kind),
        (&REPORT_OF_SEVENTH, Refusal::Finish),
        (&REPORT_OF_TWO_PLACES, Refusal::Frame(FrameFault::Place)),
        (&SPAWN_WITH_FIVE, Refusal::Kind),
        (&unknown, Refusal::Function),
        (&unmet, Refusal::Finish),
        (&short, Refusal::Frame(FrameFault::Short)),
    ];
    for (bytes, want) in frames {
        assert!(rt; refused(place, bytes) == Some(want));
    }
}

#[test]
fn at_home(rt: HostRuntime) -> Result<(), Fail> {
    at_place_of(rt.alloc(), AWAY, 0, 3, |place| {
        assert!(rt; ran(place, 0, 100) == Some(3));
        are_refused(&rt, place);
        assert!(rt; !is_used(place, 1));
        let mut elsewhere = spawn(99, 0);
        elsewhere[7] = 2;
        assert!(rt; takes(place, &elsewhere) && is_used(place, 1));
        assert!(rt; takes(place, &BACK));
        Ok(())
    })
}
