//! Frames with one byte changed, and proper beginnings of frames: each is refused with the place as it was, or taken in, after
//! which the place goes on.
use crate::sources::{assembled, verified_of};
use std::alloc::Global;
use std::process::Abort;
use std::test::*;
use x10_copy::Refusal;
use x10_frame::FrameFault;
use x10_place::Place;
use x10_samples::{ALONG, AWAY, BACK, CYCLE, NARROW_CYCLE, NARROW_SHIFT, REPORT, SHIFT};
use x10_verify::Verified;

/// A frame that a place takes in, once its first activity has made some steps.
#[derive(Clone, Copy)]
struct Arrival {
    frame: &'static [u8],
    place: u16,
    places: u16,
    steps: u64,
}

/// A new activity with two objects, each of which holds the other.
const NEW: Arrival = Arrival {
    frame: &CYCLE,
    place: 1,
    places: 2,
    steps: 0,
};

/// The same in version 1.
const NARROW_NEW: Arrival = Arrival {
    frame: &NARROW_CYCLE,
    place: 1,
    places: 2,
    steps: 0,
};

/// Main comes to place 1, comes back from there, and what place 1 counted of its finish.
const THERE: Arrival = Arrival {
    frame: &SHIFT,
    place: 1,
    places: 3,
    steps: 0,
};

const NARROW_THERE: Arrival = Arrival {
    frame: &NARROW_SHIFT,
    place: 1,
    places: 3,
    steps: 0,
};

const HOME: Arrival = Arrival {
    frame: &BACK,
    place: 0,
    places: 3,
    steps: 3,
};

const COUNTED: Arrival = Arrival {
    frame: &REPORT,
    place: 0,
    places: 3,
    steps: 3,
};

/// Whether the first activity of a place makes so many steps.
fn makes(place: &mut Place, steps: u64) -> bool {
    matches!(place.run(0, steps), (made, Ok(_)) if made == steps)
}

/// A place that waits for a frame.
fn waiting<'a>(alloc: Global, verified: &'a Verified<'a>, arrival: &Arrival) -> Option<Place<'a>> {
    let Arrival {
        place,
        places,
        steps,
        ..
    } = *arrival;
    if place >= places || places > 64 || verified.image().least() > places {
        return None;
    }
    let mut place = Place::new(alloc, verified, place, places).ok()?;
    makes(&mut place, steps).then_some(place)
}

/// What can be seen of a place from outside: where its first activities stand, and how many lines it has.
fn seen(place: &Place) -> ([Option<(u16, u16)>; 3], Option<usize>, usize) {
    let mut stands = [None; 3];
    for (key, at) in stands.iter_mut().enumerate() {
        *at = place.at(key).map(|(function, pc, _)| (function, pc));
    }
    (stands, place.next_key(3), place.output().len())
}

/// The answer to a frame that is refused.
fn refusal(place: &mut Place, frame: &[u8]) -> Option<Refusal> {
    place.receive(frame).err()
}

/// Whether a step of a key is made, or finds nothing to do.
fn goes(place: &mut Place, key: usize) -> bool {
    place.step(key).is_ok()
}

/// The key in use after one, going round; the first one where there is none.
fn key_after(place: &Place, key: usize) -> usize {
    match place.next_key(key.saturating_add(1)) {
        Some(next) => next,
        None => place.next_key(0).unwrap_or(0),
    }
}

/// Forty steps over all keys, of which none is stopped.
fn goes_on(rt: &impl Abort, place: &mut Place) {
    let mut key = place.next_key(0).unwrap_or(0);
    for _ in 0..40 {
        assert!(rt; goes(place, key));
        key = key_after(place, key);
    }
}

/// Whether a place stops after a refusal, which then is no fault of the bytes.
fn stops(why: Refusal) -> bool {
    matches!(why, Refusal::Memory | Refusal::Limit(_) | Refusal::Stopped)
}

/// Gives a frame to a waiting place: whether it is taken in. Where it is refused, the place is as it was, and takes in the right
/// one. Then it goes on.
fn is_taken(rt: &impl Abort, place: &mut Place, frame: &[u8], right: &[u8]) -> bool {
    let before = seen(place);
    let Some(why) = refusal(place, frame) else {
        goes_on(rt, place);
        return true;
    };
    assert!(rt; !stops(why) && seen(place) == before);
    assert!(rt; refusal(place, right).is_none());
    goes_on(rt, place);
    false
}

/// Whether a new place that waits takes a frame in; none where no place waits.
fn is_taken_anew<'a>(
    alloc: Global,
    rt: &impl Abort,
    verified: &'a Verified<'a>,
    arrival: &Arrival,
    frame: &[u8],
) -> Option<bool> {
    let mut place = waiting(alloc, verified, arrival)?;
    Some(is_taken(rt, &mut place, frame, arrival.frame))
}

/// A frame with each value in place of one byte: how many of them are taken in.
fn taken_at<'a>(
    alloc: Global,
    rt: &impl Abort,
    verified: &'a Verified<'a>,
    arrival: &Arrival,
    frame: &mut [u8],
    at: usize,
) -> Result<u32, Fail> {
    let mut taken = 0u32;
    for value in 0..=255u8 {
        if let Some(byte) = frame.get_mut(at) {
            *byte = value;
        }
        let is_taken = is_taken_anew(alloc, rt, verified, arrival, frame);
        if is_taken.ok_or("the place waits")? {
            taken = taken.saturating_add(1);
        }
    }
    Ok(taken)
}

/// A frame with each value in place of each byte: how many of them are taken in.
fn taken(alloc: Global, rt: &impl Abort, text: &str, arrival: &Arrival) -> Result<u32, Fail> {
    let bytes = assembled(alloc, text)?;
    let verified = verified_of(alloc, &bytes)?;
    let mut taken = 0u32;
    for at in 0..arrival.frame.len() {
        let mut frame = Vec::from_slice(alloc, arrival.frame)?;
        let these = taken_at(alloc, rt, &verified, arrival, &mut frame, at)?;
        taken = taken.saturating_add(these);
    }
    Ok(taken)
}

/// Any value is good in 14 of the bytes: the number of the finish, those of the rail, and the numbers of the two references,
/// whose home is elsewhere. Two are good for the sender, and for the last field that names an object; one in each other.
#[test]
fn new_activity(rt: HostRuntime) -> Result<(), Fail> {
    assert_eq!(rt; taken(rt.alloc(), &rt, ALONG, &NEW)?, 3_655);
    Ok(())
}

/// Any value is good in the same bytes, where the numbers of parts have two bytes.
#[test]
fn new_activity_in_version_1(rt: HostRuntime) -> Result<(), Fail> {
    assert_eq!(rt; taken(rt.alloc(), &rt, ALONG, &NARROW_NEW)?, 3_639);
    Ok(())
}

/// Any value is good in the eight bytes of the stay that waits elsewhere and of the number of the finish. Three are good as the
/// sender and as the function, two as the finish's home, which has to be another place, and one in each other byte.
#[test]
fn main_comes(rt: HostRuntime) -> Result<(), Fail> {
    assert_eq!(rt; taken(rt.alloc(), &rt, AWAY, &THERE)?, 2_077);
    Ok(())
}

/// One value is good in each byte.
#[test]
fn main_comes_back(rt: HostRuntime) -> Result<(), Fail> {
    assert_eq!(rt; taken(rt.alloc(), &rt, AWAY, &HOME)?, 24);
    Ok(())
}

/// Any value is good in the 24 bytes of the counts, the three places as the sender, the root beside the finish, and both
/// versions, which are the same for a report.
#[test]
fn report(rt: HostRuntime) -> Result<(), Fail> {
    assert_eq!(rt; taken(rt.alloc(), &rt, AWAY, &COUNTED)?, 6_160);
    Ok(())
}

/// Whether each proper beginning of a frame is `Short` for a place that waits, which then takes the frame in.
fn is_short_for(place: &mut Place, frame: &[u8]) -> bool {
    let (before, short) = (seen(place), Some(Refusal::Frame(FrameFault::Short)));
    for length in 0..frame.len() {
        if refusal(place, &frame[..length]) != short || seen(place) != before {
            return false;
        }
    }
    refusal(place, frame).is_none()
}

/// The same for a place of a program.
fn are_short(alloc: Global, rt: &impl Abort, text: &str, arrival: &Arrival) -> Result<(), Fail> {
    let bytes = assembled(alloc, text)?;
    let verified = verified_of(alloc, &bytes)?;
    let mut place = waiting(alloc, &verified, arrival).ok_or("a place waits")?;
    assert!(rt; is_short_for(&mut place, arrival.frame));
    Ok(())
}

#[test]
fn beginnings(rt: HostRuntime) -> Result<(), Fail> {
    for arrival in [NEW, NARROW_NEW] {
        are_short(rt.alloc(), &rt, ALONG, &arrival)?;
    }
    for arrival in [THERE, NARROW_THERE, HOME, COUNTED] {
        are_short(rt.alloc(), &rt, AWAY, &arrival)?;
    }
    Ok(())
}
