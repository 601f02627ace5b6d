//! Places where memory is refused: nothing changes any more, and no later call is taken.
use crate::begin::with_program;
use crate::programs::{DEEP, THERE_AND_BACK};
use std::alloc::Global;
use std::process::Abort;
use std::test::*;
use x10_code::Op;
use x10_copy::Refusal;
use x10_kinds::Stop;
use x10_place::{Line, Outgoing, Place, Sent, Stepped};
use x10_samples::{ALONG, CYCLE};
use x10_verify::Verified;

/// What can be seen of a place.
#[derive(Clone, Copy, PartialEq, Eq)]
struct Sight {
    at: Option<(u16, u16, Op)>,
    key: Option<usize>,
    lines: usize,
    closed: bool,
}

fn seen(place: &Place) -> Sight {
    Sight {
        at: place.at(0),
        key: place.next_key(0),
        lines: place.output().len(),
        closed: place.closed(),
    }
}

/// Whether a place is as it was seen before, and takes no later call.
fn is_left(place: &mut Place, before: Sight) -> bool {
    let stopped = matches!(place.step(0), Err(Stop::Stopped))
        && matches!(place.run(0, 1), (0, Err(Stop::Stopped)))
        && matches!(place.receive(&CYCLE), Err(Refusal::Stopped));
    stopped && seen(place) == before
}

/// A step of the first key: what it puts out, or why it isn't made, if there is a reason.
fn stepped(place: &mut Place) -> Result<Sent, Option<Stop>> {
    match place.step(0) {
        Ok(Stepped::Moved(sent)) => Ok(sent),
        Ok(Stepped::Idle) => Err(None),
        Err(stop) => Err(Some(stop)),
    }
}

/// What a step of the first key puts out. Nothing where memory is refused, and then all is as before.
fn step(rt: &impl Abort, place: &mut Place) -> Option<Sent> {
    let before = seen(place);
    match stepped(place) {
        Ok(sent) => Some(sent),
        Err(why) => {
            assert!(rt; why == Some(Stop::Memory) && is_left(place, before));
            None
        }
    }
}

/// Whether a step of the first key is made.
fn moves(rt: &impl Abort, place: &mut Place) -> bool {
    step(rt, place).is_some()
}

/// What the last of some steps puts out that are made one by one.
fn steps(rt: &impl Abort, place: &mut Place, count: u64) -> Option<Sent> {
    for _ in 1..count {
        if !moves(rt, place) {
            return None;
        }
    }
    step(rt, place)
}

/// What the last of some steps puts out that are made in a stretch. Nothing where memory is refused, and then fewer are made.
fn stretch(rt: &impl Abort, place: &mut Place, count: u64) -> Option<Sent> {
    match place.run(0, count) {
        (made, Ok(sent)) => {
            assert!(rt; made == count);
            Some(sent)
        }
        (made, Err(why)) => {
            let now = seen(place);
            assert!(rt; why == Stop::Memory && made < count && is_left(place, now));
            None
        }
    }
}

/// Takes in a frame. Nothing where memory is refused, and then all is as before.
fn take(rt: &impl Abort, place: &mut Place, frame: &[u8]) -> Option<()> {
    let before = seen(place);
    let why = place.receive(frame).err();
    if why.is_some() {
        assert!(rt; why == Some(Refusal::Memory) && is_left(place, before));
        return None;
    }
    Some(())
}

/// Takes in a frame that has to be there.
fn take_sent(rt: &impl Abort, place: &mut Place, sent: Option<Outgoing>) -> Option<()> {
    assert!(rt; sent.is_some());
    take(rt, place, &sent?.bytes)
}

/// How the first place makes its first steps.
#[derive(Clone, Copy, PartialEq, Eq)]
enum Manner {
    OneByOne,
    AtAStretch,
}

/// The whole way between two places, as far as memory is there.
fn hops(rt: &impl Abort, one: &mut Place, other: &mut Place, manner: Manner) -> Option<()> {
    let sent = match manner {
        Manner::OneByOne => steps(rt, one, 9)?,
        Manner::AtAStretch => stretch(rt, one, 9)?,
    };
    take_sent(rt, other, sent.message)?;
    let result = stretch(rt, other, 3)?;
    take_sent(rt, one, result.message)?;
    take_sent(rt, one, result.report)?;
    stretch(rt, one, 4)?;
    assert!(rt; one.closed() && has_printed(one) && has_printed(other));
    Some(())
}

/// Whether a place has printed the text, and nothing else.
fn has_printed(place: &Place) -> bool {
    matches!(place.output(), [Line::Text(text)] if text.as_str() == "0123456789")
}

/// A place of a run at so many places. Nothing where memory is refused.
fn place_of<'a>(
    alloc: Global,
    rt: &impl Abort,
    verified: &'a Verified<'a>,
    id: u16,
    places: u16,
) -> Option<Place<'a>> {
    assert!(rt; id < places && places <= 64 && verified.image().least() <= places);
    Place::new(alloc, verified, id, places).ok()
}

/// What a test does at a place of a program. Nothing where memory is refused.
fn at_place<F: FnOnce(&mut Place) -> Option<()>>(
    alloc: Global,
    rt: &impl Abort,
    verified: &Verified,
    id: u16,
    places: u16,
    test: F,
) -> Option<()>
    requires { F.IsAlwaysCallable test }
{
    let mut place = place_of(alloc, rt, verified, id, places)?;
    test(&mut place)
}

/// The whole way between the two places of a program. Nothing where memory is refused.
fn between(alloc: Global, rt: &impl Abort, verified: &Verified, manner: Manner) -> Option<()> {
    let mut one = place_of(alloc, rt, verified, 0, 2)?;
    let mut other = place_of(alloc, rt, verified, 1, 2)?;
    hops(rt, &mut one, &mut other, manner)
}

/// The same from a text on.
fn goes_there_and_back(alloc: Global, rt: &impl Abort, manner: Manner) -> Option<()> {
    with_program(alloc, rt, THERE_AND_BACK, |verified| {
        between(alloc, rt, verified, manner)
    })
}

/// Nineteen steps of one place, with calls, an object, a rail and texts.
fn ends(alloc: Global, rt: &impl Abort) -> Option<()> {
    with_program(alloc, rt, DEEP, |verified| {
        at_place(alloc, rt, verified, 0, 1, |place| {
            steps(rt, place, 19)?;
            assert!(rt; place.closed());
            Some(())
        })
    })
}

/// A place without an activity takes in a new one, which makes a step.
fn begins(alloc: Global, rt: &impl Abort) -> Option<()> {
    with_program(alloc, rt, ALONG, |verified| {
        at_place(alloc, rt, verified, 1, 2, |place| {
            take(rt, place, &CYCLE)?;
            step(rt, place)?;
            Some(())
        })
    })
}

#[test]
fn there_and_back(rt: HostRuntime) {
    assert!(rt; goes_there_and_back(rt.alloc(), &rt, Manner::OneByOne).is_some());
    assert!(rt; goes_there_and_back(rt.alloc(), &rt, Manner::AtAStretch).is_some());
    assert!(rt; ends(rt.alloc(), &rt).is_some() && begins(rt.alloc(), &rt).is_some());
}

#[test]
fn memory_refused(rt: HostRuntime) {
    ends(rt.alloc(), &rt);
}

#[test]
fn memory_refused_by_steps(rt: HostRuntime) {
    goes_there_and_back(rt.alloc(), &rt, Manner::OneByOne);
}

#[test]
fn memory_refused_at_a_stretch(rt: HostRuntime) {
    goes_there_and_back(rt.alloc(), &rt, Manner::AtAStretch);
}

#[test]
fn memory_refused_to_a_frame(rt: HostRuntime) {
    begins(rt.alloc(), &rt);
}
