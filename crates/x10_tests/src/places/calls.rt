//! A place by itself: its calls, and what they answer.
use crate::sources::verified_of;
use std::alloc::Global;
use std::test::*;
use x10_asm::assemble;
use x10_code::Op;
use x10_place::{Line, Place, Stepped};
use x10_samples::SEVEN;
use x10_verify::Verified;

/// A place of a run at `places` places, where its module runs at that many.
pub(crate) fn place_of<'a>(
    alloc: Global,
    verified: &'a Verified<'a>,
    id: u16,
    places: u16,
) -> Option<Place<'a>> {
    if id >= places || places > 64 || verified.image().least() > places {
        return None;
    }
    Place::new(alloc, verified, id, places).ok()
}

/// The place, which has to be there.
pub(crate) fn opened<'a>(
    alloc: Global,
    verified: &'a Verified<'a>,
    id: u16,
    places: u16,
) -> Result<Place<'a>, Fail> {
    Ok(place_of(alloc, verified, id, places).ok_or("the place is there")?)
}

/// What a test does at a place of the run of an image.
pub(crate) fn at_place<F: FnOnce(&mut Place) -> Result<(), Fail>>(
    alloc: Global,
    image: &[u8],
    id: u16,
    places: u16,
    test: F,
) -> Result<(), Fail>
    requires { F.IsAlwaysCallable test }
{
    let verified = verified_of(alloc, image)?;
    let mut place = opened(alloc, &verified, id, places)?;
    test(&mut place)
}

/// The same with a program as text.
pub(crate) fn at_place_of<F: FnOnce(&mut Place) -> Result<(), Fail>>(
    alloc: Global,
    text: &str,
    id: u16,
    places: u16,
    test: F,
) -> Result<(), Fail>
    requires { F.IsAlwaysCallable test }
{
    let image = assemble(alloc, text)?;
    at_place(alloc, &image, id, places, test)
}

/// Whether the activity with a key moves.
fn moves(place: &mut Place, key: usize) -> bool {
    matches!(place.step(key), Ok(Stepped::Moved(_)))
}

/// Whether there is nothing to do for a key.
pub(crate) fn idles(place: &mut Place, key: usize) -> bool {
    matches!(place.step(key), Ok(Stepped::Idle))
}

/// How many steps are made, of at most so many.
pub(crate) fn ran(place: &mut Place, key: usize, most: u64) -> Option<u64> {
    match place.run(key, most) {
        (steps, Ok(_)) => Some(steps),
        _ => None,
    }
}

/// Whether an activity stands at an operation of the first function.
fn stands_at(place: &Place, key: usize, op: Op) -> bool {
    matches!(place.at(key), Some((0, _, at)) if at == op)
}

/// Whether the run has ended.
pub(crate) fn is_closed(place: &Place) -> bool {
    place.closed()
}

/// Whether the number 7 was printed, and nothing else.
fn has_printed(place: &Place) -> bool {
    matches!(place.output(), [Line::Int(7)])
}

/// Whether the run has ended, and the number 7 was printed.
fn has_ended(place: &Place) -> bool {
    is_closed(place) && has_printed(place)
}

/// Where an activity stands, if there is one.
fn at(place: &Place, key: usize) -> Option<(u16, u16, Op)> {
    place.at(key)
}

/// How many lines there are.
pub(crate) fn lines(place: &Place) -> usize {
    place.output().len()
}

/// The least key in use, if there is one.
fn first_key(place: &Place) -> Option<usize> {
    place.next_key(0)
}

#[test]
fn step_by_step(rt: HostRuntime) -> Result<(), Fail> {
    at_place(rt.alloc(), &SEVEN, 0, 1, |place| {
        let key = first_key(place).ok_or("main is there")?;
        for op in [Op::Intk, Op::Print, Op::Ret] {
            assert!(rt; !is_closed(place) && stands_at(place, key, op));
            assert!(rt; moves(place, key));
        }
        assert!(rt; has_ended(place) && idles(place, key));
        assert!(rt; at(place, key).is_none() && first_key(place).is_none());
        Ok(())
    })
}

#[test]
fn at_a_stretch(rt: HostRuntime) -> Result<(), Fail> {
    at_place(rt.alloc(), &SEVEN, 0, 1, |place| {
        let key = first_key(place).ok_or("main is there")?;
        for (key, steps, made) in [(99, 5, 0), (key, 2, 2)] {
            assert!(rt; ran(place, key, steps) == Some(made) && !is_closed(place));
        }
        for made in [1, 0] {
            assert!(rt; ran(place, key, 5) == Some(made) && has_ended(place));
        }
        Ok(())
    })
}

#[test]
fn another_place(rt: HostRuntime) -> Result<(), Fail> {
    at_place(rt.alloc(), &SEVEN, 1, 2, |place| {
        assert!(rt; first_key(place).is_none() && idles(place, 0));
        assert!(rt; !is_closed(place));
        Ok(())
    })
}
