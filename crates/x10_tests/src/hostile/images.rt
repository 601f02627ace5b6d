//! Images with one byte changed: each is refused by name, or its module runs.
use super::programs::{CALLS, NUMBERS, OBJECTS, RAILS};
use crate::sources::assembled;
use std::alloc::Global;
use std::process::Abort;
use std::test::*;
use x10_image::{ImageFault, ImageView};
use x10_samples::{ALONG, LOOPS, SEVEN};
use x10_verify::{Verified, VerifyCause, verify};
use x10_world::{Unfinished, World, run_rounds};

/// What becomes of the bytes of an image.
#[derive(Clone, Copy, PartialEq, Eq)]
enum Fate {
    /// They are no image, or the verifier refuses the module.
    Refused,
    /// The run ends, or ten events of it are made.
    Runs,
    /// Something else.
    Wrong,
}

/// Ten events of a run in rounds, or fewer where it ends before.
fn ten_events(alloc: Global, verified: &Verified) -> Fate {
    let Ok(mut world) = World::open(alloc, verified, verified.image().least()) else {
        return Fate::Wrong;
    };
    match run_rounds(alloc, &mut world, 10) {
        Ok(()) | Err(Unfinished::Limit) => Fate::Runs,
        Err(_) => Fate::Wrong,
    }
}

/// What becomes of a module's image.
fn checked(alloc: Global, view: ImageView) -> Fate {
    match verify(alloc, view) {
        Ok(verified) => ten_events(alloc, &verified),
        Err(fault) if fault.cause == VerifyCause::Memory => Fate::Wrong,
        Err(_) => Fate::Refused,
    }
}

/// What becomes of bytes.
fn fate_of(alloc: Global, bytes: &[u8]) -> Fate {
    match ImageView::read(alloc, bytes) {
        Ok(view) => checked(alloc, view),
        Err(ImageFault::Memory) => Fate::Wrong,
        Err(_) => Fate::Refused,
    }
}

/// An image with each other value in place of one byte: how many of them run.
fn others_at(alloc: Global, rt: &impl Abort, bytes: &mut [u8], at: usize) -> u32 {
    let mut running = 0u32;
    let Some(right) = bytes.get(at).copied() else {
        return 0;
    };
    for value in 0..=255u8 {
        if let Some(byte) = bytes.get_mut(at) {
            *byte = value;
        }
        let fate = fate_of(alloc, bytes);
        assert!(rt; fate != Fate::Wrong, "byte {at}");
        if fate == Fate::Runs && value != right {
            running = running.saturating_add(1);
        }
    }
    if let Some(byte) = bytes.get_mut(at) {
        *byte = right;
    }
    running
}

/// An image with each other value in place of each byte: how many of them run.
fn others(alloc: Global, rt: &impl Abort, bytes: &mut [u8]) -> u32 {
    let mut running = 0u32;
    for at in 0..bytes.len() {
        running = running.saturating_add(others_at(alloc, rt, bytes, at));
    }
    running
}

/// The same for the image of a program that is given as text.
fn others_of(alloc: Global, rt: &impl Abort, text: &str) -> Result<u32, Fail> {
    let mut bytes = assembled(alloc, text)?;
    assert!(rt; fate_of(alloc, &bytes) == Fate::Runs);
    Ok(others(alloc, rt, &mut bytes))
}

#[test]
fn seven(rt: HostRuntime) {
    let mut bytes = SEVEN;
    assert_eq!(rt; others(rt.alloc(), &rt, &mut bytes), 2_189);
}

#[test]
fn numbers(rt: HostRuntime) -> Result<(), Fail> {
    assert_eq!(rt; others_of(rt.alloc(), &rt, NUMBERS)?, 6_349);
    Ok(())
}

#[test]
fn loops(rt: HostRuntime) -> Result<(), Fail> {
    assert_eq!(rt; others_of(rt.alloc(), &rt, LOOPS)?, 3_215);
    Ok(())
}

#[test]
fn calls(rt: HostRuntime) -> Result<(), Fail> {
    assert_eq!(rt; others_of(rt.alloc(), &rt, CALLS)?, 2_360);
    Ok(())
}

#[test]
fn objects(rt: HostRuntime) -> Result<(), Fail> {
    assert_eq!(rt; others_of(rt.alloc(), &rt, OBJECTS)?, 4_251);
    Ok(())
}

#[test]
fn rails(rt: HostRuntime) -> Result<(), Fail> {
    assert_eq!(rt; others_of(rt.alloc(), &rt, RAILS)?, 4_520);
    Ok(())
}

#[test]
fn activities(rt: HostRuntime) -> Result<(), Fail> {
    assert_eq!(rt; others_of(rt.alloc(), &rt, ALONG)?, 6_403);
    Ok(())
}

/// Each proper beginning of an image is `Short`.
#[test]
fn beginnings(rt: HostRuntime) -> Result<(), Fail> {
    let bytes = assembled(rt.alloc(), ALONG)?;
    for length in 0..bytes.len() {
        let fault = ImageView::read(rt.alloc(), &bytes[..length]).err();
        assert!(rt; fault == Some(ImageFault::Short));
    }
    Ok(())
}
