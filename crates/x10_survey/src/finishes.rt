//! What a finish still waits for, as all places count it.
use std::alloc::AllocError;
use std::fmt::Write;
use x10_model::Finish;
use x10_world::World;

/// How many activities under a finish live at a place.
fn live_at(world: &World, finish: Finish, place: u16) -> u64 {
    match world.place(place) {
        Some(place) => u64::from(place.counts(finish).0),
        None => 0,
    }
}

/// How many activities under a finish one place says that it sent to another.
fn sent_to(world: &World, finish: Finish, from: u16, to: u16) -> u64 {
    let Some(place) = world.place(from) else {
        return 0;
    };
    let (_, sent, _) = place.counts(finish);
    match sent.get(usize::from(to)) {
        Some(count) => u64::from(*count),
        None => 0,
    }
}

/// How many activities under a finish one place says that it received from another.
fn received_from(world: &World, finish: Finish, to: u16, from: u16) -> u64 {
    let Some(place) = world.place(to) else {
        return 0;
    };
    let (_, _, received) = place.counts(finish);
    match received.get(usize::from(from)) {
        Some(count) => u64::from(*count),
        None => 0,
    }
}

/// How many activities under a finish are on their way to a place: sent there, and not yet received.
fn flying_to(world: &World, finish: Finish, to: u16) -> u64 {
    let mut count = 0u64;
    for from in 0..world.count() {
        let sent = sent_to(world, finish, from, to);
        count = count.saturating_add(sent.saturating_sub(received_from(world, finish, to, from)));
    }
    count
}

/// What of a finish lives at a place or is on its way there, if anything.
fn push_place(
    text: &mut String,
    world: &World,
    finish: Finish,
    place: u16,
) -> Result<(), AllocError> {
    let live = live_at(world, finish, place);
    if live > 0 {
        write!(text, "; at place {place} live {live}")?;
    }
    let flying = flying_to(world, finish, place);
    if flying > 0 {
        write!(text, "; to place {place} fly {flying}")?;
    }
    Ok(())
}

/// A finish, and what of it lives or is in flight, by place. Quadratic in the places.
pub(crate) fn push_finish(
    text: &mut String,
    world: &World,
    finish: Finish,
) -> Result<(), AllocError> {
    let Finish { home, number } = finish;
    write!(text, "finish {number} of place {home}")?;
    for place in 0..world.count() {
        push_place(text, world, finish, place)?;
    }
    Ok(())
}
