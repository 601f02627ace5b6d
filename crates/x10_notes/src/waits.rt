//! Why a step found nothing to do.
use crate::changes::push_each;
use crate::known::Known;
use crate::shot::innermost;
use std::alloc::{AllocError, Global};
use std::fmt::Write;
use x10_model::Finish;
use x10_place::{Place, Stay};
use x10_world::World;

/// Adds the counts that aren't 0, each with words before it and the number of its place.
fn add_counts(
    alloc: Global,
    parts: &mut Vec<String>,
    words: &str,
    counts: &[u32],
) -> Result<(), AllocError> {
    for place in 0..counts.len() {
        let count = counts[place];
        if count > 0 {
            parts.push(format!(in alloc; "{words} place {place}: {count}")?)?;
        }
    }
    Ok(())
}

/// What a place has counted of a finish, without what is 0.
fn counted(alloc: Global, place: &Place, finish: Finish) -> Result<Vec<String>, AllocError> {
    let (live, sent, received) = place.counts(finish);
    let mut parts = Vec::new(alloc);
    if live > 0 {
        parts.push(format!(in alloc; "{live} live here")?)?;
    }
    add_counts(alloc, &mut parts, "sent to", sent)?;
    add_counts(alloc, &mut parts, "came from", received)?;
    Ok(parts)
}

/// Pushes at the end of which finish a stay stands, and what its place has counted of that.
fn push_finish(
    alloc: Global,
    out: &mut String,
    place: &Place,
    stay: &Stay,
) -> Result<(), AllocError> {
    let Some(number) = innermost(stay) else {
        return out.push_str("at FINE");
    };
    let home = place.id();
    write!(out, "at FINE of finish {number} of place {home}")?;
    let parts = counted(alloc, place, Finish { home, number })?;
    push_each(out, &parts, ": ", ", ")
}

/// Pushes why a stay with a key waits.
fn push_why(
    alloc: Global,
    out: &mut String,
    place: &Place,
    key: usize,
    stay: &Stay,
) -> Result<(), AllocError> {
    if stay.is_away() {
        return out.push_str("it is away");
    }
    match place.inside() {
        Some(other) if other != key => {
            out.push_str("another activity of the place is inside an atomic region")
        }
        _ => push_finish(alloc, out, place, stay),
    }
}

impl<'a> Known<'a> {
    /// Pushes why a step finds nothing to do.
    pub(crate) fn push_waits(
        &self,
        out: &mut String,
        world: &World,
        place: u16,
        key: usize,
    ) -> Result<(), AllocError> {
        let Some(here) = world.place(place) else {
            return out.push_str("there is no such activity");
        };
        let Some(stay) = here.stay(key) else {
            return out.push_str("there is no such activity");
        };
        self.push_activity(out, place, key, stay)?;
        out.push_str(" waits: ")?;
        push_why(self.alloc, out, here, key, stay)
    }
}
