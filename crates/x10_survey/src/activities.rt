//! The lines of all activities.
use crate::finishes::push_finish;
use std::alloc::{AllocError, Global};
use std::fmt::Write;
use x10_code::name;
use x10_explain::Source;
use x10_model::Finish;
use x10_place::{Place, Stay};
use x10_verify::Verified;
use x10_world::World;

/// How many activities are named at most.
const MOST: usize = 20;

/// How many activities live, and how many of them can move.
#[derive(Clone, Copy)]
struct Counts {
    alive: usize,
    able: usize,
}

/// What activities are told by, besides their world.
#[derive(Clone, Copy)]
struct Module<'a> {
    /// The function that main begins with.
    entry: u16,
    source: Option<&'a Source<'a>>,
}

/// Who lives in a world: for each activity, at most 20 of them, where it stands and what it waits for; and whether any can move.
/// With the text that the module was assembled from it names the text's line too. Takes time quadratic in the places for each
/// that waits at a finish, linear in the lines of its function, and linear in the keys that were ever in use.
pub fn survey(
    alloc: Global,
    verified: &Verified,
    world: &World,
    source: Option<&Source>,
) -> Result<String, AllocError> {
    let mut text = String::new(alloc);
    let module = Module {
        entry: verified.image().entry(),
        source,
    };
    let mut counts = Counts { alive: 0, able: 0 };
    for id in 0..world.count() {
        if let Some(place) = world.place(id) {
            push_place(alloc, &mut text, module, world, id, place, &mut counts)?;
        }
    }
    if counts.alive > MOST {
        let more = counts.alive - MOST;
        writeln!(text, "  and {more} more")?;
    }
    push_outlook(&mut text, world, counts)?;
    Ok(text)
}

/// The activities of a place.
fn push_place(
    alloc: Global,
    text: &mut String,
    module: Module,
    world: &World,
    id: u16,
    place: &Place,
    counts: &mut Counts,
) -> Result<(), AllocError> {
    let keys = place.keys(alloc)?;
    for key in &keys {
        if counts.alive < MOST {
            push_activity(text, module, world, id, place, *key)?;
        }
        counts.alive = counts.alive.saturating_add(1);
        if !place.is_idle(*key) {
            counts.able = counts.able.saturating_add(1);
        }
    }
    Ok(())
}

/// An activity: where it stands, and what it waits for.
fn push_activity(
    text: &mut String,
    module: Module,
    world: &World,
    id: u16,
    place: &Place,
    key: usize,
) -> Result<(), AllocError> {
    let (Some(stay), Some((function, pc, op))) = (place.stay(key), place.at(key)) else {
        return Ok(());
    };
    text.push_str("  ")?;
    push_name(text, module.entry, id, key, stay)?;
    let op_name = name(op);
    write!(text, ": function {function}, instruction {pc} ({op_name})")?;
    push_line(text, module.source, function, pc)?;
    push_state(text, world, id, place, key, stay)?;
    text.push_str("\n")
}

/// The line of an instruction, where there is a text.
fn push_line(
    text: &mut String,
    source: Option<&Source>,
    function: u16,
    pc: u16,
) -> Result<(), AllocError> {
    let Some(source) = source else {
        return Ok(());
    };
    match source.line_of(usize::from(function), usize::from(pc)) {
        Some((line, _)) => write!(text, ", line {line}"),
        None => Ok(()),
    }
}

/// The name of an activity: `main`, or the function that it began with.
fn push_name(
    text: &mut String,
    entry: u16,
    id: u16,
    key: usize,
    stay: &Stay,
) -> Result<(), AllocError> {
    let first = match stay.caller(0) {
        Some(frame) => frame.function(),
        None => stay.frame().function(),
    };
    if id == 0 && key == 0 && first == entry {
        return text.push_str("main at place 0");
    }
    write!(text, "f{first} at place {id}, key {key}")
}

/// What an activity waits for, if it does.
fn push_state(
    text: &mut String,
    world: &World,
    id: u16,
    place: &Place,
    key: usize,
    stay: &Stay,
) -> Result<(), AllocError> {
    if stay.is_away() {
        return text.push_str(", away until a result comes back");
    }
    if !place.is_idle(key) {
        return Ok(());
    }
    let is_kept_out = place.inside().is_some_and(|other| other != key);
    if is_kept_out {
        text.push_str(", kept out by an atomic region")?;
    }
    let Some(number) = stay.finishes().last() else {
        return Ok(());
    };
    let finish = Finish {
        home: id,
        number: *number,
    };
    let how = if is_kept_out { ", in " } else { ", waits for " };
    text.push_str(how)?;
    push_finish(text, world, finish)
}

/// Whether anything can happen.
fn push_outlook(text: &mut String, world: &World, counts: Counts) -> Result<(), AllocError> {
    let Counts { alive, able } = counts;
    if world.possible_event().is_none() {
        return writeln!(
            text,
            "Activities that can move: none of {alive}, and no frame is in flight."
        );
    }
    writeln!(text, "Activities that can move: {able} of {alive}.")
}
