//! The lines that tell what was in a run.
ghost use Rattle.std.specs.Prelude.{◌≡◌, ◌++◌, IfOk, OnOk, Some, slice_get};
ghost use Rattle.std.specs.String.{string_bytes};
ghost use Rattle.x10_stats.specs.Lines.{activity_line, all_activity_lines, all_function_lines, all_heap_lines, any_activity_lines, any_begun_lines, any_heap_lines, begin_lines, begun_lines, bound_in, end_lines, event_lines, function_line, function_pad, heap_lines, line, pad, place_line, stats_lines};

use crate::activity::Activity;
use crate::counts::Counts;
use crate::stats::{Stats, Volume};
use crate::tally::{Begun, Tally};
use std::alloc::{AllocError, Global};
use std::fmt::Write;
use x10_heap::Heap;
use x10_verify::Verified;
use x10_world::World;

/// What was counted in a run of a module, a number on each line behind its name; a line for each function with which activities
/// began; where they were kept, one for each activity; and what the heap of each place has in a world. Linear in the functions,
/// the activities and the places.
pub fn stats_text(
    alloc: Global,
    verified: &Verified,
    counts: &Counts,
    world: &World,
) -> Result<String, AllocError>
    ensures { IfOk result (λ text. string_bytes text
        ≡ stats_lines verified.now counts.now world.now.places) }
{
    let mut text = String::new(alloc);
    let (stats, tally) = (counts.stats(), counts.tally());
    push_events(&mut text, stats, counts.rounds())?;
    push_begins(&mut text, stats.spawns, stats.shifts)?;
    push_ends(&mut text, stats.backs, stats.reports)?;
    push_functions(&mut text, verified, tally.functions())?;
    push_activities(&mut text, verified, tally)?;
    push_heaps(&mut text, world)?;
    Ok(text)
}

/// How many events there were of each sort, and rounds, and stays at one time.
fn push_events(text: &mut String, stats: &Stats, rounds: u64) -> Result<(), AllocError>
    ensures { OnOk result (string_bytes text.new
        ≡ string_bytes text.old ++ event_lines stats.now rounds) }
{
    push_line(text, "steps:                    ", stats.steps)?;
    push_line(text, "idle events:              ", stats.idle)?;
    push_line(text, "deliveries:               ", stats.deliveries)?;
    push_line(text, "rounds:                   ", rounds)?;
    push_line(text, "most stays at one time:   ", stats.stays)
}

/// How many frames began something where they went, and their bytes.
fn push_begins(text: &mut String, spawns: Volume, shifts: Volume) -> Result<(), AllocError>
    ensures { OnOk result (string_bytes text.new
        ≡ string_bytes text.old ++ begin_lines spawns shifts) }
{
    push_line(text, "Spawn frames:             ", spawns.frames)?;
    push_line(text, "Spawn bytes:              ", spawns.bytes)?;
    push_line(text, "Shift frames:             ", shifts.frames)?;
    push_line(text, "Shift bytes:              ", shifts.bytes)
}

/// How many frames told of an end, and their bytes.
fn push_ends(text: &mut String, backs: Volume, reports: Volume) -> Result<(), AllocError>
    ensures { OnOk result (string_bytes text.new
        ≡ string_bytes text.old ++ end_lines backs reports) }
{
    push_line(text, "Back frames:              ", backs.frames)?;
    push_line(text, "Back bytes:               ", backs.bytes)?;
    push_line(text, "Report frames:            ", reports.frames)?;
    push_line(text, "Report bytes:             ", reports.bytes)
}

/// A name and a number.
fn push_line(text: &mut String, name: &str, number: u64) -> Result<(), AllocError>
    ensures { OnOk result (string_bytes text.new ≡ string_bytes text.old ++ line name.now number) }
{
    writeln!(text, "{name}{number}")
}

/// How many activities began with each function, and how many steps they made.
fn push_functions(
    text: &mut String,
    verified: &Verified,
    functions: &[Begun],
) -> Result<(), AllocError>
    ensures { OnOk result (string_bytes text.new
        ≡ string_bytes text.old ++ all_function_lines functions.now verified.now) }
{
    for f in 0..verified.image().functions() {
        push_function_at(text, f, functions, verified.bound(f))?;
    }
    Ok(())
}

/// The line of a function with a bound, if it has one.
fn push_function_at(
    text: &mut String,
    f: usize,
    functions: &[Begun],
    bound: u64,
) -> Result<(), AllocError>
    ensures { OnOk result (string_bytes text.new
        ≡ string_bytes text.old ++ any_begun_lines f (slice_get functions.now f) (Some bound)) }
{
    match functions.get(f) {
        Some(begun) => push_begun(text, f, *begun, bound),
        None => Ok(()),
    }
}

/// The line of a function with which activities began, if some did.
fn push_begun(text: &mut String, f: usize, begun: Begun, bound: u64) -> Result<(), AllocError>
    ensures { OnOk result (string_bytes text.new
        ≡ string_bytes text.old ++ begun_lines f begun bound) }
{
    if begun.activities == 0 {
        return Ok(());
    }
    push_function(text, f, begun, bound)
}

/// The line of a function.
fn push_function(text: &mut String, f: usize, begun: Begun, bound: u64) -> Result<(), AllocError>
    ensures { OnOk result (string_bytes text.new
        ≡ string_bytes text.old ++ function_line f begun bound) }
{
    let pad = function_pad_of(f);
    let Begun { activities, most } = begun;
    writeln!(
        text,
        "function {f}, activities:{pad}{activities}, most steps: {most}, bound: {bound}"
    )
}

/// The spaces before the first number of a function's line.
fn function_pad_of(f: usize) -> &'static str
    ensures { result.now ≡ function_pad f }
{
    if f < 10 {
        "   "
    } else if f < 100 {
        "  "
    } else {
        " "
    }
}

/// How many steps each activity made, if they were kept, in the order in which they began.
fn push_activities(text: &mut String, verified: &Verified, tally: &Tally) -> Result<(), AllocError>
    ensures { OnOk result (string_bytes text.new
        ≡ string_bytes text.old ++ all_activity_lines tally.now verified.now) }
{
    for n in 0..tally.count() {
        push_activity_at(text, n, tally.find(n), verified)?;
    }
    Ok(())
}

/// The line of an activity with a number, if it was kept.
fn push_activity_at(
    text: &mut String,
    n: usize,
    activity: Option<Activity>,
    verified: &Verified,
) -> Result<(), AllocError>
    ensures { OnOk result (string_bytes text.new
        ≡ string_bytes text.old ++ any_activity_lines n activity verified.now) }
{
    let Some(activity) = activity else {
        return Ok(());
    };
    match bound_in(verified, activity.function) {
        Some(bound) => push_activity(text, n, activity, bound),
        None => Ok(()),
    }
}

/// The bound of a function, if the module has it.
fn bound_in(verified: &Verified, function: u16) -> Option<u64>
    ensures { result ≡ bound_in verified.now function }
{
    let f = usize::from(function);
    if f < verified.image().functions() {
        Some(verified.bound(f))
    } else {
        None
    }
}

/// The line of an activity.
fn push_activity(
    text: &mut String,
    n: usize,
    activity: Activity,
    bound: u64,
) -> Result<(), AllocError>
    ensures { OnOk result (string_bytes text.new
        ≡ string_bytes text.old ++ activity_line n activity bound) }
{
    let Activity {
        place,
        function,
        steps,
        ..
    } = activity;
    writeln!(
        text,
        "activity {n}, function {function}, place {place}, steps: {steps}, bound: {bound}"
    )
}

/// What the heaps of all places have.
fn push_heaps(text: &mut String, world: &World) -> Result<(), AllocError>
    ensures { OnOk result (string_bytes text.new
        ≡ string_bytes text.old ++ all_heap_lines 0 world.now.places) }
{
    for place in 0..world.count() {
        push_heap_at(text, world, place)?;
    }
    Ok(())
}

/// What the heap of a place has, if there is one with the number.
fn push_heap_at(text: &mut String, world: &World, place: u16) -> Result<(), AllocError>
    ensures { OnOk result (string_bytes text.new
        ≡ string_bytes text.old ++ any_heap_lines place (slice_get world.now.places place)) }
{
    match world.heap(place) {
        Some(heap) => push_heap(text, place, heap),
        None => Ok(()),
    }
}

/// What the heap of a place has.
fn push_heap(text: &mut String, place: u16, heap: &Heap) -> Result<(), AllocError>
    ensures { OnOk result (string_bytes text.new
        ≡ string_bytes text.old ++ heap_lines place heap.now) }
{
    push_place(text, place, ", objects:        ", heap.objects())?;
    push_place(text, place, ", rails:          ", heap.rails())?;
    push_place(text, place, ", texts:          ", heap.texts())?;
    push_place(text, place, ", exports:        ", heap.exports())
}

/// A line of a place.
fn push_place(text: &mut String, place: u16, name: &str, number: usize) -> Result<(), AllocError>
    ensures { OnOk result (string_bytes text.new
        ≡ string_bytes text.old ++ place_line place name.now number) }
{
    let pad = pad_of(place);
    writeln!(text, "place {place}{name}{pad}{number}")
}

/// A space, where the number of a place has one digit.
fn pad_of(place: u16) -> &'static str
    ensures { result.now ≡ pad place }
{
    if place < 10 { " " } else { "" }
}
