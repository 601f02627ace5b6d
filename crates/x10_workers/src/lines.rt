//! Comparing and copying lines of output.
ghost use Rattle.std.specs.Prelude.{◌≡◌, ◌↔◌, ◌++◌, IsTrue, IfOk, [], map, drop, replicate};
ghost use Rattle.x10_world.specs.Endings.{lines_in};
ghost use Rattle.x10_workers.specs.Reports.{AddsTurn, AreLinesBy};
ghost use Rattle.x10_place.specs.StandsFor.{line_as};

use std::alloc::{AllocError, Global};
use x10_hall::{Repeats, Turn};
use x10_place::Line;
use x10_world::push_lines;

/// Whether two lines print the same.
fn same_line(one: &Line, other: &Line) -> bool
    ensures { IsTrue result ↔ (line_as one.now ≡ line_as other.now) }
{
    match (one, other) {
        (Line::Int(one), Line::Int(other)) => one == other,
        (Line::Text(one), Line::Text(other)) => one == other,
        _ => false,
    }
}

/// Whether two lists of lines print the same.
pub(crate) fn same_lines(one: &[Line], other: &[Line]) -> bool
    ensures { IsTrue result ↔ (map line_as one.now ≡ map line_as other.now) }
{
    if one.len() != other.len() {
        return false;
    }
    for at in 0..one.len() {
        if !same_line(&one[at], &other[at]) {
            return false;
        }
    }
    true
}

/// Whether `lines` print the same as the lines of `all` after the first `before`. Linear in the lines compared.
pub(crate) fn are_behind(all: &[Line], before: usize, lines: &[Line]) -> bool
    ensures { IsTrue result ↔ (map line_as (drop before all.now) ≡ map line_as lines.now) }
{
    if before > all.len() {
        return lines.is_empty();
    }
    same_lines(&all[before..], lines)
}

/// Pushes copies of the lines after the first `before`.
pub(crate) fn push_copies(
    alloc: Global,
    lines: &[Line],
    before: usize,
    to: &mut Vec<Line>,
) -> Result<(), AllocError>
    ensures { IfOk result (λ _. map line_as to.new.items
        ≡ map line_as to.old.items ++ map line_as (drop before lines.now)) }
{
    if before > lines.len() {
        return Ok(());
    }
    push_lines(alloc, &lines[before..], to)
}

/// `count` lists with nothing in them.
fn empty_lists(alloc: Global, count: u16) -> Result<Vec<Vec<Line>>, AllocError>
    ensures { IfOk result (λ lists. lines_in lists.items ≡ replicate count []) }
{
    let mut lists = Vec::with_capacity(alloc, usize::from(count))?;
    for _ in 0..count {
        lists.push(Vec::new(alloc))?;
    }
    Ok(lists)
}

/// Pushes copies of a turn's lines to the list of its place, if there is such a place.
fn push_turn(alloc: Global, turn: &Turn, lists: &mut Vec<Vec<Line>>) -> Result<(), AllocError>
    ensures { IfOk result (λ _. AddsTurn turn.now (lines_in lists.old.items)
        (lines_in lists.new.items)) }
{
    let place = usize::from(turn.place);
    if place < lists.len() {
        return push_lines(alloc, &turn.lines, &mut lists[place]);
    }
    Ok(())
}

/// The lines of each place, from the turns of a log.
pub(crate) fn lines_by_place(
    alloc: Global,
    places: u16,
    log: &Repeats<Turn>,
) -> Result<Vec<Vec<Line>>, AllocError>
    ensures { IfOk result (λ lists. AreLinesBy places log.now.items (lines_in lists.items)) }
{
    let mut lists = empty_lists(alloc, places)?;
    for at in 0..log.len() {
        push_turn(alloc, log.at(at), &mut lists)?;
    }
    Ok(lists)
}
