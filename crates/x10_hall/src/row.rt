//! The rows of a hall: what each place has to take.

ghost use Rattle.std.specs.Prelude.{◌≡◌, ◌↔◌, ℕ, ◌+◌, ◌-◌, ◌<◌, ◌≤◌, ◌^◌, ◌++◌, ◌∷◌, [], IfOk, IfErr, IfSome, IfNone, OnOk, IsTrue, IsSome, MatchOption, All, List, length, map};
ghost use Rattle.x10_kinds.specs.declared.stop.Stop.TheVariants as stop;
ghost use Rattle.x10_hall.specs.Halls.{PostedFrame, frame_of, told, if_to, row_from};
ghost use Rattle.x10_hall.specs.Rows.{empty_row, row_at};

use crate::turn::{Posted, Taken};
use std::alloc::{AllocError, Global};
use std::collections::VecDeque;
use std::marker::Model;
use std::sync::Arc;
use x10_kinds::Stop;

/// The frames for one place that it hasn't taken yet.
#[derive(Drop)]
pub(crate) struct Row {
    left: VecDeque<Taken>,
    /// How many frames were taken out.
    taken: u64,
    /// For how many more frames room was made.
    room: usize,
}

impl Model for Row {
    ghost use Rattle.std.specs.Prelude.{map, ◌+◌, ◌≤◌};
    ghost use Rattle.std.specs.VecDeque.{deque_len, deque_capacity};
    ghost use Rattle.x10_hall.specs.Halls.{told};
    ghost use Rattle.x10_hall.specs.Rows.{RowState};

    ghost Value = { RowState };

    ghost view = { λ r. record { left = map told r.left.items; taken = r.taken; room = r.room } };

    ghost invariant = { λ r. deque_len r.left + r.room ≤ deque_capacity r.left };
}

impl Row {
    fn new(alloc: Global) -> Row
        ensures { result ≡ empty_row }
    {
        Row {
            left: VecDeque::new(alloc),
            taken: 0,
            room: 0,
        }
    }

    /// Makes room for one more frame.
    fn make_room(&mut self) -> Result<(), Stop>
        ensures left { self.new.left ≡ self.old.left }
        ensures taken { self.new.taken ≡ self.old.taken }
        ensures ok { OnOk result (self.new.room ≡ self.old.room + 1) }
        ensures err { IfErr result (λ why. (why ≡ stop.Memory) × (self.new.room ≡ self.old.room)) }
    {
        match self.left.reserve(self.room + 1) {
            Ok(()) => {
                self.room += 1;
                Ok(())
            }
            Err(_) => Err(Stop::Memory),
        }
    }

    /// The room isn't needed.
    fn give_up_room(&mut self)
        ensures left { self.new.left ≡ self.old.left }
        ensures taken { self.new.taken ≡ self.old.taken }
    {
        self.room = 0;
    }

    fn push(&mut self, frame: Taken)
        requires { 0 < self.old.room }
        ensures left { self.new.left ≡ self.old.left ++ told frame ∷ [] }
        ensures taken { self.new.taken ≡ self.old.taken }
        ensures room { self.new.room + 1 ≡ self.old.room }
    {
        self.left.push_back_reserved(frame);
        self.room -= 1;
    }

    /// The first frame that is left.
    pub(crate) fn take(&mut self) -> Option<Taken>
        requires { 0 < length self.old.left → self.old.taken + 1 < 2 ^ 64 }
        ensures none { IfNone result ((self.old.left ≡ []) × (self.new ≡ self.old)) }
        ensures some { IfSome result (λ frame. (self.old.left ≡ told frame ∷ self.new.left)
            × (self.new.taken ≡ self.old.taken + 1)) }
    {
        let Some(frame) = self.left.pop_front() else {
            return None;
        };
        self.taken += 1;
        Some(frame)
    }

    pub(crate) fn has_frame(&self) -> bool
        ensures { IsTrue result ↔ (0 < length self.now.left) }
    {
        !self.left.is_empty()
    }
}

/// A row for each place.
pub(crate) fn open_rows(alloc: Global, places: u16) -> Result<Vec<Row>, AllocError>
    ensures count { IfOk result (λ rows. length rows.items ≡ places) }
    ensures empty { IfOk result (λ rows. All (λ row. row ≡ empty_row) rows.items) }
{
    let mut rows = Vec::with_capacity(alloc, usize::from(places))?;
    for _ in 0..places {
        rows.push(Row::new(alloc))?;
    }
    Ok(rows)
}

/// The same frames again, which share their bytes with the first ones.
pub(crate) fn share(alloc: Global, frames: &[Posted]) -> Result<Vec<Posted>, Stop>
    ensures ok { IfOk result (λ copies. map frame_of copies.items ≡ map frame_of frames.now) }
    ensures err { IfErr result (λ why. why ≡ stop.Memory) }
{
    let Ok(mut copies) = Vec::with_capacity(alloc, frames.len()) else {
        return Err(Stop::Memory);
    };
    for frame in frames {
        let Ok(bytes) = Arc::try_clone(&frame.bytes) else {
            return Err(Stop::Memory);
        };
        let copy = Posted {
            to: frame.to,
            bytes,
        };
        if copies.push(copy).is_err() {
            return Err(Stop::Memory);
        }
    }
    Ok(copies)
}

/// Makes room for one more frame in the row of a place, if it has one.
fn widen(rows: &mut Vec<Row>, place: u16) -> Result<(), Stop>
    ensures count { length rows.new.items ≡ length rows.old.items }
    ensures left { (p : ℕ) → (row_at rows.new.items p).left ≡ (row_at rows.old.items p).left }
    ensures taken { (p : ℕ) → (row_at rows.new.items p).taken ≡ (row_at rows.old.items p).taken }
    ensures ok { OnOk result ((p number : ℕ) (bytes : List ℕ) → p < length rows.old.items
        → (row_at rows.old.items p).room + length
        (if_to p number (record { to = place; bytes = bytes })) ≤ (row_at rows.new.items p).room) }
    ensures err { IfErr result (λ why. why ≡ stop.Memory) }
{
    if usize::from(place) >= rows.len() {
        return Ok(());
    }
    let row = &mut rows[usize::from(place)];
    row.make_room()
}

/// Makes room for each of these frames.
fn widen_all(rows: &mut Vec<Row>, frames: &[Posted]) -> Result<(), Stop>
    ensures count { length rows.new.items ≡ length rows.old.items }
    ensures left { (p : ℕ) → (row_at rows.new.items p).left ≡ (row_at rows.old.items p).left }
    ensures taken { (p : ℕ) → (row_at rows.new.items p).taken ≡ (row_at rows.old.items p).taken }
    ensures ok { OnOk result ((p number : ℕ) → p < length rows.old.items
        → length (row_from p number (map frame_of frames.now)) ≤ (row_at rows.new.items p).room) }
    ensures err { IfErr result (λ why. why ≡ stop.Memory) }
{
    for frame in frames {
        widen(rows, frame.to)?;
    }
    Ok(())
}

/// The room that was made in the row of a place isn't needed.
fn give_up_one(rows: &mut Vec<Row>, place: u16)
    ensures count { length rows.new.items ≡ length rows.old.items }
    ensures left { (p : ℕ) → (row_at rows.new.items p).left ≡ (row_at rows.old.items p).left }
    ensures taken { (p : ℕ) → (row_at rows.new.items p).taken ≡ (row_at rows.old.items p).taken }
{
    if usize::from(place) < rows.len() {
        let row = &mut rows[usize::from(place)];
        row.give_up_room();
    }
}

/// The room that was made for these frames isn't needed.
fn give_up(rows: &mut Vec<Row>, frames: &[Posted])
    ensures count { length rows.new.items ≡ length rows.old.items }
    ensures left { (p : ℕ) → (row_at rows.new.items p).left ≡ (row_at rows.old.items p).left }
    ensures taken { (p : ℕ) → (row_at rows.new.items p).taken ≡ (row_at rows.old.items p).taken }
{
    for frame in frames {
        give_up_one(rows, frame.to);
    }
}

/// Makes room for each of these frames, or changes nothing.
pub(crate) fn make_room(rows: &mut Vec<Row>, frames: &[Posted]) -> Result<(), Stop>
    ensures count { length rows.new.items ≡ length rows.old.items }
    ensures left { (p : ℕ) → (row_at rows.new.items p).left ≡ (row_at rows.old.items p).left }
    ensures taken { (p : ℕ) → (row_at rows.new.items p).taken ≡ (row_at rows.old.items p).taken }
    ensures ok { OnOk result ((p number : ℕ) → p < length rows.old.items
        → length (row_from p number (map frame_of frames.now)) ≤ (row_at rows.new.items p).room) }
    ensures err { IfErr result (λ why. why ≡ stop.Memory) }
{
    match widen_all(rows, frames) {
        Ok(()) => Ok(()),
        Err(stop) => {
            give_up(rows, frames);
            Err(stop)
        }
    }
}

/// Puts one frame into the row of its place, if it has one.
fn deliver_one(rows: &mut Vec<Row>, number: u64, frame: Posted)
    requires { frame.to < length rows.old.items → 0 < (row_at rows.old.items frame.to).room }
    ensures count { length rows.new.items ≡ length rows.old.items }
    ensures left { (p : ℕ) → p < length rows.old.items
        → (row_at rows.new.items p).left ≡ (row_at rows.old.items p).left
        ++ if_to p number (frame_of frame) }
    ensures taken { (p : ℕ) → (row_at rows.new.items p).taken ≡ (row_at rows.old.items p).taken }
    ensures room { (p : ℕ) → p < length rows.old.items
        → (row_at rows.old.items p).room ≡ (row_at rows.new.items p).room + length
        (if_to p number (frame_of frame)) }
{
    let Posted { to, bytes } = frame;
    if usize::from(to) < rows.len() {
        let row = &mut rows[usize::from(to)];
        row.push(Taken { number, bytes });
    }
}

/// Puts frames into the rows of their places, under numbers that count up from the first one.
pub(crate) fn deliver(rows: &mut Vec<Row>, first: u64, frames: Vec<Posted>)
    requires room { (p : ℕ) → p < length rows.old.items
        → length (row_from p first (map frame_of frames.items)) ≤ (row_at rows.old.items p).room }
    requires few { first + length frames.items < 2 ^ 64 }
    ensures count { length rows.new.items ≡ length rows.old.items }
    ensures left { (p : ℕ) → p < length rows.old.items
        → (row_at rows.new.items p).left ≡ (row_at rows.old.items p).left
        ++ row_from p first (map frame_of frames.items) }
    ensures taken { (p : ℕ) → (row_at rows.new.items p).taken ≡ (row_at rows.old.items p).taken }
{
    let mut number = first;
    for frame in frames {
        deliver_one(rows, number, frame);
        number += 1;
    }
}
