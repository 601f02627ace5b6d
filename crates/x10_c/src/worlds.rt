//! The calls of the header about a world behind a handle, each with the clauses of what it calls.
ghost use Rattle.std.specs.Prelude.{◌≡◌, ◌≢◌, ◌⊎◌, Bool, Result, None, Some, true, false};
ghost use Rattle.x10_kinds.specs.declared.stop.Stop.{Stop};
ghost use Rattle.x10_model.specs.declared.event.Event.TheVariants as event;
ghost use Rattle.x10_handles.specs.declared.unopened.Unopened.{Unopened};
ghost use Rattle.x10_handles.specs.Handles.{inside_of};
ghost use Rattle.x10_handles.specs.Worlds.{IsEnded, IsFrameFrom, IsFromAt, IsMade, LacksWorld, OpensWorld, ShowsWorld, WorksAsWorld};
ghost use Rattle.x10_c.specs.Calls.{IsMutAddress};
ghost use Rattle.x10_c.specs.Handles.{IsFlightTo, IsLineOfWorld, opening_status, step_status, step_told};

use crate::answer::NULL;
use crate::handles::{CLOSED, NOTHING, of_opening, tell_step};
use crate::null::is_null;
use crate::numbers::FaultNumbers;
use crate::showing::show;
use crate::world_views::{flight_in, line_of_world_in};
use std::alloc::Global;
use x10_handles::{
    Handle, close, happen, has_ended, next_frame, next_key_at, open_world, put, take,
};
use x10_model::Event;

/// Opens a world of a module at its beginning, at so many places. 1: the module doesn't run at so many; 2: memory was refused; 7:
/// the first handle isn't that of a module; 8: the second one is open.
#[unsafe(no_mangle)]
pub extern "C" fn burjeeg_world_new(
    alloc: Global,
    of: &mut Handle,
    places: u16,
    world: &mut Handle,
) -> u32
    requires of { IsMutAddress of }
    requires world { IsMutAddress world }
    ensures { (r : Result Unit Unopened) × (result ≡ opening_status r)
        × OpensWorld (inside_of of.old) (inside_of of.new) (inside_of world.old)
        (inside_of world.new) places r }
{
    if is_null(&*of) || is_null(&*world) {
        return NULL;
    }
    of_opening(open_world(alloc, of, places, world))
}

/// Closes a world, which gives back all of its memory.
#[unsafe(no_mangle)]
pub extern "C" fn burjeeg_world_free(alloc: Global, world: &mut Handle)
    requires { IsMutAddress world }
    ensures { inside_of world.new ≡ None }
{
    if is_null(&*world) {
        return;
    }
    close(alloc, world);
}

/// A step of the activity with a key at a place. 0: it moved; 9: nothing that can move has the key there, and nothing has changed;
/// 2: the world has stopped; 7: there is no world behind the handle.
#[unsafe(no_mangle)]
pub extern "C" fn burjeeg_world_step(
    alloc: Global,
    world: &mut Handle,
    place: u16,
    key: usize,
    told: &mut FaultNumbers,
) -> u32
    requires world { IsMutAddress world }
    requires told { IsMutAddress told }
    ensures lacks { result ≡ 7 → LacksWorld world.old world.new }
    ensures made { result ≢ 7 → (r : Result Bool Stop) × (result ≡ step_status r)
        × (told.new ≡ step_told r)
        × WorksAsWorld world.old world.new (λ x y. IsMade x (event.Step place key) r y) }
{
    if is_null(&*world) || is_null(&*told) {
        return NULL;
    }
    match happen(alloc, world, Event::Step(place, key)) {
        Some(moved) => tell_step(moved, told),
        None => CLOSED,
    }
}

/// The delivery of the frame with a number. 0: it was taken in; 9: there is none in flight with that number, and nothing has
/// changed; 2: the world has stopped; 7: there is no world behind the handle.
#[unsafe(no_mangle)]
pub extern "C" fn burjeeg_world_deliver(
    alloc: Global,
    world: &mut Handle,
    number: u64,
    told: &mut FaultNumbers,
) -> u32
    requires world { IsMutAddress world }
    requires told { IsMutAddress told }
    ensures lacks { result ≡ 7 → LacksWorld world.old world.new }
    ensures made { result ≢ 7 → (r : Result Bool Stop) × (result ≡ step_status r)
        × (told.new ≡ step_told r)
        × WorksAsWorld world.old world.new (λ x y. IsMade x (event.Deliver number) r y) }
{
    if is_null(&*world) || is_null(&*told) {
        return NULL;
    }
    match happen(alloc, world, Event::Deliver(number)) {
        Some(moved) => tell_step(moved, told),
        None => CLOSED,
    }
}

/// Tells the least key in use at a place from a number on. 0: it is written; 9: there is none; 7: there is no world behind the
/// handle.
#[unsafe(no_mangle)]
pub extern "C" fn burjeeg_world_next_key(
    alloc: Global,
    world: &mut Handle,
    place: u16,
    from: usize,
    key: &mut usize,
) -> u32
    requires world { IsMutAddress world }
    requires key { IsMutAddress key }
    ensures lacks { result ≡ 7 → LacksWorld world.old world.new }
    ensures found { result ≡ 0 → ShowsWorld world.old world.new
        (λ x. IsFromAt x place from (Some key.new)) }
    ensures none { result ≡ 9 → ShowsWorld world.old world.new (λ x. IsFromAt x place from None) }
    ensures is { (result ≡ 0) ⊎ (result ≡ 7) ⊎ (result ≡ 9) }
{
    if is_null(&*world) || is_null(&*key) {
        return NULL;
    }
    match next_key_at(alloc, world, place, from) {
        Some(Some(found)) => {
            *key = found;
            0
        }
        Some(None) => NOTHING,
        None => CLOSED,
    }
}

/// Tells the least number of a frame in flight to a place, from a number on. 0: it is written; 9: there is none; 7: there is no
/// world behind the handle.
#[unsafe(no_mangle)]
pub extern "C" fn burjeeg_world_next_frame(
    alloc: Global,
    world: &mut Handle,
    place: u16,
    from: u64,
    number: &mut u64,
) -> u32
    requires world { IsMutAddress world }
    requires number { IsMutAddress number }
    ensures lacks { result ≡ 7 → LacksWorld world.old world.new }
    ensures found { result ≡ 0 → ShowsWorld world.old world.new
        (λ x. IsFrameFrom x place from (Some number.new)) }
    ensures none { result ≡ 9 → ShowsWorld world.old world.new
        (λ x. IsFrameFrom x place from None) }
    ensures is { (result ≡ 0) ⊎ (result ≡ 7) ⊎ (result ≡ 9) }
{
    if is_null(&*world) || is_null(&*number) {
        return NULL;
    }
    match next_frame(alloc, world, place, from) {
        Some(Some(found)) => {
            *number = found;
            0
        }
        Some(None) => NOTHING,
        None => CLOSED,
    }
}

/// Writes the frame in flight with a number. 0: it is in the buffer; 6: there is no room; 9: there is no such frame; 7: there is
/// no world behind the handle.
#[unsafe(no_mangle)]
pub extern "C" fn burjeeg_world_frame(
    alloc: Global,
    world: &mut Handle,
    number: u64,
    to: &mut u16,
    buffer: &mut [u8],
    needed: &mut usize,
) -> u32
    requires world { IsMutAddress world }
    requires to { IsMutAddress to }
    requires needed { IsMutAddress needed }
    ensures lacks { result ≡ 7 → LacksWorld world.old world.new }
    ensures frame { result ≢ 7 → ShowsWorld world.old world.new (λ x.
        IsFlightTo x.flights number result to.new needed.new buffer.old buffer.new) }
{
    if is_null(&*world) || is_null(&*to) || is_null(&*needed) {
        return NULL;
    }
    show!(alloc, world, inside => flight_in(&inside, number, to, buffer, needed))
}

/// Writes a line that a place printed, by its number from 0. 0: it is in the buffer; 2: memory was refused; 6: there is no room;
/// 9: there is no such line, or no such place; 7: there is no world behind the handle.
#[unsafe(no_mangle)]
pub extern "C" fn burjeeg_world_line(
    alloc: Global,
    world: &mut Handle,
    place: u16,
    number: usize,
    buffer: &mut [u8],
    needed: &mut usize,
) -> u32
    requires world { IsMutAddress world }
    requires needed { IsMutAddress needed }
    ensures lacks { result ≡ 7 → LacksWorld world.old world.new }
    ensures line { result ≢ 7 → ShowsWorld world.old world.new (λ x.
        IsLineOfWorld x.places place number result needed.new buffer.old buffer.new) }
{
    if is_null(&*world) || is_null(&*needed) {
        return NULL;
    }
    show!(alloc, world, inside => line_of_world_in(alloc, &inside, place, number, buffer, needed))
}

/// Whether the run has ended, as place 0 knows it: then no activity lives. 0: it has; 9: not yet; 7: there is no world behind the
/// handle.
#[unsafe(no_mangle)]
pub extern "C" fn burjeeg_world_closed(alloc: Global, world: &mut Handle) -> u32
    requires { IsMutAddress world }
    ensures lacks { result ≡ 7 → LacksWorld world.old world.new }
    ensures ended { result ≡ 0 → ShowsWorld world.old world.new (λ x. IsEnded x true) }
    ensures open { result ≡ 9 → ShowsWorld world.old world.new (λ x. IsEnded x false) }
    ensures is { (result ≡ 0) ⊎ (result ≡ 7) ⊎ (result ≡ 9) }
{
    if is_null(&*world) {
        return NULL;
    }
    match has_ended(alloc, world) {
        None => CLOSED,
        Some(true) => 0,
        Some(false) => NOTHING,
    }
}
