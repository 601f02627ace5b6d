//! The calls of the header about a place behind a handle, each with the clauses of what it calls.
ghost use Rattle.std.specs.Prelude.{◌≡◌, ◌≢◌, ◌⊎◌, Result, Bool, None, Some};
ghost use Rattle.x10_kinds.specs.declared.stop.Stop.{Stop};
ghost use Rattle.x10_copy.specs.declared.refusal.Refusal.{Refusal};
ghost use Rattle.x10_handles.specs.declared.unopened.Unopened.{Unopened};
ghost use Rattle.x10_c.specs.Calls.{IsMutAddress};
ghost use Rattle.x10_c.specs.Handles.{IsLineTo, IsSentTo, opening_status, receive_status, receive_told, step_status, step_told};
ghost use Rattle.x10_handles.specs.Handles.{LacksPlace, Shows, Works, inside_of};
ghost use Rattle.x10_handles.specs.Opened.{OpensPlace};
ghost use Rattle.x10_handles.specs.Stations.{IsClosed, IsFrom, IsReceived, IsStepped};

use crate::answer::NULL;
use crate::handles::{CLOSED, NOTHING, of_opening, tell_receive, tell_step};
use crate::null::is_null;
use crate::numbers::FaultNumbers;
use crate::showing::{line_in, sent_in, show};
use std::alloc::Global;
use x10_handles::{Handle, close, closed, next_key, open_place, put, receive, step, take};

/// Opens a place of a module at the beginning, one of so many places. 1: the module doesn't run at so many, or there is no such
/// place among them; 2: memory was refused; 7: the first handle isn't that of a module; 8: the second one is open.
#[unsafe(no_mangle)]
pub extern "C" fn burjeeg_place_new(
    alloc: Global,
    of: &mut Handle,
    id: u16,
    places: u16,
    place: &mut Handle,
) -> u32
    requires of { IsMutAddress of }
    requires place { IsMutAddress place }
    ensures { (r : Result Unit Unopened) × (result ≡ opening_status r)
        × OpensPlace (inside_of of.old) (inside_of of.new) (inside_of place.old)
        (inside_of place.new) id places r }
{
    if is_null(&*of) || is_null(&*place) {
        return NULL;
    }
    of_opening(open_place(alloc, of, id, places, place))
}

/// Closes a place, which gives back all of its memory.
#[unsafe(no_mangle)]
pub extern "C" fn burjeeg_place_free(alloc: Global, place: &mut Handle)
    requires { IsMutAddress place }
    ensures { inside_of place.new ≡ None }
{
    if is_null(&*place) {
        return;
    }
    close(alloc, place);
}

/// One step of the activity with a key. 0: it moved; 9: it found nothing to do; 2: the place has stopped; 7: there is no place
/// behind the handle.
#[unsafe(no_mangle)]
pub extern "C" fn burjeeg_place_step(
    alloc: Global,
    place: &mut Handle,
    key: usize,
    told: &mut FaultNumbers,
) -> u32
    requires place { IsMutAddress place }
    requires told { IsMutAddress told }
    ensures lacks { result ≡ 7 → LacksPlace place.old place.new }
    ensures steps { result ≢ 7 → (r : Result Bool Stop) × (result ≡ step_status r)
        × (told.new ≡ step_told r)
        × Works place.old place.new (λ s t. IsStepped s key r t) }
{
    if is_null(&*place) || is_null(&*told) {
        return NULL;
    }
    match step(alloc, place, key) {
        Some(stepped) => tell_step(stepped, told),
        None => CLOSED,
    }
}

/// Takes in bytes that come from a place. 0: they are a frame that it has taken in; 1: they are refused, and nothing has
/// changed; 2: the place has stopped; 7: there is no place behind the handle.
#[unsafe(no_mangle)]
pub extern "C" fn burjeeg_place_receive(
    alloc: Global,
    place: &mut Handle,
    bytes: &[u8],
    told: &mut FaultNumbers,
) -> u32
    requires place { IsMutAddress place }
    requires told { IsMutAddress told }
    ensures lacks { result ≡ 7 → LacksPlace place.old place.new }
    ensures receives { result ≢ 7 → (r : Result Unit Refusal) × (result ≡ receive_status r)
        × (told.new ≡ receive_told r)
        × Works place.old place.new (λ s t. IsReceived s bytes.now r t) }
{
    if is_null(&*place) || is_null(&*told) {
        return NULL;
    }
    match receive(alloc, place, bytes) {
        Some(received) => tell_receive(received, told),
        None => CLOSED,
    }
}

/// Writes one of the frames that the last step put out, by its number from 0. 0: it is in the buffer; 6: there is no room;
/// 9: there is no such frame; 7: there is no place behind the handle.
#[unsafe(no_mangle)]
pub extern "C" fn burjeeg_place_sent(
    alloc: Global,
    place: &mut Handle,
    number: usize,
    to: &mut u16,
    buffer: &mut [u8],
    needed: &mut usize,
) -> u32
    requires place { IsMutAddress place }
    requires to { IsMutAddress to }
    requires needed { IsMutAddress needed }
    ensures lacks { result ≡ 7 → LacksPlace place.old place.new }
    ensures sent { result ≢ 7 → Shows place.old place.new (λ s.
        IsSentTo s.sent number result to.new needed.new buffer.old buffer.new) }
{
    if is_null(&*place) || is_null(&*to) || is_null(&*needed) {
        return NULL;
    }
    show!(alloc, place, inside => sent_in(&inside, number, to, buffer, needed))
}

/// Writes a line that the place printed, by its number from 0: a number in decimal, or a text. 0: it is in the buffer; 2: memory
/// was refused; 6: there is no room; 9: there is no such line; 7: there is no place behind the handle.
#[unsafe(no_mangle)]
pub extern "C" fn burjeeg_place_line(
    alloc: Global,
    place: &mut Handle,
    number: usize,
    buffer: &mut [u8],
    needed: &mut usize,
) -> u32
    requires place { IsMutAddress place }
    requires needed { IsMutAddress needed }
    ensures lacks { result ≡ 7 → LacksPlace place.old place.new }
    ensures line { result ≢ 7 → Shows place.old place.new (λ s.
        IsLineTo s.place.lines number result needed.new buffer.old buffer.new) }
{
    if is_null(&*place) || is_null(&*needed) {
        return NULL;
    }
    show!(alloc, place, inside => line_in(alloc, &inside, number, buffer, needed))
}

/// Tells the least key in use from a number on. 0: it is written; 9: there is none; 7: there is no place behind the handle.
#[unsafe(no_mangle)]
pub extern "C" fn burjeeg_place_next_key(
    alloc: Global,
    place: &mut Handle,
    from: usize,
    key: &mut usize,
) -> u32
    requires place { IsMutAddress place }
    requires key { IsMutAddress key }
    ensures lacks { result ≡ 7 → LacksPlace place.old place.new }
    ensures found { result ≡ 0 → Shows place.old place.new (λ s. IsFrom s from (Some key.new)) }
    ensures none { result ≡ 9 → Shows place.old place.new (λ s. IsFrom s from None) }
    ensures is { (result ≡ 0) ⊎ (result ≡ 7) ⊎ (result ≡ 9) }
{
    if is_null(&*place) || is_null(&*key) {
        return NULL;
    }
    match next_key(alloc, place, from) {
        Some(Some(found)) => {
            *key = found;
            0
        }
        Some(None) => NOTHING,
        None => CLOSED,
    }
}

/// Whether the run has ended, as place 0 knows it. 0: it has; 9: not yet, or the place isn't 0; 7: there is no place behind the
/// handle.
#[unsafe(no_mangle)]
pub extern "C" fn burjeeg_place_closed(alloc: Global, place: &mut Handle) -> u32
    requires { IsMutAddress place }
    ensures lacks { result ≡ 7 → LacksPlace place.old place.new }
    ensures ended { result ≡ 0 → Shows place.old place.new IsClosed }
    ensures open { result ≡ 9 → Shows place.old place.new (λ s. IsClosed s → ⊥) }
    ensures is { (result ≡ 0) ⊎ (result ≡ 7) ⊎ (result ≡ 9) }
{
    if is_null(&*place) {
        return NULL;
    }
    match closed(alloc, place) {
        None => CLOSED,
        Some(true) => 0,
        Some(false) => NOTHING,
    }
}
