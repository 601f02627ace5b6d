//! The places of a world, and which of them have activities.
ghost use Rattle.std.specs.Prelude.{◌≡◌, ◌≢◌, ◌<◌, ◌≤◌, ℕ, IfOk, length};
ghost use Rattle.x10_flights.specs.PlaceSets.{has_place};
ghost use Rattle.x10_world.specs.Living.{has_activity, lives_at, keys_at, live_at};
ghost use Rattle.x10_world.specs.Opening.{AreOpened};

use crate::opening::places_of;
use std::alloc::{AllocError, Global};
use std::marker::Model;
use x10_flights::PlaceSet;
use x10_place::Place;
use x10_verify::Verified;

/// A set of places, with what is so now of one of them: whether it has an activity.
#[inline(always)]
pub(crate) fn noted(living: PlaceSet, id: u16, place: &Place) -> PlaceSet
    requires { id < 64 }
    ensures here { has_place result id ≡ has_activity place.now }
    ensures others { (other : ℕ) → other ≢ id → has_place result other ≡ has_place living other }
{
    let mut noted = living;
    if place.is_empty() {
        noted.remove(id);
    } else {
        noted.insert(id);
    }
    noted
}

/// The places of a world by number. It is always known which of them have activities.
#[derive(Drop)]
pub(crate) struct Places<'a> {
    pub(crate) list: Vec<Place<'a>>,
    pub(crate) living: PlaceSet,
}

impl<'a> Model for Places<'a> {
    ghost use Rattle.std.specs.Prelude.{List};
    ghost use Rattle.x10_place.specs.StandsFor.{PlaceState};
    ghost use Rattle.x10_world.specs.Living.{AreLiving};

    ghost Value = { List PlaceState };

    ghost view = { λ a. a.list.items };

    ghost invariant = { λ a. AreLiving a.list.items a.living };
}

impl<'a> Places<'a> {
    /// `count` places at the beginning.
    pub(crate) fn open(
        alloc: Global,
        verified: &'a Verified<'a>,
        count: u16,
    ) -> Result<Places<'a>, AllocError>
        requires enough { verified.now.program.least_places ≤ count }
        requires few { count ≤ 64 }
        ensures { IfOk result (AreOpened verified.now count) }
    {
        let list = places_of(alloc, verified, count)?;
        let living = living_of(&list);
        Ok(Places { list, living })
    }

    /// The places by number.
    #[inline(always)]
    pub(crate) fn list(&self) -> &[Place<'a>]
        ensures { result.now ≡ self.now }
    {
        &self.list
    }

    /// Those of the places that have activities. Constant time.
    #[inline(always)]
    pub(crate) fn living(&self) -> PlaceSet
        ensures { (id : ℕ) → has_place result id ≡ lives_at self.now id }
    {
        self.living
    }
}

/// Those of some places that have activities.
fn living_of(list: &[Place]) -> PlaceSet
    requires { length list.now ≤ 64 }
    ensures { (id : ℕ) → has_place result id ≡ lives_at list.now id }
{
    let mut living = PlaceSet::new();
    for id in 0..list.len() as u16 {
        living = noted(living, id, &list[usize::from(id)]);
    }
    living
}
