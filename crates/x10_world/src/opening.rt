ghost use Rattle.std.specs.Prelude.{◌≤◌, IfOk};
ghost use Rattle.x10_world.specs.Opening.{AreOpened};

use std::alloc::{AllocError, Global};
use x10_place::Place;
use x10_verify::Verified;

/// `count` places at the beginning.
pub(crate) fn places_of<'a>(
    alloc: Global,
    verified: &'a Verified<'a>,
    count: u16,
) -> Result<Vec<Place<'a>>, AllocError>
    requires enough { verified.now.program.least_places ≤ count }
    requires few { count ≤ 64 }
    ensures { IfOk result (λ list. AreOpened verified.now count list.items) }
{
    let mut list = Vec::with_capacity(alloc, usize::from(count))?;
    for id in 0..count {
        let place = Place::new(alloc, verified, id, count)?;
        list.push(place)?;
    }
    Ok(list)
}
