//! The stays with which a place begins.
ghost use Rattle.std.specs.Prelude.{IfOk};
ghost use Rattle.x10_place.specs.Opening.{IsMain, HoldsOnly};
ghost use Rattle.x10_place.specs.Stays.{StayState};

use crate::call_frame::first_frame;
use crate::stay::Stay;
use slab::Slab;
use std::alloc::{AllocError, Global};
use x10_model::Finish;
use x10_verify::Verified;

/// Main: the entry function at its first instruction, with its registers 0, under the root finish.
fn main(alloc: Global, verified: &Verified) -> Result<Stay, AllocError>
    ensures { IfOk result (IsMain verified.now.program) }
{
    let function = verified.image().entry();
    let registers = usize::from(
        verified
            .image()
            .signature(usize::from(function))
            .registers(),
    );
    Ok(Stay {
        top: first_frame(alloc, function, registers)?,
        callers: Vec::new(alloc),
        finishes: Vec::new(alloc),
        inherited: Finish { home: 0, number: 0 },
        away: false,
        inside: false,
        back: None,
    })
}

/// Main alone, under key 0.
pub(crate) fn with_main(alloc: Global, verified: &Verified) -> Result<Slab<Stay>, AllocError>
    ensures { IfOk result (λ slab. (a : StayState) × IsMain verified.now.program a
        × HoldsOnly slab 0 a) }
{
    let mut stays = Slab::new(alloc);
    let main = main(alloc, verified)?;
    stays.insert(main)?;
    Ok(stays)
}
