//! What is found of a function by itself.
ghost use Rattle.std.specs.Prelude.{◌≡◌, ◌<◌, length};

use std::alloc::{AllocError, Global};
use x10_bounds::{BoundCause, bound_at};
use x10_image::ImageView;
use x10_verify::{Flow, VerifyCause, VerifyFault, known_flow};

/// What is found of a function: its bound, or 0 where its structure is broken, its states, and its first fault.
#[derive(Drop)]
pub(crate) struct Finding {
    pub(crate) bound: u64,
    pub(crate) flow: Flow,
    pub(crate) fault: Option<VerifyFault>,
}

// Looks at a function by itself, given the bounds of those before it: its structure, and then what it names and its flow.
fn find(alloc: Global, image: &ImageView, f: usize, earlier: &[u64]) -> Result<Finding, AllocError>
    requires there { f < length image.now.functions }
    requires earlier { f ≡ length earlier.now }
{
    image.functions();
    let flow = known_flow(alloc, image, f)?;
    match bound_at(alloc, image, f, earlier) {
        Ok(bound) => {
            let fault = flow.fault();
            Ok(Finding { bound, flow, fault })
        }
        Err(fault) => {
            if fault.cause == BoundCause::Memory {
                return Err(AllocError);
            }
            let fault = Some(VerifyFault {
                cause: VerifyCause::Structure(fault.cause),
                function: fault.function,
                pc: fault.pc,
            });
            Ok(Finding {
                bound: 0,
                flow,
                fault,
            })
        }
    }
}

/// Looks at the function after those whose bounds are given, and adds its bound to them; nothing where there is none.
pub(crate) fn next_finding(
    alloc: Global,
    image: &ImageView,
    bounds: &mut Vec<u64>,
) -> Result<Option<Finding>, AllocError> {
    let f = bounds.len();
    if f >= image.functions() {
        return Ok(None);
    }
    let finding = find(alloc, image, f, bounds)?;
    bounds.push(finding.bound)?;
    Ok(Some(finding))
}
