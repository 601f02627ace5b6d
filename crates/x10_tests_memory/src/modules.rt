//! Texts and images where memory is refused: each answer is the right one, or says that memory lacks.
use crate::begin::{assembled, verified, viewed};
use std::alloc::{AllocError, Global};
use std::process::Abort;
use std::test::*;
use x10_asm::list;
use x10_bounds::{BoundCause, bounds};
use x10_code::{Instr, Op};
use x10_image::{Function, ImageFault, ImageView, Module, write};
use x10_model::ImageVersion;
use x10_samples::SEVEN;

/// A listing.
const TEXT: &str = "places 2
class int opt:0
int 5
text \"a\"
func 2 1 none gref:0
LOOP 0 3
INTK 1 0
ENDL 0 1
PRINT 1
RET 0
end
func 1 0 none
RET 0
end
entry 1
";

/// The bounds of its functions.
const BOUNDS: [u64; 2] = [9, 1];

/// Whether an image's bounds are right; nothing where memory was refused.
fn has_bounds(alloc: Global, rt: &impl Abort, view: &ImageView) -> Option<bool> {
    match bounds(alloc, view) {
        Ok(bounds) => Some(bounds.as_slice() == BOUNDS.as_slice()),
        Err(fault) => {
            assert!(rt; fault.cause == BoundCause::Memory);
            None
        }
    }
}

/// The listing of a module is the text. Nothing where memory was refused.
fn is_listed(alloc: Global, rt: &impl Abort, view: &ImageView) -> Option<()> {
    let listing = list(alloc, view).ok()?;
    assert!(rt; listing.as_str() == TEXT);
    Some(())
}

/// A text is assembled, and its image read, listed, bounded and verified. Nothing where memory was refused.
fn is_read(alloc: Global, rt: &impl Abort) -> Option<()> {
    let bytes = assembled(alloc, rt, TEXT)?;
    let view = viewed(alloc, rt, &bytes)?;
    is_listed(alloc, rt, &view)?;
    assert!(rt; has_bounds(alloc, rt, &view)?);
    verified(alloc, rt, view)?;
    Some(())
}

fn instr(op: Op) -> Instr {
    Instr {
        op,
        a: 0,
        b: 0,
        c: 0,
        x: 0,
    }
}

/// The module whose image is `SEVEN`.
fn module(alloc: Global) -> Result<Module, AllocError> {
    let code = [instr(Op::Intk), instr(Op::Print), instr(Op::Ret)];
    let mut module = Module {
        version: ImageVersion::One,
        least_places: 1,
        classes: Vec::new(alloc),
        ints: Vec::from_slice(alloc, &[7])?,
        texts: Vec::new(alloc),
        functions: Vec::new(alloc),
        entry: 0,
    };
    module.functions.push(Function {
        parameters: Vec::new(alloc),
        registers: 1,
        loops: 0,
        result: None,
        code: Vec::from_slice(alloc, &code)?,
    })?;
    Ok(module)
}

/// A module's image is written. Nothing where memory was refused.
fn is_written(alloc: Global, rt: &impl Abort) -> Option<()> {
    let module = module(alloc).ok()?;
    match write(alloc, &module) {
        Ok(bytes) => {
            assert!(rt; bytes.as_slice() == SEVEN.as_slice());
            Some(())
        }
        Err(fault) => {
            assert!(rt; fault == ImageFault::Memory);
            None
        }
    }
}

#[test]
fn with_memory(rt: HostRuntime) {
    assert!(rt; is_read(rt.alloc(), &rt).is_some());
    assert!(rt; is_written(rt.alloc(), &rt).is_some());
}

#[test]
fn memory_refused_by_reading(rt: HostRuntime) {
    is_read(rt.alloc(), &rt);
}

#[test]
fn memory_refused_by_writing(rt: HostRuntime) {
    is_written(rt.alloc(), &rt);
}
