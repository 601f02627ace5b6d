//! Bounds and regions, and which instructions print a text.
use crate::sources::{assembled, image_of, verified_of};
use std::alloc::Global;
use std::test::*;
use x10_bounds::BoundCause::{Atomic, CallOrder, Jump, LoopSlot, Memory, Nesting, TooLarge};
use x10_bounds::{BoundFault, Region, bounds, regions};
use x10_image::ImageView;
use x10_verify::Verified;

/// A function without a region, a loop in a loop, and a loop in a finish.
const REGIONS: &str = "places 1
int 1
func 1 0 none
INTK 0 0
RET 0
end
func 1 2 none
INTK 0 0
LOOP 0 3
LOOP 1 4
ADD 0 0 0
ENDL 1 3
ENDL 0 2
PRINT 0
RET 0
end
func 1 1 none
FINB
LOOP 0 3
ENDL 0 2
FINE
RET 0
end
entry 0
";

fn region(opener: u16, closer: u16, limit: u32) -> Region {
    Region {
        opener,
        closer,
        limit,
    }
}

/// Whether these are the bounds of the functions.
fn are_bounds(alloc: Global, view: &ImageView, wanted: &[u64]) -> Result<bool, Fail> {
    Ok(bounds(alloc, view)?.as_slice() == wanted)
}

/// The regions of all functions, one function after another, of a module that has bounds.
fn all_regions(alloc: Global, view: &ImageView) -> Result<Vec<Region>, Fail> {
    bounds(alloc, view)?;
    let mut found = Vec::new(alloc);
    for f in 0..view.functions() {
        found.extend_from_slice(regions(alloc, view, f)?.as_slice())?;
    }
    Ok(found)
}

#[test]
fn regions_by_their_openers(rt: HostRuntime) -> Result<(), Fail> {
    let image = assembled(rt.alloc(), REGIONS)?;
    let view = image_of(rt.alloc(), &image)?;
    assert!(rt; are_bounds(rt.alloc(), &view, &[2, 34, 7])?);
    let wanted = [
        region(1, 5, 3),
        region(2, 4, 4),
        region(0, 3, 1),
        region(1, 2, 3),
    ];
    assert!(rt; all_regions(rt.alloc(), &view)?.as_slice() == wanted.as_slice());
    Ok(())
}

#[test]
fn texts(rt: HostRuntime) -> Result<(), Fail> {
    let faults = [
        (Nesting, "Nesting 1 2"),
        (Jump, "Jump 1 2"),
        (LoopSlot, "LoopSlot 1 2"),
        (CallOrder, "CallOrder 1 2"),
        (Atomic, "Atomic 1 2"),
        (TooLarge, "TooLarge 1 2"),
        (Memory, "Memory 1 2"),
    ];
    for (cause, text) in faults {
        let fault = BoundFault {
            cause,
            function: 1,
            pc: 2,
        };
        assert_eq!(rt; format!(in rt.alloc(); "{fault}")?.as_str(), text);
    }
    Ok(())
}

/// A module of version 2 with two functions. The second one has these lines.
fn with_lines(alloc: Global, lines: &str) -> Result<Vec<u8>, Fail> {
    let text = format!(in alloc;
        "version 2\nplaces 1\nfunc 1 0 none\nRET 0\nend\nfunc 1 2 none\n{lines}end\nentry 0\n"
    )?;
    assembled(alloc, text.as_str())
}

/// Where its structure is at fault, and how.
fn fault(alloc: Global, lines: &str) -> Result<Option<BoundFault>, Fail> {
    let image = with_lines(alloc, lines)?;
    let view = image_of(alloc, &image)?;
    Ok(bounds(alloc, &view).err())
}

#[test]
fn what_stays_out_of_atomic_regions(rt: HostRuntime) -> Result<(), Fail> {
    let faults = [
        ("ATOMB\nCALL 0 0 0\nATOME\nRET 0\n", Atomic, 1),
        ("HERE 0\nATOMB\nAT 0 0 0 0\nATOME\nRET 0\n", Atomic, 2),
        ("HERE 0\nATOMB\nATA 0 0 0\nATOME\nRET 0\n", Atomic, 2),
        ("ATOMB\nASYNC 0 0\nATOME\nRET 0\n", Atomic, 1),
        ("ATOMB\nFINB\nFINE\nATOME\nRET 0\n", Atomic, 1),
        ("ATOMB\nATOMB\nATOME\nATOME\nRET 0\n", Atomic, 1),
        ("ATOMB\nJMP 3\nATOME\nRET 0\n", Jump, 1),
        ("JMP 2\nATOMB\nHERE 0\nATOME\nRET 0\n", Jump, 0),
        ("ATOMB\nRET 0\nATOME\nRET 0\n", Nesting, 1),
        ("LOOP 0 2\nATOMB\nENDL 0 1\nATOME\nRET 0\n", Nesting, 2),
        ("ATOME\nRET 0\n", Nesting, 0),
        ("ATOMB\nCALL 0 0 1\nATOME\nRET 0\n", CallOrder, 1),
    ];
    for (lines, cause, pc) in faults {
        let wanted = BoundFault {
            cause,
            function: 1,
            pc,
        };
        assert!(rt; fault(rt.alloc(), lines)? == Some(wanted), "{lines}");
    }
    Ok(())
}

#[test]
fn atomic_regions_multiply_nothing(rt: HostRuntime) -> Result<(), Fail> {
    let lines = "LOOP 0 3\nATOMB\nLOOP 1 4\nENDL 1 3\nATOME\nENDL 0 1\nRET 0\n";
    let image = with_lines(rt.alloc(), lines)?;
    let view = image_of(rt.alloc(), &image)?;
    assert!(rt; are_bounds(rt.alloc(), &view, &[1, 26])?);
    let wanted = [region(0, 5, 3), region(1, 4, 1), region(2, 3, 4)];
    assert!(rt; all_regions(rt.alloc(), &view)?.as_slice() == wanted.as_slice());
    Ok(())
}

/// A PRINT of a text, one of a number, and after the RET one that no way leads to.
const PRINTS: &str = "places 1
int 7
text \"t\"
func 1 0 none
TEXTK 0 0
PRINT 0
INTK 0 0
PRINT 0
RET 0
PRINT 0
RET 0
end
entry 0
";

/// Whether an instruction prints a text.
fn prints(verified: &Verified, f: usize, pc: usize) -> bool {
    verified.prints_text(f, pc)
}

#[test]
fn what_prints_a_text(rt: HostRuntime) -> Result<(), Fail> {
    let image = assembled(rt.alloc(), PRINTS)?;
    let verified = verified_of(rt.alloc(), &image)?;
    verified.assignments();
    for pc in 0..9 {
        assert!(rt; prints(&verified, 0, pc) == (pc == 1), "{pc}");
    }
    for (f, pc) in [(0, usize::MAX), (1, 1), (usize::MAX, 1)] {
        assert!(rt; !prints(&verified, f, pc));
    }
    Ok(())
}
