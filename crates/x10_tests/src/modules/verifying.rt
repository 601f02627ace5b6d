use crate::sources::verified_of;
use std::alloc::{AllocError, Global};
use std::test::*;
use x10_bounds::BoundCause::Nesting;
use x10_code::{Instr, Op};
use x10_samples::SEVEN;
use x10_verify::{Verified, VerifyCause, VerifyFault};

const RET: Instr = Instr {
    op: Op::Ret,
    a: 0,
    b: 0,
    c: 0,
    x: 0,
};

fn instr(op: Op, a: u8) -> Instr {
    Instr { op, a, ..RET }
}

/// The instructions of all functions.
fn code_of(alloc: Global, verified: &Verified) -> Result<Vec<Instr>, AllocError> {
    let mut code = Vec::new(alloc);
    let image = verified.image();
    for f in 0..image.functions() {
        for pc in 0..image.code_len(f) {
            code.push(verified.fetch(f, pc))?;
        }
    }
    Ok(code)
}

/// Whether the bound of each function is a number.
fn all_bounded(verified: &Verified, bound: u64) -> bool {
    for f in 0..verified.image().functions() {
        if verified.bound(f) != bound {
            return false;
        }
    }
    true
}

#[test]
fn seven_is_verified(rt: HostRuntime) -> Result<(), Fail> {
    let verified = verified_of(rt.alloc(), &SEVEN)?;
    verified.certificate();
    let code = code_of(rt.alloc(), &verified)?;
    let wanted = [instr(Op::Intk, 0), instr(Op::Print, 0), RET];
    assert!(rt; code.as_slice() == wanted.as_slice());
    assert!(rt; verified.image().functions() == 1 && all_bounded(&verified, 3));
    Ok(())
}

#[test]
fn texts(rt: HostRuntime) -> Result<(), Fail> {
    let faults = [
        (VerifyCause::Structure(Nesting), "Structure Nesting 1 2"),
        (VerifyCause::Index, "Index 1 2"),
        (VerifyCause::Unset, "Unset 1 2"),
        (VerifyCause::Kind, "Kind 1 2"),
        (VerifyCause::Home, "Home 1 2"),
        (VerifyCause::Result, "Result 1 2"),
        (VerifyCause::Memory, "Memory 1 2"),
    ];
    for (cause, text) in faults {
        let fault = VerifyFault {
            cause,
            function: 1,
            pc: 2,
        };
        assert!(rt; format!(in rt.alloc(); "{fault}")?.as_str() == text);
    }
    Ok(())
}
