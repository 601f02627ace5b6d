use super::listing::{WHOLE, image};
use crate::sources::assembled;
use std::alloc::Global;
use std::test::*;
use x10_asm::{AsmCause, AsmFault, assemble, flaw_of, version_in};
use x10_model::ImageVersion;

/// One function that prints the constant number 7.
const SEVEN: &str = "places 1\nint 7\nfunc 1 0 none\nINTK 0 0\nPRINT 0\nRET 0\nend\nentry 0\n";

/// The right answer, or lack of memory, which is no line's fault.
#[test]
fn want_of_memory(rt: HostRuntime) {
    match assemble(rt.alloc(), SEVEN) {
        Ok(bytes) => assert!(rt; bytes.as_slice() == x10_samples::SEVEN.as_slice()),
        Err(fault) => assert!(rt; fault.line == 0 && fault.cause == AsmCause::Memory),
    }
}

#[test]
fn a_listing_is_assembled(rt: HostRuntime) -> Result<(), Fail> {
    let bytes = assembled(rt.alloc(), WHOLE)?;
    assert!(rt; bytes.as_slice() == image(&rt)?.as_slice());
    Ok(())
}

/// A text with ATOMB, without a version's line.
const ATOMIC: &str = "places 1\nfunc 1 0 none\nATOMB\nRET 0\nend\nentry 0\n";

/// One with that line, behind a comment and a blank line.
const ATOMIC_IN_TWO: &str =
    "; two\n\nversion 2\nplaces 1\nfunc 1 0 none\nATOMB\nRET 0\nend\nentry 0\n";

/// The line at which a text is refused, and the cause.
fn refusal(alloc: Global, text: &str) -> Option<(usize, AsmCause)> {
    let AsmFault { line, cause } = assemble(alloc, text).err()?;
    Some((line, cause))
}

#[test]
fn operations_of_a_version_are_assembled(rt: HostRuntime) {
    assert!(rt; refusal(rt.alloc(), ATOMIC) == Some((3, AsmCause::Word)));
    assert!(rt; refusal(rt.alloc(), ATOMIC_IN_TWO).is_none());
}

/// The word at which a line is faulty, in a text of a version without classes.
fn faulty_word(line: &str, version: ImageVersion) -> Option<&str> {
    Some(flaw_of(line, 0, version)?.word)
}

#[test]
fn operations_of_a_version_are_no_flaws(rt: HostRuntime) {
    assert!(rt; version_in(ATOMIC) == ImageVersion::One);
    assert!(rt; version_in(ATOMIC_IN_TWO) == ImageVersion::Two);
    assert!(rt; version_in("places 1\nversion 2\n") == ImageVersion::One);
    assert!(rt; faulty_word(" ATOMB 1", ImageVersion::One) == Some("ATOMB"));
    assert!(rt; faulty_word(" ATOMB 1", ImageVersion::Two) == Some("1"));
    assert!(rt; faulty_word("ATOME", ImageVersion::Two).is_none());
    assert!(rt; faulty_word("FINB 1", ImageVersion::One) == Some("1"));
    assert!(rt; faulty_word("version 2", ImageVersion::Two).is_none());
}
