use std::alloc::Global;
use std::process::Abort;
use std::test::*;
use x10_asm::{AsmCause, AsmFault, assemble};
use x10_explain::{
    Form, check_image, check_text, explain_asm, explain_image, explain_verify, list_verbose,
};
use x10_image::{ImageFault, ImageView};
use x10_kinds::{Kind, Term};
use x10_verify::{VerifyCause, VerifyFault, known_flow};

/// A reference that is opened on two ways, only one of which knows that its home is here.
const AWAY: &str =
    "places 1\nclass int\nfunc 3 1 none gref:0 int\nLOOP 0 3\nENDL 0 1\nJZ 1 4\nIFHERE 0 5\nGOPEN 2 0\nRET 0\nend\nfunc 1 0 none\nRET 0\nend\nentry 1\n";

/// What is known of it, up to the fault.
const KNOWN: &str =
    "places 1\n; class 0\nclass int\n; function 0, at most 8 steps\nfunc 3 1 none gref:0 int\n; 0: r0 gref:0, r1 int; at most 8 steps left\nLOOP 0 3\n; 1: r0 gref:0, r1 int; at most 7 steps left\nENDL 0 1\n; 2: r0 gref:0, r1 int; at most 4 steps left\nJZ 1 4\n; 3: r0 gref:0, r1 int; at most 3 steps left\nIFHERE 0 5\n; 4: r0 gref:0, r1 int; at most 2 steps left\n; Home, function 0, instruction 4: GOPEN 2 0\n; GOPEN asks that the home of r0 is here; it isn't known to be.\n; Ways meet in instruction 4: GOPEN 2 0\n;   the home of r0 is known to be here on the way from instruction 3: IFHERE 0 5\n;   the home of r0 isn't known to be here on the way from instruction 2: JZ 1 4\n; Ask before it, by `IFHERE 0 @LABEL`; or go to the home, by HOME and AT, to a function whose parameter is here:c.\nGOPEN 2 0\n; 5:\nRET 0\nend\n; function 1, at most 1 step\nfunc 1 0 none\n; 0: no register is set; at most 1 step left\nRET 0\nend\n; a run begins with function 1\nentry 1\n";

const HOME: VerifyFault = VerifyFault {
    cause: VerifyCause::Home,
    function: 0,
    pc: 4,
};

/// Whether the explanation of the fault begins with its line.
fn begins(alloc: Global, image: &ImageView) -> Result<bool, Fail> {
    let told = explain_verify(alloc, image, HOME)?;
    Ok(
        told.as_str()
            .starts_with("Home, function 0, instruction 4: GOPEN 2 0\n"),
    )
}

/// Whether what is known of the first function is what `KNOWN` says, where asked by instruction.
fn flows(alloc: Global, rt: &impl Abort, image: &ImageView) -> Result<bool, Fail> {
    assert!(rt; image.functions() == 2);
    let flow = known_flow(alloc, image, 0)?;
    Ok(
        flow.fault() == Some(HOME)
            && flow.is_reached(4)
            && !flow.is_reached(6)
            && flow.kind(4, 0) == Some(Kind::GRef(0))
            && flow.kind(4, 2).is_none()
            && !flow.same(4, Term::Reg(0), Term::Here),
    )
}

#[test]
fn what_is_known(rt: HostRuntime) -> Result<(), Fail> {
    let bytes = assemble(rt.alloc(), AWAY)?;
    let image = ImageView::read(rt.alloc(), &bytes)?;
    let listing = list_verbose(rt.alloc(), &image, None)?;
    assert!(rt; listing.as_str() == KNOWN);
    assert!(rt; assemble(rt.alloc(), &listing)?.as_slice() == bytes.as_slice());
    assert!(rt; begins(rt.alloc(), &image)? && flows(rt.alloc(), &rt, &image)?);
    Ok(())
}

/// Whether a text is called verified, and what is said of it.
fn checked(alloc: Global, text: &str) -> Result<(bool, String), Fail> {
    let report = check_text(alloc, text, Form::Lines)?;
    Ok((report.verified, report.text))
}

/// The same of an image.
fn checked_image(alloc: Global, bytes: &[u8]) -> Result<(bool, String), Fail> {
    let report = check_image(alloc, bytes, Form::Lines)?;
    Ok((report.verified, report.text))
}

#[test]
fn checks(rt: HostRuntime) -> Result<(), Fail> {
    let (verified, said) = checked(rt.alloc(), AWAY)?;
    let first = "Home, function 0, instruction 4: GOPEN 2 0\nline 8: GOPEN 2 0\n";
    assert!(rt; !verified && said.as_str().starts_with(first));
    let text = "places 1\nfunc 1 0 none\nHERE 0\nRET 0\nend\nentry 0\n";
    let (verified, said) = checked_image(rt.alloc(), &assemble(rt.alloc(), text)?)?;
    assert!(rt; verified && said.as_str() == "0 2\n");
    Ok(())
}

#[test]
fn texts_and_images(rt: HostRuntime) -> Result<(), Fail> {
    let text = "places 1\nfunc 1 0 none\n  HERE r0 ; here\n";
    let fault = AsmFault {
        line: 3,
        cause: AsmCause::Number,
    };
    let told = explain_asm(rt.alloc(), text, fault)?;
    let wanted =
        "Number, line 3:   HERE r0 ; here\n                       ^^\n`r0`: a register is its number alone, without r.\nExpected: HERE REGISTER.\n";
    assert!(rt; told.as_str() == wanted);
    let told = explain_image(rt.alloc(), text.as_bytes(), ImageFault::Magic)?;
    let wanted =
        "Magic, in 40 bytes\nAt byte 0: the magic of the header, 70 6c 61 63.\nAn image begins with the bytes 58 31 30 50, in hexadecimal.\nThese bytes are a text: assemble it first, with `asm`.\n";
    assert!(rt; told.as_str() == wanted);
    Ok(())
}
