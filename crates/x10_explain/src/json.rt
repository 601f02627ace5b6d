//! Faults as JSON, for other programs. docs/json.schema.json says what there is.

use crate::asm;
use crate::asm::column_of;
use crate::faulty::Faulty;
use crate::image::explain_image;
use crate::names::{asm_name, image_name, verify_name};
use crate::site::Site;
use crate::teller::{Name, Teller};
use crate::verify::{NO_PARTS, Parts, explained, place_in};
use std::alloc::AllocError;
use x10_asm::AsmFault;
use x10_image::ImageFault;
use x10_verify::{Flow, VerifyCause, VerifyFault};

/// What refuses a module, `asm`, `image` or `verify`, for which cause, and where.
#[derive(Clone, Copy)]
struct Refusal {
    part: &'static str,
    cause: &'static str,
    /// Whether the cause is one of structure.
    structure: bool,
    /// The line of a text, and the column in characters, both from 1 on.
    line: Option<u64>,
    column: Option<u64>,
    function: Option<u64>,
    instruction: Option<u64>,
}

// Where a fault is.
fn tell_place(out: &mut Teller, refusal: Refusal) {
    out.say(
        "\"line\":{},\"column\":{},\"function\":{},\"instruction\":{},",
        &[
            Name::Maybe(refusal.line),
            Name::Maybe(refusal.column),
            Name::Maybe(refusal.function),
            Name::Maybe(refusal.instruction),
        ],
    );
}

// A part of what is told, as a value.
fn part_of(told: &str, span: (usize, usize)) -> Name<'_> {
    Name::Json(told.get(span.0..span.1).unwrap_or(""))
}

// A fault: what refuses, what is told below its first line, and which parts of that say what.
fn tell_fault<'a>(out: &mut Teller, file: &'a str, refusal: Refusal, told: &'a str, parts: Parts) {
    out.say(
        "{\"file\":{},\"part\":\"{}\",\"cause\":\"{}\",\"structure\":{},",
        &[
            Name::Json(file),
            Name::Word(refusal.part),
            Name::Word(refusal.cause),
            Name::Bool(refusal.structure),
        ],
    );
    tell_place(out, refusal);
    let (asked, known) = (part_of(told, parts.asked), part_of(told, parts.known));
    let (origin, repair) = (part_of(told, parts.origin), part_of(told, parts.repair));
    out.say(
        "\"asked\":{},\"known\":{},\"origin\":{},\"repair\":{},\"told\":{}}",
        &[asked, known, origin, repair, Name::Json(told)],
    );
}

// The same of an explanation, of which what is below its first line is told.
fn tell_below(
    out: &mut Teller,
    file: &str,
    refusal: Refusal,
    explanation: Result<String, AllocError>,
) {
    match explanation {
        Ok(text) => {
            let (_, below) = text.split_once('\n').unwrap_or(("", ""));
            tell_fault(out, file, refusal, below, NO_PARTS);
        }
        Err(_) => out.fail(),
    }
}

/// Tells a fault of a text, given the refused line, if the text has it.
pub(crate) fn tell_asm(
    out: &mut Teller,
    file: &str,
    text: &str,
    fault: AsmFault,
    faulty: Option<&Faulty>,
) {
    let refusal = Refusal {
        part: "asm",
        cause: asm_name(fault.cause),
        structure: false,
        line: Some(fault.line as u64),
        column: Some(column_of(faulty) as u64),
        function: None,
        instruction: None,
    };
    let explanation = asm::explained(out.alloc(), text, fault, faulty);
    tell_below(out, file, refusal, explanation);
}

/// Tells a fault of an image's bytes.
pub(crate) fn tell_image(out: &mut Teller, file: &str, bytes: &[u8], fault: ImageFault) {
    let (function, instruction) = match fault {
        ImageFault::Code(f, pc) => (Some(u64::from(f)), Some(u64::from(pc))),
        _ => (None, None),
    };
    let refusal = Refusal {
        part: "image",
        cause: image_name(fault),
        structure: false,
        line: None,
        column: None,
        function,
        instruction,
    };
    let explanation = explain_image(out.alloc(), bytes, fault);
    tell_below(out, file, refusal, explanation);
}

/// Tells a fault of a function.
pub(crate) fn tell_verify(
    out: &mut Teller,
    file: &str,
    site: Site,
    flow: &Flow,
    fault: VerifyFault,
) {
    let (line, column) = match site.source {
        Some(source) => {
            let (line, column) = place_in(source, fault);
            (Some(line as u64), Some(column as u64))
        }
        None => (None, None),
    };
    let refusal = Refusal {
        part: "verify",
        cause: verify_name(fault.cause),
        structure: matches!(fault.cause, VerifyCause::Structure(_)),
        line,
        column,
        function: Some(u64::from(fault.function)),
        instruction: Some(u64::from(fault.pc)),
    };
    let mut told = Teller::new(out.alloc());
    let parts = explained(&mut told, site, flow, fault);
    match told.finish() {
        Ok(told) => tell_fault(out, file, refusal, &told, parts),
        Err(_) => out.fail(),
    }
}
