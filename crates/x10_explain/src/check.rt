//! All faults of a module that can be reported by themselves.
ghost use Rattle.std.specs.Prelude.{◌≡◌, ◌↔◌, IfOk, IsTrue, List, ℕ};
ghost use Rattle.x10_verify.specs.declared.fault.VerifyCause.TheVariants.{Memory};
ghost use Rattle.x10_explain.specs.Verdicts.{IsVerifiedImage, IsVerifiedText, Reports, RefusesImage, RefusesText};

use crate::asm::{explained as explained_text, faulty_after};
use crate::faults::{Finding, next_finding};
use crate::faulty::{Faulty, faulty_at};
use crate::head::head;
use crate::image::explain_image;
use crate::json::{tell_asm, tell_image, tell_verify};
use crate::site::Site;
use crate::source::Source;
use crate::teller::{Name, Teller, comma};
use crate::verify::explained;
use std::alloc::{AllocError, Global};
use x10_asm::{AsmCause, AsmFault, assemble};
use x10_image::{ImageFault, ImageView};
use x10_verify::{Verified, VerifyCause, VerifyFault, verify};

/// Why a check refuses a module: the fault that is reported by the first call that refuses it.
#[derive(Clone, Copy)]
pub enum CheckFault {
    Asm(AsmFault),
    Image(ImageFault),
    Verify(VerifyFault),
}

/// How a report is written.
#[derive(Clone, Copy)]
pub enum Form<'a> {
    /// Lines for people.
    Lines,
    /// JSON, in a line, where the file has this name.
    Json(&'a str),
}

/// What is found of a module.
#[derive(Drop)]
pub struct Checked {
    /// Whether it is verified.
    pub verified: bool,
    /// Why it isn't.
    pub refusal: Option<CheckFault>,
    /// Its bounds, a line for each function; or its faults, each explained, in at most 60 lines. As JSON both are in one line.
    pub text: String,
}

/// The greatest number of faults that are explained: each has 9 lines at most.
const MOST_FAULTS: usize = 6;

/// The greatest number of faulty lines that are explained after the first: each has 4 lines at most.
const MOST_LINES: usize = 6;

/// The greatest number of events that `--limit` permits a run: `MOST_EVENTS` of `x10_usage`, which this crate doesn't stand on.
/// `tests/scripts/limits.sh` compares it with the one that the program takes.
const MOST_EVENTS: u64 = 1_000_000_000;

/// Whether an image is verified, which is `verify`'s answer; and the bound of each function, or the first fault of each
/// function that has one. Where it isn't verified this costs `verify` of all functions at most twice, and the explanations of
/// at most 6 functions.
pub fn check_image(alloc: Global, bytes: &[u8], form: Form) -> Result<Checked, AllocError>
    ensures verdict { IfOk result (λ report. IsTrue report.verified ↔ IsVerifiedImage bytes.now) }
    ensures why { IfOk result (λ report. Reports report.verified report.refusal
        (RefusesImage bytes.now)) }
{
    check_bytes(alloc, bytes, None, form)
}

/// The same of the module that a text spells, each fault with its line of the text; or why it spells none: its first faulty
/// line, and at most 6 more that are faulty wherever they stand.
pub fn check_text(alloc: Global, text: &str, form: Form) -> Result<Checked, AllocError>
    ensures verdict { IfOk result (λ report. IsTrue report.verified ↔ IsVerifiedText text.now) }
    ensures why { IfOk result (λ report. Reports report.verified report.refusal
        (RefusesText text.now)) }
{
    match assemble(alloc, text) {
        Ok(bytes) => {
            let report = check_bytes(alloc, &bytes, Some(text), form)?;
            Ok(report)
        }
        Err(fault) => {
            if fault.cause == AsmCause::Memory {
                return Err(AllocError);
            }
            let text = faults_of_text(alloc, text, fault, form)?;
            Ok(Checked {
                verified: false,
                refusal: Some(CheckFault::Asm(fault)),
                text,
            })
        }
    }
}

// What comes before the faults of a module that isn't verified.
fn begin(out: &mut Teller, form: Form) {
    if let Form::Json(file) = form {
        out.say(
            "{\"file\":{},\"verified\":false,\"bounds\":null,\"above_limit\":null,\"faults\":[",
            &[Name::Json(file)],
        );
    }
}

// What comes after them.
fn end(out: &mut Teller, form: Form) {
    if let Form::Json(_) = form {
        out.say("]}\n", &[]);
    }
}

// The first faulty line of a text, and those after it that are faulty by themselves.
fn faults_of_text(
    alloc: Global,
    text: &str,
    fault: AsmFault,
    form: Form,
) -> Result<String, AllocError> {
    let mut out = Teller::new(alloc);
    begin(&mut out, form);
    tell_text_fault(&mut out, form, text, fault, faulty_at(text, fault).as_ref());
    let mut line = fault.line;
    for told in 0..=MOST_LINES {
        let Some(other) = faulty_after(text, line) else {
            break;
        };
        line = other.fault.line;
        match form {
            Form::Lines if told == MOST_LINES => out.say("and there are more faulty lines\n", &[]),
            Form::Lines => tell_text_fault(&mut out, form, text, other.fault, Some(&other)),
            Form::Json(_) => {
                out.say(",", &[]);
                tell_text_fault(&mut out, form, text, other.fault, Some(&other));
            }
        }
    }
    end(&mut out, form);
    out.finish()
}

// A fault of a text, given the faulty line, if the text has it.
fn tell_text_fault(
    out: &mut Teller,
    form: Form,
    text: &str,
    fault: AsmFault,
    faulty: Option<&Faulty>,
) {
    match form {
        Form::Lines => {
            let told = explained_text(out.alloc(), text, fault, faulty);
            out.take(told);
        }
        Form::Json(file) => tell_asm(out, file, text, fault, faulty),
    }
}

// Why bytes are no image.
fn fault_of_image(
    alloc: Global,
    bytes: &[u8],
    fault: ImageFault,
    form: Form,
) -> Result<String, AllocError> {
    let Form::Json(file) = form else {
        return explain_image(alloc, bytes, fault);
    };
    let mut out = Teller::new(alloc);
    begin(&mut out, form);
    tell_image(&mut out, file, bytes, fault);
    end(&mut out, form);
    out.finish()
}

fn check_bytes(
    alloc: Global,
    bytes: &[u8],
    source: Option<&str>,
    form: Form,
) -> Result<Checked, AllocError>
    ensures verdict { IfOk result (λ report. IsTrue report.verified ↔ IsVerifiedImage bytes.now) }
    ensures why { IfOk result (λ report. Reports report.verified report.refusal
        (RefusesImage bytes.now)) }
{
    let image = match ImageView::read(alloc, bytes) {
        Ok(image) => image,
        Err(ImageFault::Memory) => return Err(AllocError),
        Err(fault) => {
            let text = fault_of_image(alloc, bytes, fault, form)?;
            return Ok(Checked {
                verified: false,
                refusal: Some(CheckFault::Image(fault)),
                text,
            });
        }
    };
    match verify(alloc, image) {
        Ok(verified) => {
            let text = bounds_of(alloc, &verified, form)?;
            Ok(Checked {
                verified: true,
                refusal: None,
                text,
            })
        }
        Err(fault) => {
            if is_memory(fault.cause) {
                return Err(AllocError);
            }
            let text = faults_of(alloc, bytes, source, form)?;
            Ok(Checked {
                verified: false,
                refusal: Some(CheckFault::Verify(fault)),
                text,
            })
        }
    }
}

// Whether memory ran out.
fn is_memory(cause: VerifyCause) -> bool
    ensures { IsTrue result ↔ cause ≡ Memory }
{
    matches!(cause, VerifyCause::Memory)
}

// A line for each function: its number and its bound.
fn bounds_of(alloc: Global, verified: &Verified, form: Form) -> Result<String, AllocError> {
    let mut out = Teller::new(alloc);
    match form {
        Form::Lines => {
            for f in 0..verified.image().functions() {
                out.say("{} {}\n", &[Name::Usize(f), Name::U64(verified.bound(f))]);
            }
        }
        Form::Json(file) => {
            out.say(
                "{\"file\":{},\"verified\":true,\"bounds\":[",
                &[Name::Json(file)],
            );
            tell_bounds(&mut out, verified);
        }
    }
    out.finish()
}

fn tell_bounds(out: &mut Teller, verified: &Verified) {
    for f in 0..verified.image().functions() {
        out.say("{}{}", &[comma(f), Name::U64(verified.bound(f))]);
    }
    let main = verified.bound(usize::from(verified.image().entry()));
    out.say(
        "],\"above_limit\":{},\"faults\":[]}\n",
        &[Name::Bool(main > MOST_EVENTS)],
    );
}

// The first fault of each function that has one.
fn faults_of(
    alloc: Global,
    bytes: &[u8],
    source: Option<&str>,
    form: Form,
) -> Result<String, AllocError> {
    let Ok(image) = ImageView::read(alloc, bytes) else {
        return Err(AllocError);
    };
    let mut out = Teller::new(alloc);
    begin(&mut out, form);
    match source {
        None => tell_faults(&mut out, &image, None, form),
        Some(text) => match Source::read(alloc, text) {
            Ok(source) => tell_faults(&mut out, &image, Some(&source), form),
            Err(_) => out.fail(),
        },
    }
    end(&mut out, form);
    out.finish()
}

fn tell_faults<'a>(
    out: &mut Teller,
    image: &'a ImageView<'a>,
    source: Option<&'a Source<'a>>,
    form: Form,
) {
    let mut bounds = Vec::new(out.alloc());
    let mut told: usize = 0;
    for f in 0..image.functions() {
        match next_finding(out.alloc(), image, &mut bounds) {
            Ok(Some(finding)) => {
                if tell_finding(out, Site::new(image, source, f), form, told, &finding) {
                    told = told.saturating_add(1);
                }
            }
            Ok(None) => return,
            Err(_) => return out.fail(),
        }
        if told > MOST_FAULTS {
            return;
        }
    }
}

// The fault that is found of a function, behind so many others, and whether there is one.
fn tell_finding(
    out: &mut Teller,
    site: Option<Site>,
    form: Form,
    told: usize,
    finding: &Finding,
) -> bool {
    let (Some(site), Some(fault)) = (site, finding.fault) else {
        return false;
    };
    match form {
        Form::Lines if told >= MOST_FAULTS => {
            out.say("and there are faults of more functions\n", &[]);
        }
        Form::Lines => {
            let head = head(out.alloc(), site.image, fault);
            out.take(head);
            if let Some(source) = site.source
                && let Some((number, line)) = source.line_of(site.f, usize::from(fault.pc))
            {
                out.say("{}", &[Name::Line(number, line)]);
            }
            explained(out, site, &finding.flow, fault);
        }
        Form::Json(file) if told < MOST_FAULTS => {
            out.say("{}", &[comma(told)]);
            tell_verify(out, file, site, &finding.flow, fault);
        }
        Form::Json(_) => {}
    }
    true
}
