//! Why the verifier refuses a module.
ghost use Rattle.std.specs.Prelude.{◌≡◌, ◌++◌, List, ℕ, IfOk};
ghost use Rattle.std.specs.String.{string_bytes};
ghost use Rattle.x10_explain.specs.Heads.{head_line, placed};

use crate::caret::first_column;
use crate::head::{head, push_place};
use crate::index::tell_index;
use crate::lack::{Inquiry, Lack, Role, lack_of_fault};
use crate::origin::tell_origin;
use crate::regions::tell_structure;
use crate::repair::tell_repair;
use crate::site::Site;
use crate::source::Source;
use crate::teller::{Name, Teller};
use std::alloc::{AllocError, Global};
use x10_code::name;
use x10_image::ImageView;
use x10_kinds::Kind;
use x10_verify::{Flow, VerifyCause, VerifyFault};

/// Why the verifier refuses a module, in at most 10 lines: the rule, the function and the instruction, as the listing writes
/// it; what the rule asks, of which register or operand; what the verifier knows there, and where that comes from. A fault that
/// isn't this module's is explained by its first line. The states are those of the verifier, so the time is that of one
/// function's flow, and as much memory.
pub fn explain_verify(
    alloc: Global,
    image: &ImageView,
    fault: VerifyFault,
) -> Result<String, AllocError>
    ensures { IfOk result (λ s. (rest : List ℕ)
        × (string_bytes s ≡ head_line image.now fault ++ rest)) }
{
    let mut out = head(alloc, image, fault)?;
    let rest = reasons(alloc, image, None, fault)?;
    out.push_str(&rest)?;
    Ok(out)
}

/// The same of a module that was read from a text: the text's name, the line and the column of the instruction come first, in
/// the form that editors jump to, `first.asm:6:3: `; and other instructions are named by their lines.
pub fn explain_verify_in(
    alloc: Global,
    image: &ImageView,
    name: &str,
    text: &str,
    fault: VerifyFault,
) -> Result<String, AllocError>
    ensures { IfOk result (λ s. (line : ℕ) × (column : ℕ) × (rest : List ℕ)
        × (string_bytes s ≡ placed name.now line column ++ (head_line image.now fault ++ rest))) }
{
    let source = Source::read(alloc, text)?;
    let (line, column) = place_in(&source, fault);
    let mut out = String::new(alloc);
    push_place(&mut out, name, line, column)?;
    let head = head(alloc, image, fault)?;
    out.push_str(&head)?;
    let rest = reasons(alloc, image, Some(&source), fault)?;
    out.push_str(&rest)?;
    Ok(out)
}

/// The line and the column of a faulty instruction in a text; the first ones where the fault isn't this text's.
pub(crate) fn place_in(source: &Source, fault: VerifyFault) -> (usize, usize) {
    match source.line_of(usize::from(fault.function), usize::from(fault.pc)) {
        None => (1, 1),
        Some((number, line)) => (number, first_column(line)),
    }
}

// What comes below the first line.
fn reasons(
    alloc: Global,
    image: &ImageView,
    source: Option<&Source>,
    fault: VerifyFault,
) -> Result<String, AllocError> {
    let mut out = Teller::new(alloc);
    if let Some(site) = Site::new(image, source, usize::from(fault.function)) {
        if is_of_flow(fault.cause) {
            match site.flow(alloc) {
                Ok(flow) => {
                    tell_flow(&mut out, site, &flow, fault);
                }
                Err(_) => out.fail(),
            }
        } else {
            tell_rule(&mut out, site, fault);
        }
    }
    out.finish()
}

// Whether a fault is one of what is known in a function, for which the states are wanted.
fn is_of_flow(cause: VerifyCause) -> bool {
    matches!(
        cause,
        VerifyCause::Unset | VerifyCause::Kind | VerifyCause::Home | VerifyCause::Result
    )
}

/// Where the sentences on a fault of what is known in a function stand in its explanation: what is asked, what is known of that,
/// where it comes from, and how it is usually put right. Each may be empty.
#[derive(Clone, Copy)]
pub(crate) struct Parts {
    pub(crate) asked: (usize, usize),
    pub(crate) known: (usize, usize),
    pub(crate) origin: (usize, usize),
    pub(crate) repair: (usize, usize),
}

/// Tells what comes below the first line, by what is known of the function.
pub(crate) fn explained(out: &mut Teller, site: Site, flow: &Flow, fault: VerifyFault) -> Parts {
    if is_of_flow(fault.cause) {
        return tell_flow(out, site, flow, fault);
    }
    tell_rule(out, site, fault);
    NO_PARTS
}

/// An explanation that says none of this.
pub(crate) const NO_PARTS: Parts = Parts {
    asked: (0, 0),
    known: (0, 0),
    origin: (0, 0),
    repair: (0, 0),
};

// What a rule says that isn't of what is known.
fn tell_rule(out: &mut Teller, site: Site, fault: VerifyFault) {
    let pc = usize::from(fault.pc);
    let Some(instr) = site.instr(pc) else {
        return;
    };
    match fault.cause {
        VerifyCause::Structure(cause) => tell_structure(out, site, cause, pc, instr),
        VerifyCause::Index => tell_index(out, &site, instr),
        VerifyCause::Memory => out.say("There was no memory to look at the module.\n", &[]),
        VerifyCause::Unset | VerifyCause::Kind | VerifyCause::Home | VerifyCause::Result => {}
    }
}

// What is asked, what is known of it, where that comes from, and how it is put right.
fn tell_flow(out: &mut Teller, site: Site, flow: &Flow, fault: VerifyFault) -> Parts {
    let pc = usize::from(fault.pc);
    let Some(instr) = site.instr(pc) else {
        return NO_PARTS;
    };
    let inquiry = Inquiry {
        site,
        flow,
        pc,
        instr,
    };
    let Some(lack) = lack_of_fault(&inquiry, fault.cause) else {
        out.say(
            "What is known there meets the rule: the fault isn't this module's.\n",
            &[],
        );
        return NO_PARTS;
    };
    let start = out.len();
    tell_asked(out, &inquiry, lack);
    let asked = (start, out.len());
    let known = tell_found(out, &inquiry, lack);
    out.say(".\n", &[]);
    let start = out.len();
    let meets = tell_origin(out, &inquiry, lack);
    let origin = (start, out.len());
    tell_repair(out, &inquiry, lack, meets);
    let repair = (origin.1, out.len());
    Parts {
        asked,
        known,
        origin,
        repair,
    }
}

// What is asked.
fn tell_asked(out: &mut Teller, inquiry: &Inquiry, lack: Lack) {
    let instr = inquiry.instr;
    let (op, c, x) = (
        Name::Word(name(instr.op)),
        Name::U8(instr.c),
        Name::U32(instr.x),
    );
    match lack {
        Lack::Register(register, want, role) => {
            out.say(
                "{} asks that {} is{}",
                &[op, Name::Register(register), Name::Want(want)],
            );
            tell_role(out, inquiry, role);
        }
        Lack::NoField(register, _) => out.say(
            "{} asks for field {} of the object in {}",
            &[op, c, Name::Register(register)],
        ),
        Lack::Home(register, at, role) => {
            out.say(
                "{} asks that the home of {} is {}",
                &[op, Name::Register(register), Name::Place(at)],
            );
            tell_role(out, inquiry, role);
        }
        Lack::NoResult => out.say("{} has no result here, so its first number is 0", &[op]),
        Lack::Dropped => out.say(
            "{} starts an activity with function {}, whose result nothing would take: it may give none",
            &[op, x],
        ),
        Lack::LeadsOut => out.say("The function goes on past its last instruction", &[]),
    }
}

// What is known of what is asked, where it is of something that the verifier knows something of; and which bytes say so.
fn tell_found(out: &mut Teller, inquiry: &Inquiry, lack: Lack) -> (usize, usize) {
    if matches!(lack, Lack::Dropped | Lack::LeadsOut) {
        return (0, 0);
    }
    out.say("; ", &[]);
    let start = out.len();
    match lack {
        Lack::Register(register, ..) => tell_known(out, register, inquiry.kind(register)),
        Lack::NoField(_, class) => {
            let count = match inquiry.site.fields(usize::from(class)) {
                None => 0,
                Some(fields) => fields.len(),
            };
            out.say(
                "its class {} has {} fields, numbered from 0",
                &[Name::U16(class), Name::Usize(count)],
            );
        }
        Lack::NoResult => out.say("it is {}", &[Name::U8(inquiry.instr.a)]),
        _ => out.say("it isn't known to be", &[]),
    }
    (start, out.len())
}

/// What a register is known to be: `r1 is int`, or `r1 isn't set`.
pub(crate) fn tell_known(out: &mut Teller, register: u8, kind: Option<Kind>) {
    let register = Name::Register(register);
    match kind {
        None => out.say("{} isn't set", &[register]),
        Some(kind) => out.say("{} is{}", &[register, Name::Kind(kind)]),
    }
}

// What a register is for.
fn tell_role(out: &mut Teller, inquiry: &Inquiry, role: Role) {
    let x = Name::U32(inquiry.instr.x);
    let slot = match role {
        Role::Operand => None,
        Role::Field(n) => {
            out.say(", for field {} of class {}", &[Name::Usize(n), x]);
            None
        }
        Role::Argument(n) => {
            out.say(", for parameter {} of function {}", &[Name::Usize(n), x]);
            match inquiry.site.callee(inquiry.instr) {
                Some(signature) if n < signature.parameters() => Some(signature.parameter(n)),
                _ => None,
            }
        }
        Role::Result => {
            out.say(", for the function's result", &[]);
            inquiry.site.signature().result()
        }
    };
    if let Some(slot) = slot {
        out.say(", which is{}", &[Name::Slot(slot)]);
    }
}
