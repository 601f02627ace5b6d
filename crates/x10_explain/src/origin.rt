//! Where what is known of a register comes from.

use crate::lack::{Inquiry, Lack, are_same, row_of};
use crate::teller::{Name, Teller};
use crate::verify::tell_known;
use std::alloc::{AllocError, Global};
use x10_code::{Effect, Instr, Operand, Outcome, form, goes_on};
use x10_kinds::Term;

/// Where what is known of a register, or of two, was settled last.
#[derive(Clone, Copy)]
enum Origin {
    /// Where the function begins.
    Entry,
    /// At an instruction that writes the register.
    Written(usize, u8),
    /// At an instruction that writes the register on going on alone, and went elsewhere.
    Skipped(usize),
    /// Where ways meet.
    Meets(usize),
}

/// How the flow comes to an instruction.
#[derive(Clone, Copy)]
enum Way {
    /// It is where the function begins, and nothing else leads there.
    Entry,
    /// From the instruction before it alone.
    Next(usize),
    /// By one jump alone.
    Jump(usize),
    /// By several ways, or by none.
    Several,
}

/// What is asked of a register: to be set to some kind, or to have its home at the place of a term.
#[derive(Clone, Copy)]
struct Question {
    register: u8,
    at: Option<Term>,
    /// Whether the register isn't set.
    is_unset: bool,
}

/// The jumps that the flow takes to an instruction: how many, and from where the first of them goes.
#[derive(Clone, Copy)]
struct Arrived {
    count: usize,
    first: usize,
}

/// The greatest number of ways that are shown.
const MOST_WAYS: usize = 3;

/// Tells where the register of what is missing got what it has. Returns whether that is where ways meet. Linear in the function's
/// instructions; 16 bytes for each.
pub(crate) fn tell_origin(out: &mut Teller, inquiry: &Inquiry, lack: Lack) -> bool {
    let Some(register) = lack.register() else {
        return false;
    };
    let question = Question {
        register,
        at: match lack {
            Lack::Home(_, at, _) => Some(at),
            _ => None,
        },
        is_unset: inquiry.kind(register).is_none(),
    };
    let Ok(origin) = origin_of(out.alloc(), inquiry, question) else {
        out.fail();
        return false;
    };
    match origin {
        Origin::Entry => tell_entry(out, inquiry, question),
        Origin::Written(pc, register) => out.say(
            "{} was written last in {}",
            &[Name::Register(register), inquiry.site.at(pc)],
        ),
        Origin::Skipped(pc) => out.say(
            "{} is written only on going on, and not on the way to a label, by {}",
            &[Name::Register(register), inquiry.site.at(pc)],
        ),
        Origin::Meets(pc) => tell_ways(out, inquiry, pc, question),
    }
    matches!(origin, Origin::Meets(_))
}

// Whether an instruction goes to another one than the next.
fn jumps(instr: Instr) -> bool {
    matches!(form(instr.op).x, Operand::Target)
}

// The jumps to each instruction of the function.
fn arrivals(alloc: Global, inquiry: &Inquiry) -> Result<Vec<Arrived>, AllocError> {
    let none = Arrived { count: 0, first: 0 };
    let mut arrivals = vec![in alloc; none; inquiry.site.len()]?;
    for pc in 0..inquiry.site.len() {
        if let Some(instr) = inquiry.site.instr(pc)
            && inquiry.flow.is_reached(pc)
            && jumps(instr)
            && let Some(arrived) = arrivals.get_mut(instr.x as usize)
        {
            if arrived.count == 0 {
                arrived.first = pc;
            }
            arrived.count = arrived.count.saturating_add(1);
        }
    }
    Ok(arrivals)
}

// Back along the only way that leads to the instruction.
fn origin_of(alloc: Global, inquiry: &Inquiry, question: Question) -> Result<Origin, AllocError> {
    let arrivals = arrivals(alloc, inquiry)?;
    let mut at = inquiry.pc;
    for _ in 0..arrivals.len() {
        match way_into(inquiry, &arrivals, at) {
            Way::Entry => return Ok(Origin::Entry),
            Way::Several => return Ok(Origin::Meets(at)),
            Way::Jump(from) => {
                if question.is_unset && settles(inquiry, from, question).is_some() {
                    return Ok(Origin::Skipped(from));
                }
                at = from;
            }
            Way::Next(from) => {
                if let Some(register) = settles(inquiry, from, question) {
                    return Ok(Origin::Written(from, register));
                }
                at = from;
            }
        }
    }
    Ok(Origin::Meets(at))
}

// How the flow comes to an instruction.
fn way_into(inquiry: &Inquiry, arrivals: &[Arrived], pc: usize) -> Way {
    let falls = before(inquiry, pc).is_some();
    match arrivals.get(pc) {
        Some(Arrived { count: 0, .. }) if pc == 0 => Way::Entry,
        Some(Arrived { count: 0, .. }) if falls => Way::Next(pc.saturating_sub(1)),
        Some(Arrived { count: 1, first }) if pc > 0 && !falls => Way::Jump(*first),
        _ => Way::Several,
    }
}

// The instruction before one, where the flow goes on from there.
fn before(inquiry: &Inquiry, pc: usize) -> Option<Instr> {
    if pc == 0 || !inquiry.flow.is_reached(pc - 1) {
        return None;
    }
    inquiry.site.instr(pc - 1).filter(|instr| goes_on(instr.op))
}

// The register of a question that an instruction writes, if it writes one.
fn settles(inquiry: &Inquiry, pc: usize, question: Question) -> Option<u8> {
    let instr = inquiry.site.instr(pc)?;
    let register = instr.a;
    let is_asked = register == question.register
        || matches!(question.at, Some(Term::Reg(place)) if place == register);
    if is_asked && writes(inquiry, instr) {
        Some(register)
    } else {
        None
    }
}

// Whether an instruction writes register a on going on.
fn writes(inquiry: &Inquiry, instr: Instr) -> bool {
    let Some(rule) = row_of(instr) else {
        return false;
    };
    match rule.outcome {
        Outcome::Calls(_) => match inquiry.site.callee(instr) {
            Some(signature) => signature.result().is_some(),
            None => false,
        },
        Outcome::Fixed(Effect::Sets(..)) | Outcome::Copies | Outcome::Makes | Outcome::Gets => true,
        Outcome::Unwraps | Outcome::Locates | Outcome::Exports | Outcome::Opens => true,
        _ => false,
    }
}

// A register that nothing has written since the function began.
fn tell_entry(out: &mut Teller, inquiry: &Inquiry, question: Question) {
    let signature = inquiry.site.signature();
    let register = Name::Register(question.register);
    let n = usize::from(question.register);
    let count = signature.parameters();
    if n < count {
        let slot = signature.parameter(n);
        let end = if question.at.is_some() && !slot.home_here {
            ", without `here`"
        } else {
            ""
        };
        return out.say(
            "{} came in as a parameter,{}{}.\n",
            &[register, Name::Slot(slot), Name::Word(end)],
        );
    }
    out.say(
        "Nothing on the way here writes {}, and this function has ",
        &[register],
    );
    match count {
        0 => out.say("no parameters.\n", &[]),
        1 => out.say("1 parameter, in r0.\n", &[]),
        _ => out.say(
            "{} parameters, in r0 to r{}.\n",
            &[Name::Usize(count), Name::Usize(count - 1)],
        ),
    }
}

// What is known on the ways that meet at an instruction.
fn tell_ways(out: &mut Teller, inquiry: &Inquiry, pc: usize, question: Question) {
    out.say("Ways meet in {}", &[inquiry.site.at(pc)]);
    let mut told: usize = 0;
    if let Some(instr) = before(inquiry, pc) {
        tell_way_on(out, inquiry, pc.saturating_sub(1), instr, question);
        told = 1;
    }
    for from in 0..inquiry.site.len() {
        let leads = match inquiry.site.instr(from) {
            Some(instr) => jumps(instr) && instr.x as usize == pc,
            None => false,
        };
        if !leads || !inquiry.flow.is_reached(from) {
            continue;
        }
        if told >= MOST_WAYS {
            return out.say("  and more ways\n", &[]);
        }
        tell_way(out, inquiry, from, question, false);
        told = told.saturating_add(1);
    }
}

// What is known on going on from an instruction.
fn tell_way_on(out: &mut Teller, inquiry: &Inquiry, from: usize, instr: Instr, question: Question) {
    if let Some(register) = settles(inquiry, from, question) {
        return out.say(
            "  {} is written in {}",
            &[Name::Register(register), inquiry.site.at(from)],
        );
    }
    tell_way(
        out,
        inquiry,
        from,
        question,
        learns(inquiry, from, instr, question),
    );
}

// Whether an instruction finds out, on going on, that the home that is asked for is where it has to be.
fn learns(inquiry: &Inquiry, pc: usize, instr: Instr, question: Question) -> bool {
    let (Some(at), Some(rule)) = (question.at, row_of(instr)) else {
        return false;
    };
    let (left, right) = match rule.outcome {
        Outcome::FindsHere => (Term::Reg(instr.a), Term::Here),
        Outcome::FindsSame => (Term::Reg(instr.a), Term::Reg(instr.b)),
        _ => return false,
    };
    let home = Term::Reg(question.register);
    let same = |one, other| are_same(inquiry.flow, pc, one, other);
    (same(home, left) && same(right, at)) || (same(home, right) && same(left, at))
}

// What is known before an instruction, or learnt by it, and the instruction.
fn tell_way(out: &mut Teller, inquiry: &Inquiry, from: usize, question: Question, learnt: bool) {
    let register = question.register;
    match question.at {
        None => {
            out.say("  ", &[]);
            tell_known(out, register, inquiry.flow.kind(from, register));
        }
        Some(at) => {
            let known = learnt || are_same(inquiry.flow, from, Term::Reg(register), at);
            let is = if known { "is known" } else { "isn't known" };
            out.say(
                "  the home of {} {} to be {}",
                &[Name::Register(register), Name::Word(is), Name::Place(at)],
            );
        }
    }
    out.say(" on the way from {}", &[inquiry.site.at(from)]);
}
