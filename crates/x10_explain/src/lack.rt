//! What an instruction's rule asks for and doesn't find in the verifier's state, the first of it.
ghost use Rattle.std.specs.Prelude.{◌↔◌, IsTrue};
ghost use Rattle.x10_code.specs.Rules.{NamesSmall};
ghost use Rattle.x10_kinds.specs.Equations.{IsTerm};

use crate::site::Site;
use x10_code::{Instr, Operand, Outcome, Rule, form, rule_of};
use x10_kinds::{Kind, Term};
use x10_model::Slot;
use x10_verify::{Flow, VerifyCause, Want, is_met};

/// What a register is asked for.
#[derive(Clone, Copy)]
pub(crate) enum Role {
    /// An operand of the instruction.
    Operand,
    /// An argument, with its number.
    Argument(usize),
    /// A field of a new object, with its number.
    Field(usize),
    /// The result of the function that ends.
    Result,
}

/// What is missing.
#[derive(Clone, Copy)]
pub(crate) enum Lack {
    /// A register isn't what it is asked for.
    Register(u8, Want, Role),
    /// The class of the object in a register has no field c.
    NoField(u8, u16),
    /// The home of the reference in a register isn't known to be the place of a term.
    Home(u8, Term, Role),
    /// A register is named for a result, but there is none.
    NoResult,
    /// An activity would begin with a function that gives something.
    Dropped,
    /// Control leaves the function.
    LeadsOut,
}

/// Where a rule is looked at: an instruction of a function, and what is known before it.
#[derive(Clone, Copy)]
pub(crate) struct Inquiry<'a> {
    pub(crate) site: Site<'a>,
    pub(crate) flow: &'a Flow,
    pub(crate) pc: usize,
    pub(crate) instr: Instr,
}

/// The row of an instruction, where its class or place is one that can exist.
pub(crate) fn row_of(instr: Instr) -> Option<Rule> {
    if is_small(instr) {
        Some(rule_of(instr))
    } else {
        None
    }
}

// Whether a class or a place that an instruction names is one that can exist.
fn is_small(instr: Instr) -> bool
    ensures { IsTrue result → NamesSmall instr }
{
    match form(instr.op).x {
        Operand::Class => instr.x < 65536,
        Operand::Place => instr.x < 64,
        _ => true,
    }
}

/// Whether two terms are known to be the same place before an instruction; false where one is a register or a place that can't
/// exist.
pub(crate) fn are_same(flow: &Flow, pc: usize, one: Term, other: Term) -> bool {
    is_term(one) && is_term(other) && flow.same(pc, one, other)
}

// Whether a term is one that can exist.
fn is_term(term: Term) -> bool
    ensures { IsTrue result ↔ IsTerm term }
{
    match term {
        Term::Here => true,
        Term::Place(place) => place < 64,
        Term::Reg(register) => register < 64,
    }
}

/// The first thing that the rule of an instruction asks for and doesn't find, by the order of the verifier: the kinds of
/// a, b and c, then what its outcome asks. Where there is nothing of it, control leaves the function.
pub(crate) fn first_lack(inquiry: &Inquiry) -> Lack {
    let Some(rule) = row_of(inquiry.instr) else {
        return Lack::LeadsOut;
    };
    let row = [
        (inquiry.instr.a, rule.a),
        (inquiry.instr.b, rule.b),
        (inquiry.instr.c, rule.c),
    ];
    for (register, want) in row {
        if let Some(want) = want
            && let Some(lack) = inquiry.asked(register, Want::Fitting(want))
        {
            return lack;
        }
    }
    inquiry.lack_of(rule.outcome).unwrap_or(Lack::LeadsOut)
}

// The register of an argument, or one that can't exist.
fn argument(first: u8, n: usize) -> u8 {
    if n < 16 {
        first.saturating_add(n as u8)
    } else {
        255
    }
}

impl Inquiry<'_> {
    /// The kind of a register before the instruction.
    pub(crate) fn kind(&self, register: u8) -> Option<Kind> {
        self.flow.kind(self.pc, register)
    }

    // What is missing of an operand.
    fn asked(&self, register: u8, want: Want) -> Option<Lack> {
        self.lacking(register, want, None, Role::Operand)
    }

    // What is missing of a register: its kind, or that its home is the place of a term.
    fn lacking(&self, register: u8, want: Want, home: Option<Term>, role: Role) -> Option<Lack> {
        match self.kind(register) {
            Some(have) if is_met(want, have) => {}
            _ => return Some(Lack::Register(register, want, role)),
        }
        match home {
            Some(at) if !are_same(self.flow, self.pc, Term::Reg(register), at) => {
                Some(Lack::Home(register, at, role))
            }
            _ => None,
        }
    }

    // What is missing of a register that is to fit a slot, whose home is the place of a term where it asks for one.
    fn unfit(&self, register: u8, slot: Slot, at: Term, role: Role) -> Option<Lack> {
        let home = if slot.home_here { Some(at) } else { None };
        self.lacking(register, Want::Fitting(slot.kind), home, role)
    }

    // What is missing of what an outcome asks.
    fn lack_of(&self, outcome: Outcome) -> Option<Lack> {
        let (a, b) = (self.instr.a, self.instr.b);
        match outcome {
            Outcome::Fixed(_) => None,
            Outcome::Copies => self.asked(b, Want::Anything),
            Outcome::Calls(at) | Outcome::Starts(at) => self.called(outcome, at),
            Outcome::Returns => match self.site.signature().result() {
                Some(slot) => self.unfit(a, slot, Term::Here, Role::Result),
                None if a != 0 => Some(Lack::NoResult),
                None => None,
            },
            Outcome::Makes => self.made(),
            Outcome::Gets => self.field(b).err(),
            Outcome::Puts => match self.field(a) {
                Err(lack) => Some(lack),
                Ok(kind) => self.asked(b, Want::Fitting(kind)),
            },
            Outcome::Unwraps => self.asked(b, Want::AnObjectOrNull),
            Outcome::Locates => self.asked(b, Want::AReference),
            Outcome::Exports => self.asked(b, Want::AnObject),
            Outcome::Opens => self.lacking(b, Want::AReference, Some(Term::Here), Role::Operand),
            Outcome::FindsHere => self.asked(a, Want::APlaceOrReference),
            Outcome::FindsSame => self
                .asked(a, Want::APlaceOrReference)
                .or(self.asked(b, Want::APlaceOrReference)),
            Outcome::Prints => self.asked(a, Want::AnIntOrText),
        }
    }

    // CALL and AT, ASYNC and ATA: the place where it goes, the arguments, and the result.
    fn called(&self, outcome: Outcome, at: Term) -> Option<Lack> {
        let signature = self.site.callee(self.instr)?;
        if let Term::Reg(register) = at
            && let Some(lack) = self.asked(register, Want::Fitting(Kind::Place))
        {
            return Some(lack);
        }
        for n in 0..signature.parameters() {
            let register = argument(self.instr.b, n);
            let lack = self.unfit(register, signature.parameter(n), at, Role::Argument(n));
            if lack.is_some() {
                return lack;
            }
        }
        match outcome {
            Outcome::Starts(_) if signature.result().is_some() => Some(Lack::Dropped),
            Outcome::Calls(_) if signature.result().is_none() && self.instr.a != 0 => {
                Some(Lack::NoResult)
            }
            _ => None,
        }
    }

    // NEW.
    fn made(&self) -> Option<Lack> {
        let fields = self.site.fields(self.instr.x as usize)?;
        for n in 0..fields.len() {
            let register = argument(self.instr.b, n);
            let want = Want::Fitting(fields.field(n));
            let lack = self.lacking(register, want, None, Role::Field(n));
            if lack.is_some() {
                return lack;
            }
        }
        None
    }

    // The kind of field c of the object in a register, or what is missing.
    fn field(&self, register: u8) -> Result<Kind, Lack> {
        let Some(Kind::Obj(class)) = self.kind(register) else {
            return Err(Lack::Register(register, Want::AnObject, Role::Operand));
        };
        let at = usize::from(self.instr.c);
        match self.site.fields(usize::from(class)) {
            Some(fields) if at < fields.len() => Ok(fields.field(at)),
            _ => Err(Lack::NoField(register, class)),
        }
    }
}

impl Lack {
    /// The cause with which a fault reports this, where the register has the given kind.
    fn cause(self, have: Option<Kind>) -> VerifyCause {
        match self {
            Lack::Register(..) if have.is_some() => VerifyCause::Kind,
            Lack::Register(..) | Lack::LeadsOut => VerifyCause::Unset,
            Lack::NoField(..) => VerifyCause::Kind,
            Lack::Home(..) => VerifyCause::Home,
            Lack::NoResult | Lack::Dropped => VerifyCause::Result,
        }
    }

    /// The register that it is about.
    pub(crate) fn register(self) -> Option<u8> {
        match self {
            Lack::Register(register, ..) | Lack::NoField(register, _) | Lack::Home(register, ..) =>
                { Some(register) }
            Lack::NoResult | Lack::Dropped | Lack::LeadsOut => None,
        }
    }
}

/// What is missing at an instruction, where that is the cause of a fault there; nothing where the fault isn't this module's.
pub(crate) fn lack_of_fault(inquiry: &Inquiry, cause: VerifyCause) -> Option<Lack> {
    let lack = first_lack(inquiry);
    let have = lack.register().and_then(|register| inquiry.kind(register));
    if inquiry.flow.is_reached(inquiry.pc) && lack.cause(have) == cause {
        Some(lack)
    } else {
        None
    }
}
