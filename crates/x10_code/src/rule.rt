//! The rules as data: what each operation asks of its registers, what it does to what is known, and whether it goes on.
ghost use Rattle.std.specs.Prelude.{◌≡◌};
ghost use Rattle.x10_code.specs.Rules.{NamesSmall, rule_for, goes_on_of};

use crate::instr::Instr;
use crate::op::Op;
use x10_kinds::{Kind, Term};

/// What an instruction does to the state that goes on to the next one.
#[derive(Clone, Copy, Debug, PartialEq, Eq)]
pub enum Effect {
    /// Nothing.
    Keeps,
    /// Register a is written: a value of the kind, at the place of the term or at one that nothing is known of.
    Sets(Kind, Option<Term>),
    /// The two terms are the same place from here on.
    Joins(Term, Term),
}

/// What settles an instruction's effect, and what it asks besides the kinds of its row.
#[derive(Clone, Copy, Debug, PartialEq, Eq)]
pub enum Outcome {
    /// The operation alone.
    Fixed(Effect),
    /// The kind and the place of register b.
    Copies,
    /// The function that is called, at the place of the term.
    Calls(Term),
    /// The result of the function that ends.
    Returns,
    /// The class of which an object is made.
    Makes,
    /// The field that is read.
    Gets,
    /// The field that is written.
    Puts,
    /// The class of the object that register b holds, or null.
    Unwraps,
    /// The global reference in register b.
    Locates,
    /// The object in register b.
    Exports,
    /// The global reference in register b, whose home is here.
    Opens,
    /// The place or the home that register a stands for.
    FindsHere,
    /// The places or homes that registers a and b stand for.
    FindsSame,
    /// The function that a new activity begins with, at the place of the term.
    Starts(Term),
    /// Register a, a number or a text.
    Prints,
}

/// A row of the table: the kinds that registers a, b and c are asked for, and what settles the effect.
#[derive(Clone, Copy, Debug, PartialEq, Eq)]
pub struct Rule {
    pub a: Option<Kind>,
    pub b: Option<Kind>,
    pub c: Option<Kind>,
    pub outcome: Outcome,
}

const INT: Option<Kind> = Some(Kind::Int);

const TEXT: Option<Kind> = Some(Kind::Text);

const RAIL: Option<Kind> = Some(Kind::Rail);

const PLACE: Option<Kind> = Some(Kind::Place);

/// The row of an instruction: what the verifier goes by, and so what those who explain its answer go by. Rows come in order of
/// the registers whose kinds they ask for. Constant time.
pub fn rule_of(instr: Instr) -> Rule
    requires { NamesSmall instr }
    ensures value { result ≡ rule_for instr.op instr }
{
    match instr.op {
        Op::Intk | Op::Count => asks(None, None, None, sets(Kind::Int)),
        Op::Textk => asks(None, None, None, sets(Kind::Text)),
        Op::Null => asks(None, None, None, sets(Kind::Opt(instr.x as u16))),
        Op::Here => asks(None, None, None, sets_place(Term::Here)),
        Op::Placek => asks(None, None, None, sets_place(Term::Place(instr.x as u16))),
        Op::Jmp | Op::Loop | Op::Endl => asks(None, None, None, keeps()),
        Op::Finb | Op::Fine | Op::Atomb | Op::Atome => asks(None, None, None, keeps()),
        Op::Move => asks(None, None, None, Outcome::Copies),
        Op::Call => asks(None, None, None, Outcome::Calls(Term::Here)),
        Op::At => asks(None, None, None, Outcome::Calls(Term::Reg(instr.c))),
        Op::Ret => asks(None, None, None, Outcome::Returns),
        Op::Async => asks(None, None, None, Outcome::Starts(Term::Here)),
        Op::Ata => asks(None, None, None, Outcome::Starts(Term::Reg(instr.c))),
        Op::New => asks(None, None, None, Outcome::Makes),
        Op::Get => asks(None, None, None, Outcome::Gets),
        Op::Put => asks(None, None, None, Outcome::Puts),
        Op::Ifobj => asks(None, None, None, Outcome::Unwraps),
        Op::Home => asks(None, None, None, Outcome::Locates),
        Op::Gnew => asks(None, None, None, Outcome::Exports),
        Op::Gopen => asks(None, None, None, Outcome::Opens),
        Op::Ifhere => asks(None, None, None, Outcome::FindsHere),
        Op::Ifsame => asks(None, None, None, Outcome::FindsSame),
        Op::Print => asks(None, None, None, Outcome::Prints),
        Op::Jz => asks(INT, None, None, keeps()),
        Op::Placen => asks(None, INT, None, sets(Kind::Place)),
        Op::Rail => asks(None, INT, None, sets(Kind::Rail)),
        Op::Tlen => asks(None, TEXT, None, sets(Kind::Int)),
        Op::Rlen => asks(None, RAIL, None, sets(Kind::Int)),
        Op::Placei => asks(None, PLACE, None, sets(Kind::Int)),
        Op::Nextp => asks(None, PLACE, None, sets(Kind::Place)),
        Op::Add | Op::Sub | Op::Mul | Op::Div | Op::Rem => asks(None, INT, INT, sets(Kind::Int)),
        Op::Lt | Op::Eq => asks(None, INT, INT, sets(Kind::Int)),
        Op::Tcat => asks(None, TEXT, TEXT, sets(Kind::Text)),
        Op::Rget => asks(None, RAIL, INT, sets(Kind::Int)),
        Op::Rset => asks(RAIL, INT, INT, keeps()),
    }
}

// A row, by what it asks of registers a, b and c, and what settles its effect.
fn asks(a: Option<Kind>, b: Option<Kind>, c: Option<Kind>, outcome: Outcome) -> Rule
    ensures { result ≡ record { a = a; b = b; c = c; outcome = outcome } }
{
    Rule { a, b, c, outcome }
}

fn keeps() -> Outcome
    ensures { result ≡ Outcome.Fixed Effect.Keeps }
{
    Outcome::Fixed(Effect::Keeps)
}

fn sets(kind: Kind) -> Outcome
    ensures { result ≡ Outcome.Fixed (Effect.Sets kind None) }
{
    Outcome::Fixed(Effect::Sets(kind, None))
}

fn sets_place(term: Term) -> Outcome
    ensures { result ≡ Outcome.Fixed (Effect.Sets Kind.Place (Some term)) }
{
    Outcome::Fixed(Effect::Sets(Kind::Place, Some(term)))
}

/// Whether an instruction may lead to the next one.
pub fn goes_on(op: Op) -> bool
    ensures { result ≡ goes_on_of op }
{
    !matches!(op, Op::Jmp | Op::Ret)
}
