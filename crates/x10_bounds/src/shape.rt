ghost use Rattle.std.specs.Prelude.{◌≡◌};
ghost use Rattle.x10_bounds.specs.Shapes.{shape_of, jump_or_other};

use x10_code::{Op, Operand, form};

/// What an operation means for the structure of a function.
#[derive(Clone, Copy, Debug, PartialEq, Eq)]
pub enum Shape {
    Loop,
    EndOfLoop,
    Finish,
    EndOfFinish,
    Atomic,
    EndOfAtomic,
    Return,
    /// Goes to an instruction of the same function, forward.
    Jump,
    /// The steps of the function that it calls are the caller's own.
    Call,
    Other,
}

pub fn classify(op: Op) -> Shape
    ensures { result ≡ shape_of op }
{
    match op {
        Op::Loop => Shape::Loop,
        Op::Endl => Shape::EndOfLoop,
        Op::Finb => Shape::Finish,
        Op::Fine => Shape::EndOfFinish,
        Op::Atomb => Shape::Atomic,
        Op::Atome => Shape::EndOfAtomic,
        Op::Ret => Shape::Return,
        Op::Call | Op::At => Shape::Call,
        _ => jump_or_other(op),
    }
}

fn jump_or_other(op: Op) -> Shape
    ensures { result ≡ jump_or_other op }
{
    match form(op).x {
        Operand::Target => Shape::Jump,
        _ => Shape::Other,
    }
}
