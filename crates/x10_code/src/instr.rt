use crate::op::Op;

/// An instruction: an operation with its operands. Those that its form doesn't use are 0.
#[derive(Clone, Copy, Debug, PartialEq, Eq)]
pub struct Instr {
    pub op: Op,
    pub a: u8,
    pub b: u8,
    pub c: u8,
    pub x: u32,
}

/// Why eight bytes are not an instruction.
#[derive(Clone, Copy, Debug, PartialEq, Eq)]
pub enum CodeFault {
    /// The first byte is not an operation's code.
    UnknownOp,
    /// An operand that the form doesn't use isn't 0.
    UnusedNotZero,
}
