/// What an operand of an instruction names.
#[derive(Clone, Copy, Debug, PartialEq, Eq)]
pub enum Operand {
    /// Nothing: the operand is 0.
    Unused,
    /// A register.
    Register,
    /// The register of a function's result, and 0 where it has none.
    Result,
    /// The first of the registers that hold the arguments or fields, and 0 where there are none.
    Arguments,
    /// A loop slot.
    Slot,
    /// How often a loop turns.
    Count,
    /// A field of an object, from 0.
    Field,
    /// A constant number of the module.
    Int,
    /// A constant text of the module.
    Text,
    /// The number of a place.
    Place,
    /// A class of the module.
    Class,
    /// A function of the module.
    Function,
    /// The number of an instruction in the same function.
    Target,
}

/// What the four operands of an operation name.
#[derive(Clone, Copy, Debug, PartialEq, Eq)]
pub struct Form {
    pub a: Operand,
    pub b: Operand,
    pub c: Operand,
    pub x: Operand,
}
