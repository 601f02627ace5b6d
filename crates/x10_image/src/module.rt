use x10_code::Instr;
use x10_kinds::Kind;
use x10_model::{ImageVersion, Slot};

/// A module to be written. The verifier, not this type, says what it may do.
#[derive(Debug, Drop)]
pub struct Module {
    /// The version of its image.
    pub version: ImageVersion,
    /// The least number of places that it asks for, 1 to 64.
    pub least_places: u16,
    /// The kinds of each class's fields, at most 16 fields.
    pub classes: Vec<Vec<Kind>>,
    /// The constant numbers.
    pub ints: Vec<i64>,
    /// The constant texts, of at most 65,535 bytes.
    pub texts: Vec<String>,
    /// The functions, 1 to 256.
    pub functions: Vec<Function>,
    /// The number of the function that a run begins with.
    pub entry: u16,
}

/// A function to be written.
#[derive(Debug, Drop)]
pub struct Function {
    /// What it takes, at most 16 parameters.
    pub parameters: Vec<Slot>,
    /// How many registers it has: 1 to 64, and at least one for each parameter.
    pub registers: u8,
    /// How many loop slots it has, at most 8.
    pub loops: u8,
    /// What it gives, if it gives anything.
    pub result: Option<Slot>,
    /// Its instructions, 1 to 4,096.
    pub code: Vec<Instr>,
}
