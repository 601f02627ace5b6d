//! A field of an image that is wrong.

ghost use Rattle.std.specs.Prelude.{◌≡◌};

use crate::fault::ImageFault;

/// What a field of an image says.
#[derive(Clone, Copy, Debug, PartialEq, Eq)]
pub enum Meaning {
    /// The whole header.
    Header,
    Magic,
    Version,
    /// The least number of places.
    Places,
    /// How many functions there are.
    Functions,
    /// A number that has to be 0.
    Zero,
    /// How many fields a class has.
    Fields,
    /// All fields of a class.
    FieldKinds,
    /// The kind of a field, by its number.
    FieldKind(u16),
    /// A constant number, by its number.
    Int(u16),
    /// How many bytes a text has.
    TextLength,
    /// The bytes of a text.
    TextBytes,
    /// What a function begins with: four bytes.
    Head,
    /// How many parameters a function has.
    Parameters,
    /// How many registers a function has.
    Registers,
    /// How many loop slots a function has.
    Loops,
    /// The parameters and the result of a function.
    Kinds,
    /// A parameter, by its number.
    Parameter(u16),
    /// The result of a function.
    Result,
    /// How many instructions a function has, and two zeros.
    Count,
    /// How many instructions a function has.
    Instructions,
    /// The instructions of a function.
    Code,
    /// An instruction, by its number.
    Instruction(u16),
}

/// A field that is wrong.
#[derive(Clone, Copy, Debug)]
pub struct Field<'a> {
    pub meaning: Meaning,
    pub fault: ImageFault,
    /// How many bytes it has; where they aren't there it is short.
    pub width: usize,
    /// The bytes from the field on.
    pub rest: &'a [u8],
}

impl From<Field<'_>> for ImageFault {
    ghost from_gives = { λ field fault. fault ≡ field.fault };

    fn from(field: Field<'_>) -> ImageFault {
        field.fault
    }
}

/// A field that is wrong.
pub fn wrong<'a>(meaning: Meaning, width: usize, rest: &'a [u8], fault: ImageFault) -> Field<'a>
    ensures { result.fault ≡ fault }
{
    Field {
        meaning,
        fault,
        width,
        rest,
    }
}

/// What was read of a field. Where it is wrong, the function that asks for it returns with it as its error.
macro_rules! read {
    ($meaning:expr, $width:expr, $rest:expr, $found:expr) => {
        match $found {
            Ok(value) => value,
            Err(fault) => {
                return Err(Field {
                    meaning: $meaning,
                    fault,
                    width: $width,
                    rest: $rest,
                });
            }
        }
    };
}

pub(crate) use read;
