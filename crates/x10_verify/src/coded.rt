//! Kinds as numbers, so that rows of them are compared without branches: the case below, the class above.
ghost use Rattle.std.specs.Prelude.{◌≡◌, ◌↔◌, IsTrue};
ghost use Rattle.x10_verify.specs.Known.{kind_coded};

use x10_kinds::Kind;

/// The kinds of the 64 registers, each as its number.
pub(crate) type Kinds = [u32; 64];

/// What a class is multiplied by.
const CLASS: u32 = 65_536;

/// The number of a kind, or of none.
#[tactic(auto, unfolding(crate::specs::Known::kind_coded))]
pub(crate) fn encode(kind: Option<Kind>) -> u32
    ensures { kind_coded result ≡ kind }
{
    match kind {
        None => 0,
        Some(Kind::Int) => 1,
        Some(Kind::Place) => 2,
        Some(Kind::Text) => 3,
        Some(Kind::Rail) => 4,
        Some(Kind::Obj(class)) => 5 + CLASS * u32::from(class),
        Some(Kind::Opt(class)) => 6 + CLASS * u32::from(class),
        Some(Kind::GRef(class)) => 7 + CLASS * u32::from(class),
    }
}

/// The kind that a number stands for, or none.
#[tactic(auto, unfolding(crate::specs::Known::kind_coded))]
pub(crate) fn decode(number: u32) -> Option<Kind>
    ensures { result ≡ kind_coded number }
{
    let class = (number / CLASS) as u16;
    match number % CLASS {
        0 => None,
        1 => Some(Kind::Int),
        2 => Some(Kind::Place),
        3 => Some(Kind::Text),
        4 => Some(Kind::Rail),
        5 => Some(Kind::Obj(class)),
        6 => Some(Kind::Opt(class)),
        _ => Some(Kind::GRef(class)),
    }
}

/// Whether two rows are the same: one pass without branches.
pub(crate) fn is_same_row(one: &Kinds, other: &Kinds) -> bool
    ensures { IsTrue result ↔ one.now ≡ other.now }
{
    let mut same = true;
    for register in 0..64 {
        same &= one[register] == other[register];
    }
    same
}
