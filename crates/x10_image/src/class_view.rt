ghost use Rattle.std.specs.Prelude.{◌≡◌, ◌+◌, ◌*◌, ◌<◌, List, ◌∷◌, [], length, Some, slice_get, slice_index};
ghost use Rattle.std.specs.Int.{w16, from_be_bytes};
ghost use Rattle.x10_image.specs.Parts.{kind_with};

use std::marker::Model;
use x10_kinds::Kind;

/// The kinds of a class's fields, in the image's bytes. Clauses see the list of the kinds.
#[derive(Debug, Drop)]
pub struct ClassView<'a> {
    pub(crate) kinds: &'a [u8],
}

impl<'a> Model for ClassView<'a> {
    ghost use Rattle.std.specs.Prelude.{List, ◌≡◌, ◌*◌, length};
    ghost use Rattle.x10_kinds.specs.declared.kind.Kind.{Kind};
    ghost use Rattle.x10_image.specs.Parts.{kinds_in};

    ghost Value = { List Kind };

    ghost view = { λ a. kinds_in a.kinds.now };

    ghost invariant = { λ a. length a.kinds.now ≡ 3 * length (kinds_in a.kinds.now) };
}

/// The kind with a tag that some kind has.
pub fn known_kind(tag: u8, class: u16) -> Kind
    ensures { result ≡ kind_with tag class }
{
    match tag {
        0 | 1 => Kind::Int,
        2 => Kind::Place,
        3 => Kind::Text,
        4 => Kind::Rail,
        5 => Kind::Obj(class),
        6 => Kind::Opt(class),
        _ => Kind::GRef(class),
    }
}

/// The kind that the three bytes from `at` on spell.
pub fn kind_in(bytes: &[u8], at: usize) -> Kind
    requires { at + 2 < length bytes.now }
    ensures { result ≡ kind_with (slice_index bytes.now at)
        (from_be_bytes w16 (slice_index bytes.now (at + 1) ∷ slice_index bytes.now (at + 2) ∷ [])) }
{
    known_kind(
        bytes[at],
        u16::from_be_bytes([bytes[at + 1], bytes[at + 2]]),
    )
}

impl<'a> ClassView<'a> {
    /// How many fields the class has. Constant time.
    pub fn len(&self) -> usize
        ensures value { result ≡ length self.now }
    {
        self.kinds.len() / 3
    }

    /// The kind of a field. Constant time.
    pub fn field(&self, i: usize) -> Kind
        requires { i < length self.now }
        ensures value { slice_get self.now i ≡ Some result }
    {
        kind_in(self.kinds, 3 * i)
    }
}
