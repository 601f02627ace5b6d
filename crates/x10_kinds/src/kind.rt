ghost use Rattle.std.specs.Prelude.{◌≡◌, ◌↔◌, IsTrue};
ghost use Rattle.x10_kinds.specs.Kinds.{Fits, meet_of};

/// What a register, a field, a parameter or a result holds. Classes are numbered from 0 in their module.
#[derive(Clone, Copy, Debug, PartialEq, Eq)]
pub enum Kind {
    /// A 64-bit two's complement number.
    Int,
    /// The number of a place.
    Place,
    /// A text, which never changes.
    Text,
    /// Bytes that can be changed.
    Rail,
    /// An object of the class, never null.
    Obj(u16),
    /// An object of the class, or null.
    Opt(u16),
    /// A global reference to an object of the class (X10 2.2, chapter Places, `GlobalRef`).
    GRef(u16),
}

/// Whether a value of kind `have` may be used where a `want` is asked for: the kinds are the same, or the object of a class is
/// used where an object of that class or null is asked for.
pub fn fits(have: Kind, want: Kind) -> bool
    ensures { IsTrue result ↔ Fits have want }
{
    match (have, want) {
        (Kind::Obj(class), Kind::Opt(wanted)) => class == wanted,
        _ => have == want,
    }
}

/// The least kind that both kinds fit: a register that has one of them on one path and the other on another path has this one
/// where the paths meet. There is none for kinds that have no value in common.
pub fn meet(a: Kind, b: Kind) -> Option<Kind>
    ensures { result ≡ meet_of a b }
{
    match (a, b) {
        (Kind::Obj(class), Kind::Opt(other)) | (Kind::Opt(class), Kind::Obj(other))
            if class == other => { Some(Kind::Opt(class)) }
        _ if a == b => Some(a),
        _ => None,
    }
}
