ghost use Rattle.std.specs.Prelude.{◌≡◌, Option, Some};

/// What a reader of some format answers where the bytes aren't what it reads.
pub trait ReadFault: Copy {
    /// The faults of the format's definition.
    ghost Fault: { Type 0 };

    /// The fault that a value stands for, if it is one of the bytes.
    ghost named: { Self → Option Fault };

    /// That the bytes end inside a part.
    ghost short: { Fault };

    fn too_short() -> Self
        ensures { named result ≡ Some short };
}
