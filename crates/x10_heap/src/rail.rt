use std::marker::Model;

/// A row of at most 65,535 bytes that can be changed.
#[derive(Drop)]
pub struct Rail {
    pub(crate) bytes: Vec<u8>,
}

impl Model for Rail {
    ghost use Rattle.std.specs.Prelude.{ℕ, ◌<◌, ◌^◌, List, length};

    ghost Value = { List ℕ };

    ghost view = { λ r. r.bytes.items };

    ghost invariant = { λ r. length r.bytes.items < 2 ^ 16 };
}
