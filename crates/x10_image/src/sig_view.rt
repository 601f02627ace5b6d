ghost use Rattle.std.specs.Prelude.{◌≡◌, ◌+◌, ◌<◌, length, Some, slice_get};
ghost use Rattle.x10_image.specs.Parts.{slot_at};

use crate::class_view::kind_in;
use std::marker::Model;
use x10_model::Slot;

/// What a function takes, gives and needs, from the image's bytes. Clauses see the `Signature`.
#[derive(Debug, Drop)]
pub struct SigView<'a> {
    pub(crate) slots: &'a [u8],
    pub(crate) registers: u8,
    pub(crate) loops: u8,
    pub(crate) result: Option<Slot>,
}

impl<'a> Model for SigView<'a> {
    ghost use Rattle.std.specs.Prelude.{◌≡◌, ◌*◌, length};
    ghost use Rattle.x10_image.specs.Parts.{Signature, slots_in};

    ghost Value = { Signature };

    ghost view = { λ a. record { parameters = slots_in a.slots.now; registers = a.registers; loops = a.loops; result = a.result } };

    ghost invariant = { λ a. length a.slots.now ≡ 4 * length (slots_in a.slots.now) };
}

/// The slot that the four bytes from `at` on spell.
pub fn slot_in(bytes: &[u8], at: usize) -> Slot
    requires { at + 3 < length bytes.now }
    ensures { result ≡ slot_at bytes.now at }
{
    Slot {
        kind: kind_in(bytes, at),
        home_here: bytes[at + 3] == 1,
    }
}

impl<'a> SigView<'a> {
    /// How many parameters the function has, at most 16. Constant time, like all that follow.
    pub fn parameters(&self) -> usize
        ensures value { result ≡ length self.now.parameters }
    {
        self.slots.len() / 4
    }

    /// What a parameter is.
    pub fn parameter(&self, i: usize) -> Slot
        requires { i < length self.now.parameters }
        ensures value { slice_get self.now.parameters i ≡ Some result }
    {
        slot_in(self.slots, 4 * i)
    }

    /// What the function gives, if it gives anything.
    pub fn result(&self) -> Option<Slot>
        ensures value { result ≡ self.now.result }
    {
        self.result
    }

    /// How many registers it has.
    pub fn registers(&self) -> u8
        ensures value { result ≡ self.now.registers }
    {
        self.registers
    }

    /// How many loop slots it has.
    pub fn loops(&self) -> u8
        ensures value { result ≡ self.now.loops }
    {
        self.loops
    }
}
