//! A module that was verified, for as long as the program runs.
ghost use Rattle.std.specs.Prelude.{◌≡◌};

use std::marker::Model;
use x10_verify::Verified;

/// A verified module. It stays in memory to the end of the program, since places borrow it.
#[derive(Drop)]
pub struct Module {
    verified: &'static Verified<'static>,
}

impl Model for Module {
    ghost use Rattle.x10_verify.specs.Certified.{Certified};

    ghost Value = { Certified };

    ghost view = { λ a. a.verified.now };
}

impl Module {
    /// A module that stays.
    pub fn new(verified: &'static Verified<'static>) -> Module
        ensures { result ≡ verified.now }
    {
        Module { verified }
    }

    /// The module that was verified.
    pub fn verified(&self) -> &'static Verified<'static>
        ensures { result.now ≡ self.now }
    {
        self.verified
    }
}
