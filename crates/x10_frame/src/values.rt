ghost use Rattle.std.specs.Prelude.{◌≡◌, ◌<◌, ◌∷◌, length};
ghost use Rattle.x10_frame.specs.Items.{item_of};

use crate::item::Item;
use crate::known::known_item;
use std::marker::Model;
use x10_model::FrameVersion;

/// Values of a frame in its bytes, one after another: those that are passed, or the fields of an object. Clauses see the
/// list of those that are left.
#[derive(Debug, Drop)]
pub struct Values<'a> {
    pub(crate) version: FrameVersion,
    pub(crate) places: u16,
    pub(crate) count: u16,
    pub(crate) bytes: &'a [u8],
}

impl<'a> Model for Values<'a> {
    ghost use Rattle.std.specs.Prelude.{List};
    ghost use Rattle.x10_model.specs.Frames.{Item};

    ghost Value = { List Item };

    ghost use Rattle.x10_frame.specs.Items.{items_in, HasItems};

    ghost view = { λ a. items_in a.version a.places a.count a.bytes.now };

    ghost invariant = { λ a. HasItems a.version a.places a.count a.bytes.now };
}

impl<'a> Values<'a> {
    /// How many are left. Constant time.
    #[inline(always)]
    pub fn left(&self) -> usize
        ensures value { result ≡ length self.now }
    {
        usize::from(self.count)
    }

    /// The next one, which is then no longer among those that are left. Constant time.
    #[inline(always)]
    pub fn step(&mut self) -> Item
        requires { 0 < length self.old }
        ensures { self.old ≡ item_of result ∷ self.new }
    {
        let (item, rest) = known_item(self.bytes, self.version);
        self.bytes = rest;
        self.count -= 1;
        item
    }
}
