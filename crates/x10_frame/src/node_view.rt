ghost use Rattle.std.specs.Prelude.{◌≡◌, ◌<◌, length, Some, slice_get};
ghost use Rattle.x10_frame.specs.Items.{item_of};

use crate::item::{Item, nth_item};
use crate::values::Values;
use std::marker::Model;
use x10_model::FrameVersion;

/// An object of a frame, in its bytes. Clauses see the node.
#[derive(Debug, Drop)]
pub struct NodeView<'a> {
    pub(crate) version: FrameVersion,
    pub(crate) places: u16,
    pub(crate) class: u16,
    pub(crate) count: u8,
    pub(crate) values: &'a [u8],
}

impl<'a> Model for NodeView<'a> {
    ghost use Rattle.x10_model.specs.Frames.{Node};

    ghost Value = { Node };

    ghost use Rattle.x10_frame.specs.Items.{items_in, HasItems};

    ghost view = { λ a. record { class = a.class; fields = items_in a.version a.places a.count a.values.now } };

    ghost invariant = { λ a. HasItems a.version a.places a.count a.values.now };
}

impl<'a> NodeView<'a> {
    /// The number of the object's class. Constant time.
    #[inline(always)]
    pub fn class(&self) -> u16
        ensures value { result ≡ self.now.class }
    {
        self.class
    }

    /// How many fields the object has. Constant time.
    #[inline(always)]
    pub fn fields(&self) -> usize
        ensures value { result ≡ length self.now.fields }
    {
        usize::from(self.count)
    }

    /// The value of a field. One pass over the fields before it.
    #[inline(always)]
    pub fn field(&self, j: usize) -> Item
        requires { j < length self.now.fields }
        ensures value { slice_get self.now.fields j ≡ Some (item_of result) }
    {
        nth_item(
            self.values,
            self.version,
            self.places,
            u16::from(self.count),
            j,
        )
    }

    /// The fields, from the first on. Constant time.
    #[inline(always)]
    pub fn values(&self) -> Values<'a>
        ensures value { result ≡ self.now.fields }
    {
        Values {
            version: self.version,
            places: self.places,
            count: u16::from(self.count),
            bytes: self.values,
        }
    }
}
