ghost use Rattle.std.specs.Prelude.{◌≡◌, ◌<◌, ◌≤◌, Some, length, slice_get};

use crate::node_view::NodeView;
use crate::offsets::node_in;
use std::marker::Model;
use x10_model::FrameVersion;

/// The objects of a frame, in its bytes. Clauses see the list of them.
#[derive(Debug, Drop)]
pub struct Nodes<'a> {
    pub(crate) version: FrameVersion,
    pub(crate) places: u16,
    pub(crate) bytes: &'a [u8],
    pub(crate) starts: &'a [usize],
}

impl<'a> Model for Nodes<'a> {
    ghost use Rattle.std.specs.Prelude.{List, map};
    ghost use Rattle.std.specs.List.{AllByRecursion};
    ghost use Rattle.x10_model.specs.Frames.{Node};
    ghost use Rattle.x10_frame.specs.Nodes.{node_from, HasNode};

    ghost Value = { List Node };

    ghost view = { λ a. map (node_from a.version a.places a.bytes.now) a.starts.now };

    ghost invariant = { λ a. AllByRecursion (HasNode a.version a.places a.bytes.now) a.starts.now };
}

/// The objects of a frame, by its version. Where a loop over them is made in both arms of a `match`, and all that it calls is
/// inlined, each of the two knows the version, and tests it nowhere.
#[derive(Debug, Drop)]
pub enum NodesByVersion<'a> {
    /// Of a frame of version 1.
    Narrow(Nodes<'a>),
    /// Of a frame of version 2.
    Wide(Nodes<'a>),
}

impl<'a> Nodes<'a> {
    /// How many objects there are. Constant time.
    #[inline(always)]
    pub fn len(&self) -> usize
        ensures value { result ≡ length self.now }
    {
        self.starts.len()
    }

    /// An object, in the frame's bytes. Constant time.
    #[inline(always)]
    pub fn node(&self, i: usize) -> NodeView<'a>
        requires { i < length self.now }
        ensures value { slice_get self.now i ≡ Some result }
        ensures few { length result.fields ≤ 16 }
    {
        node_in(self.bytes, self.starts[i], self.version, self.places)
    }
}
