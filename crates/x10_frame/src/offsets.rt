//! Parts of a frame by their positions in its bytes. Each part was seen to be there when the frame was read, so nothing is
//! looked for again.

ghost use Rattle.std.specs.Prelude.{◌≡◌, ◌+◌, ◌*◌, ◌<◌, ◌≤◌, length, drop, slice_index, slice_range};
ghost use Rattle.std.specs.Int.{w16, w32, from_be_bytes};
ghost use Rattle.x10_frame.specs.Items.{items_in, HasItems};

use crate::node_view::NodeView;
use x10_bytes::{u16_in, u32_in};
use x10_model::FrameVersion;

/// One of the counts of four bytes each that begin at `start`.
#[inline(always)]
pub fn count_in(bytes: &[u8], start: usize, i: usize) -> u32
    requires { start + 4 * i + 4 ≤ length bytes.now }
    ensures { result ≡ from_be_bytes w32 (slice_range bytes.now (start + 4 * i)
        (start + 4 * i + 4)) }
{
    u32_in(bytes, start + 4 * i)
}

/// The text or rail at a position: its length in four bytes, and its bytes.
#[inline(always)]
pub fn blob_in(bytes: &[u8], at: usize) -> &[u8]
    requires length { at + 4 ≤ length bytes.now }
    requires room { at + 4 + from_be_bytes w32 (slice_range bytes.now at (at + 4))
        ≤ length bytes.now }
    ensures { result.now ≡ slice_range bytes.now (at + 4)
        (at + 4 + from_be_bytes w32 (slice_range bytes.now at (at + 4))) }
{
    let count = u32_in(bytes, at) as usize;
    &bytes[at + 4..at + 4 + count]
}

/// The node at a position: its class in two bytes, its number of fields in one, and their values.
#[inline(always)]
pub fn node_in(bytes: &[u8], at: usize, version: FrameVersion, places: u16) -> NodeView<'_>
    requires room { at + 3 ≤ length bytes.now }
    requires there { HasItems version places (slice_index bytes.now (at + 2))
        (drop (at + 3) bytes.now) }
    ensures { result ≡ record {
      class = from_be_bytes w16 (slice_range bytes.now at (at + 2));
      fields = items_in version places (slice_index bytes.now (at + 2)) (drop (at + 3) bytes.now);
    } }
{
    NodeView {
        version,
        places,
        class: u16_in(bytes, at),
        count: bytes[at + 2],
        values: &bytes[at + 3..],
    }
}
