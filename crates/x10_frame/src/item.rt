//! Values at the front of bytes.

ghost use Rattle.x10_model.specs.Readers.{byte, such_that};
ghost use Rattle.x10_model.specs.ReadingFrames.{Short, Tag, item_at, untagged_at};
ghost use Rattle.x10_model.specs.declared.version.FrameVersion.{FrameVersion};
ghost use Rattle.x10_model.specs.Frames.{Tables};
ghost use Rattle.std.specs.Prelude.{◌≡◌, ◌<◌, ◌&&◌, IfOk, Some, nat_le, slice_get};
ghost use Rattle.x10_frame.specs.Faults.{Answers};
ghost use Rattle.x10_frame.specs.Items.{item_of, tables_in, items_in, HasItems, HasNext};

use crate::fault::FrameFault;
use crate::fields::{index_at, place_at};
use crate::known::known_item;
use crate::used::Used;
use x10_bytes::{byte_at, i64_at, u16_at, u32_at};
use x10_model::FrameVersion;

/// A value as a frame spells it: texts, rails and objects by their numbers in the frame's tables.
#[derive(Clone, Copy, Debug, PartialEq, Eq)]
pub enum Item {
    Int(i64),
    Place(u16),
    Text(u32),
    Rail(u32),
    Object(u32),
    Null,
    /// A global reference: its home, its number there, and the class of its object.
    Ref { home: u16, id: u32, class: u16 },
}

#[tactic(auto, unfolding(x10_model::specs::Readers::such_that, x10_model::specs::Readers::bind, x10_model::specs::Readers::check, x10_model::specs::Readers::done))]
#[inline(always)]
fn tag_at(bytes: &[u8]) -> Result<(u8, &[u8]), FrameFault>
    ensures exact { Answers (λ x. (x.0, x.1.now)) result
        (such_that (byte Short) (λ n. nat_le 1 n && nat_le n 7) Tag bytes.now) }
{
    let (tag, bytes) = byte_at::<FrameFault>(bytes)?;
    if !(1..=7).contains(&tag) {
        return Err(FrameFault::Tag);
    }
    Ok((tag, bytes))
}

#[tactic(auto, unfolding(x10_model::specs::ReadingFrames::untagged_at, x10_model::specs::Readers::bind, x10_model::specs::Readers::done))]
#[inline(always)]
fn ref_at(bytes: &[u8], places: u16) -> Result<(Item, &[u8]), FrameFault>
    ensures exact { (v : FrameVersion) (all : Tables) (used : Tables)
        → Answers (λ x. (item_of x.0, x.1.now)) result (untagged_at v places all used 7 bytes.now) }
    ensures next { IfOk result (λ x. HasNext x.0) }
{
    let (home, bytes) = place_at(bytes, places)?;
    let (id, bytes) = u32_at::<FrameFault>(bytes)?;
    let (class, bytes) = u16_at::<FrameFault>(bytes)?;
    Ok((Item::Ref { home, id, class }, bytes))
}

#[tactic(auto, unfolding(x10_model::specs::ReadingFrames::untagged_at, x10_model::specs::Readers::bind, x10_model::specs::Readers::done, x10_model::specs::Readers::given))]
#[inline(always)]
fn untagged_at<'a>(
    bytes: &'a [u8],
    tag: u8,
    version: FrameVersion,
    places: u16,
    all: &Used,
    used: &Used,
) -> Result<(Item, &'a [u8]), FrameFault>
    ensures exact { Answers (λ x. (item_of x.0, x.1.now)) result
        (untagged_at version places (tables_in all.now) (tables_in used.now) tag bytes.now) }
    ensures next { IfOk result (λ x. HasNext x.0) }
{
    match tag {
        1 => {
            let (number, bytes) = i64_at::<FrameFault>(bytes)?;
            Ok((Item::Int(number), bytes))
        }
        2 => {
            let (place, bytes) = place_at(bytes, places)?;
            Ok((Item::Place(place), bytes))
        }
        3 => {
            let (index, bytes) = index_at(bytes, version, used.texts, all.texts)?;
            Ok((Item::Text(index), bytes))
        }
        4 => {
            let (index, bytes) = index_at(bytes, version, used.rails, all.rails)?;
            Ok((Item::Rail(index), bytes))
        }
        5 => {
            let (index, bytes) = index_at(bytes, version, used.nodes, all.nodes)?;
            Ok((Item::Object(index), bytes))
        }
        6 => Ok((Item::Null, bytes)),
        7 => ref_at(bytes, places),
        _ => Err(FrameFault::Tag),
    }
}

/// A value, given what was used before it, and the bytes after it.
#[tactic(auto, unfolding(x10_model::specs::ReadingFrames::item_at, x10_model::specs::Readers::bind))]
#[inline(always)]
pub fn item_at<'a>(
    bytes: &'a [u8],
    version: FrameVersion,
    places: u16,
    all: &Used,
    used: &Used,
) -> Result<(Item, &'a [u8]), FrameFault>
    ensures exact { Answers (λ x. (item_of x.0, x.1.now)) result
        (item_at version places (tables_in all.now) (tables_in used.now) bytes.now) }
    ensures next { IfOk result (λ x. HasNext x.0) }
{
    let (tag, bytes) = tag_at(bytes)?;
    untagged_at(bytes, tag, version, places, all, used)
}

/// One of `count` values that were read before.
pub fn nth_item(bytes: &[u8], version: FrameVersion, places: u16, count: u16, i: usize) -> Item
    requires there { HasItems version places count bytes.now }
    requires below { i < count }
    ensures { slice_get (items_in version places count bytes.now) i ≡ Some (item_of result) }
{
    let mut rest = bytes;
    for _ in 0..i {
        let (_, after) = known_item(rest, version);
        rest = after;
    }
    let (item, _) = known_item(rest, version);
    item
}
