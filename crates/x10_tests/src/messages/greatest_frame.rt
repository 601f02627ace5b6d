//! The greatest frame.

use super::frames::{is_written_again, sizes_of};
use super::heaps::long;
use crate::sources::view_of;
use std::alloc::Global;
use std::process::Abort;
use std::test::*;
use x10_frame::{FrameView, FrameWriter, Head, Item, Sizes, What};

/// The most texts, and the most rails, of a frame.
const MOST: u32 = 1_048_576;

/// The fields of an object among 139,811, each of which names the next: 15 of the most texts and the most rails, one after
/// another, or what is left of them.
fn fields_of(alloc: Global, object: u32) -> Result<Vec<Item>, Fail> {
    let mut fields = Vec::new(alloc);
    for j in 0..15u32 {
        let used = object.saturating_mul(15).saturating_add(j);
        if used < MOST {
            fields.push(Item::Text(used))?;
        } else if used < 2 * MOST {
            fields.push(Item::Rail(used - MOST))?;
        }
    }
    if object < 139_810 {
        fields.push(Item::Object(object + 1))?;
    }
    Ok(fields)
}

/// As many texts and as many rails as there can be, the last of each as long as it can be.
fn texts_and_rails(rt: &impl Abort, writer: &mut FrameWriter, long: &str) -> Result<(), Fail> {
    assert!(rt; long.len() == 65_535);
    for _ in 1..MOST {
        writer.text("")?;
    }
    writer.text(long)?;
    for _ in 1..MOST {
        writer.rail(&[])?;
    }
    Ok(writer.rail(long.as_bytes())?)
}

/// The frame of as many texts and as many rails as there can be.
fn greatest(alloc: Global, rt: &impl Abort) -> Result<Vec<u8>, Fail> {
    let head = Head {
        from: 0,
        to: 1,
        what: What::Back { waiting: 0 },
    };
    let sizes = Sizes {
        roots: 1,
        texts: MOST,
        rails: MOST,
        nodes: 139_811,
    };
    let mut writer = FrameWriter::new(alloc, &head, &sizes)?;
    writer.roots(&[Item::Object(0)])?;
    texts_and_rails(rt, &mut writer, &long(alloc, 65_535)?)?;
    for object in 0..139_811u32 {
        let fields = fields_of(alloc, object)?;
        assert!(rt; fields.len() <= 16);
        writer.node((object % 65_536) as u16, &fields)?;
    }
    Ok(writer.finish())
}

/// How long the last text and the last rail are, where there are both.
fn last_lengths(view: &FrameView) -> Option<(usize, usize)> {
    let (text, rail) = (view.texts().checked_sub(1)?, view.rails().checked_sub(1)?);
    Some((view.text(text).len(), view.rail(rail).len()))
}

#[test]
fn most_texts_and_rails(rt: HostRuntime) -> Result<(), Fail> {
    let bytes = greatest(rt.alloc(), &rt)?;
    let view = view_of(rt.alloc(), &bytes, 2)?;
    assert!(rt; sizes_of(&view) == (1, 1_048_576, 1_048_576, 139_811));
    assert!(rt; last_lengths(&view) == Some((65_535, 65_535)));
    is_written_again(rt.alloc(), &rt, &bytes, 2)
}
