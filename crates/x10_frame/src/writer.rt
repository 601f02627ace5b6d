//! Writing frames, in version 2.

ghost use Rattle.std.specs.Prelude.{◌≡◌, [], ◌∷◌, ◌++◌, ◌^◌, ◌<◌, ◌≤◌, IfOk, OnOk, length};
ghost use Rattle.x10_model.specs.Frames as frames;
ghost use Rattle.std.specs.Int.{w16, to_be_bytes};
ghost use Rattle.x10_model.specs.declared.version.FrameVersion.TheVariants.{Wide};
ghost use Rattle.x10_model.specs.Frames.{Graph, item_bytes, blob_bytes, node_bytes, spelling};
ghost use Rattle.x10_frame.specs.declared.head.Head.{Head as head};
ghost use Rattle.x10_frame.specs.Heads.{IsGraphHead, with_graph};
ghost use Rattle.x10_frame.specs.Items.{item_of};
ghost use Rattle.x10_frame.specs.Writing.{head_bytes, sizes_bytes, values_bytes, node_of, draft};

use crate::head::{Head, What};
use crate::item::Item;
use crate::report::Report;
use crate::spell::{put_begin, put_blob, put_counts, put_head, put_item, put_items, put_node};
use std::alloc::{AllocError, Global};
use std::marker::Model;

/// How many roots, texts, rails and objects a frame has.
#[derive(Clone, Copy, Debug, PartialEq, Eq)]
pub struct Sizes {
    pub roots: u16,
    pub texts: u32,
    pub rails: u32,
    pub nodes: u32,
}

/// A frame that is being written: the head and the sizes, and then the roots, the texts, the rails and the objects, each in
/// the order of their numbers. Clauses see the bytes so far. Where a call is refused memory, the frame can't be finished.
#[derive(Debug, Drop)]
pub struct FrameWriter {
    bytes: Vec<u8>,
}

impl Model for FrameWriter {
    ghost use Rattle.std.specs.Prelude.{ℕ, List};

    ghost Value = { List ℕ };

    ghost view = { λ w. w.bytes.items };
}

#[inline(always)]
fn put_sizes(out: &mut Vec<u8>, sizes: &Sizes) -> Result<(), AllocError>
    ensures { OnOk result (out.new.items ≡ out.old.items
        ++ sizes_bytes Wide sizes.now.roots sizes.now.texts sizes.now.rails sizes.now.nodes) }
{
    let (r, t) = (sizes.roots.to_be_bytes(), sizes.texts.to_be_bytes());
    let (l, n) = (sizes.rails.to_be_bytes(), sizes.nodes.to_be_bytes());
    out.extend_from_slice(&[
        r[0], r[1], t[0], t[1], t[2], t[3], l[0], l[1], l[2], l[3], n[0], n[1], n[2], n[3],
    ])
}

impl FrameWriter {
    /// A frame with this head, which is not a report's, and with these sizes.
    pub fn new(alloc: Global, head: &Head, sizes: &Sizes) -> Result<FrameWriter, AllocError>
        requires graph { IsGraphHead head.now }
        ensures value { IfOk result (λ w. w ≡ head_bytes Wide head.now
            ++ sizes_bytes Wide sizes.now.roots sizes.now.texts sizes.now.rails sizes.now.nodes) }
    {
        let mut bytes = Vec::new(alloc);
        put_head(&mut bytes, head)?;
        put_sizes(&mut bytes, sizes)?;
        Ok(FrameWriter { bytes })
    }

    /// The same, with room for `room` bytes: where the frame has no more, no other call takes memory.
    #[inline(always)]
    pub fn with_room(
        alloc: Global,
        head: &Head,
        sizes: &Sizes,
        room: usize,
    ) -> Result<FrameWriter, AllocError>
        requires graph { IsGraphHead head.now }
        ensures value { IfOk result (λ w. w ≡ head_bytes Wide head.now
            ++ sizes_bytes Wide sizes.now.roots sizes.now.texts sizes.now.rails sizes.now.nodes) }
    {
        let mut bytes = Vec::with_capacity(alloc, room)?;
        put_head(&mut bytes, head)?;
        put_sizes(&mut bytes, sizes)?;
        Ok(FrameWriter { bytes })
    }

    /// Makes room for `bytes` more bytes.
    #[inline(always)]
    pub fn reserve(&mut self, bytes: usize) -> Result<(), AllocError>
        ensures value { OnOk result (self.new ≡ self.old) }
    {
        self.bytes.reserve(bytes)
    }

    /// The next value: one that is passed, or the next field of an object that was begun.
    #[inline(always)]
    pub fn value(&mut self, value: &Item) -> Result<(), AllocError>
        ensures value { OnOk result (self.new ≡ self.old ++ item_bytes Wide (item_of value.now)) }
    {
        put_item(&mut self.bytes, value)
    }

    /// The next object's class, and how many fields it has. Its fields follow as values.
    #[inline(always)]
    pub fn begin_node(&mut self, class: u16, fields: u8) -> Result<(), AllocError>
        ensures value { OnOk result (self.new ≡ self.old
            ++ (to_be_bytes w16 class ++ fields ∷ [])) }
    {
        put_begin(&mut self.bytes, class, fields)
    }

    /// The values that are passed.
    pub fn roots(&mut self, roots: &[Item]) -> Result<(), AllocError>
        ensures value { OnOk result (self.new ≡ self.old ++ values_bytes roots.now) }
    {
        put_items(&mut self.bytes, roots)
    }

    /// The next text, copied once.
    pub fn text(&mut self, text: &str) -> Result<(), AllocError>
        requires { length text.now < 2 ^ 16 }
        ensures value { OnOk result (self.new ≡ self.old ++ blob_bytes text.now) }
    {
        put_blob(&mut self.bytes, text.as_bytes())
    }

    /// The next rail, copied once.
    pub fn rail(&mut self, rail: &[u8]) -> Result<(), AllocError>
        requires { length rail.now < 2 ^ 16 }
        ensures value { OnOk result (self.new ≡ self.old ++ blob_bytes rail.now) }
    {
        put_blob(&mut self.bytes, rail)
    }

    /// The next object: the number of its class, and its fields.
    pub fn node(&mut self, class: u16, fields: &[Item]) -> Result<(), AllocError>
        requires { length fields.now ≤ 16 }
        ensures value { OnOk result (self.new ≡ self.old
            ++ node_bytes Wide (node_of class fields.now)) }
    {
        put_node(&mut self.bytes, class, fields)
    }

    /// The bytes. Where all of a graph was written they spell its frame.
    pub fn finish(self) -> Vec<u8>
        ensures value { result.items ≡ self }
        ensures spelled { (h : head) (g : Graph) → IsGraphHead h → self ≡ draft Wide h g
            → result.items ≡ spelling Wide (with_graph h g) }
    {
        self.bytes
    }
}

/// The frame that takes what a place has counted of a finish to the finish's home: how many activities it sent to each
/// place, and how many it received from each. It is the frame of a report that has these numbers.
pub fn write_counts(
    alloc: Global,
    from: u16,
    to: u16,
    number: u32,
    sent: &[u32],
    received: &[u32],
) -> Result<Vec<u8>, AllocError>
    requires { length sent.now < 2 ^ 16 }
    ensures value { IfOk result (λ bytes. bytes.items
        ≡ spelling Wide (frames.Report from to number sent.now received.now)) }
{
    let mut bytes = Vec::with_capacity(alloc, 16 + 8 * sent.len())?;
    let what = What::Report { number };
    put_head(&mut bytes, &Head { from, to, what })?;
    let places = sent.len() as u16;
    bytes.extend_from_slice(&places.to_be_bytes())?;
    put_counts(&mut bytes, sent)?;
    put_counts(&mut bytes, received)?;
    Ok(bytes)
}

/// The frame that takes a report to the home of its finish.
pub fn write_report(alloc: Global, to: u16, report: &Report) -> Result<Vec<u8>, AllocError>
    requires { length report.now.sent.items < 2 ^ 16 }
    ensures value { IfOk result (λ bytes. bytes.items
        ≡ spelling Wide (frames.Report report.now.place to report.now.number report.now.sent.items
        report.now.received.items)) }
{
    write_counts(
        alloc,
        report.place,
        to,
        report.number,
        &report.sent,
        &report.received,
    )
}
