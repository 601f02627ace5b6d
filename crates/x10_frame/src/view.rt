ghost use Rattle.std.specs.Prelude.{◌≡◌, ◌^◌, ◌<◌, ◌≤◌, IfOk, Ok, Some, length, slice_get};
ghost use Rattle.std.specs.Int.{w32, to_be_bytes};
ghost use Rattle.x10_model.specs.declared.limits.TheConstants.{MOST_WIDE};
ghost use Rattle.x10_model.specs.Modules.{FitsText};
ghost use Rattle.x10_model.specs.declared.version.FrameVersion.{FrameVersion};
ghost use Rattle.x10_model.specs.Frames.{Frame, FitsRail, IsSpelled, item_bytes, node_bytes, spelling};
ghost use Rattle.x10_model.specs.ReadingFrames.{frame_at};
ghost use Rattle.x10_frame.specs.Faults.{Gives};
ghost use Rattle.x10_frame.specs.Heads.{head_of, graph_of, sent_of, received_of};
ghost use Rattle.x10_frame.specs.Items.{item_of};
ghost use Rattle.x10_frame.specs.Versions.{nodes_of};
ghost use Rattle.x10_frame.specs.Writing.{head_bytes};
ghost use Rattle.x10_frame.specs.Parts.{place_of_root, place_of_text, place_of_rail, place_of_node, place_of_sent, place_of_received};
ghost use Rattle.x10_bytes.specs.Tables.{IsPart};

use crate::body::{Body, read_body};
use crate::fault::FrameFault;
use crate::head::{Head, What, read_head, version_at};
use crate::item::{Item, nth_item};
use crate::node_view::NodeView;
use crate::nodes::{Nodes, NodesByVersion};
use crate::offsets::{blob_in, count_in, node_in};
use std::alloc::Global;
use std::marker::Model;
use x10_bytes::bytes_from;
use x10_model::FrameVersion;

/// A frame, read in place: the bytes themselves, and where its parts begin. Clauses see the frame.
#[derive(Drop)]
pub struct FrameView<'a> {
    bytes: &'a [u8],
    version: FrameVersion,
    places: u16,
    head: Head,
    body: Body,
}

impl<'a> Model for FrameView<'a> {
    ghost use Rattle.x10_model.specs.Frames.{Frame};

    ghost Value = { Frame };

    ghost use Rattle.x10_frame.specs.Views.{IsView, frame_in};

    ghost view = { λ a. frame_in a.places a.bytes.now };

    ghost invariant = { λ a. IsView a.version a.bytes.now a.places a.head a.body.start a.body.roots a.body.texts.items a.body.rails.items a.body.nodes.items };
}

#[inline(always)]
fn whole<'a>(alloc: Global, bytes: &'a [u8], places: u16) -> Result<FrameView<'a>, FrameFault>
    ensures exact { Gives (λ v. v) result (frame_at places bytes.now) }
{
    let (version, rest) = version_at(bytes)?;
    let (head, rest) = read_head(rest, places)?;
    let (body, rest) = read_body(alloc, bytes, rest, version, places, &head)?;
    if !rest.is_empty() {
        return Err(FrameFault::Trailing);
    }
    Ok(FrameView {
        bytes,
        version,
        places,
        head,
        body,
    })
}

impl<'a> FrameView<'a> {
    /// The view of a frame of either version where there are `places` places. A fault is the first one from front to back. One
    /// pass over the bytes; the memory taken is 8 bytes for each text, rail and node that is there, whatever the counts say.
    pub fn read(alloc: Global, bytes: &'a [u8], places: u16) -> Result<FrameView<'a>, FrameFault>
        ensures found { IfOk result (λ f. IsSpelled places f bytes.now) }
        ensures only { (f : Frame) → IsSpelled places f bytes.now → Gives (λ v. v) result (Ok f) }
        ensures exact { Gives (λ v. v) result (frame_at places bytes.now) }
    {
        whole(alloc, bytes, places)
    }

    /// What the frame is, and the numbers that come before its graph or its counts: its first bytes. As of all parts, the
    /// clause says where they are in the frame's spelling in each version, one of which is its bytes. Constant time, like all
    /// that follow except for a walk over at most 16 values, and no memory.
    pub fn head(&self) -> Head
        ensures value { result ≡ head_of self.now }
        ensures part { (v : FrameVersion) → IsPart (spelling v self.now) 0 (head_bytes v result) }
    {
        self.head
    }

    /// How many places a report counts; 0 in another frame.
    #[inline(always)]
    pub fn counts(&self) -> usize
        ensures sent { result ≡ length (sent_of self.now) }
        ensures received { result ≡ length (received_of self.now) }
    {
        match self.head.what {
            What::Report { .. } => usize::from(self.places),
            What::Spawn { .. } | What::Shift { .. } | What::Back { .. } => 0,
        }
    }

    /// How many activities a report says were sent to a place: four of the frame's bytes.
    #[inline(always)]
    pub fn sent(&self, place: usize) -> u32
        requires { place < length (sent_of self.now) }
        ensures value { slice_get (sent_of self.now) place ≡ Some result }
        ensures part { (v : FrameVersion) → IsPart (spelling v self.now)
            (place_of_sent v self.now place) (to_be_bytes w32 result) }
    {
        count_in(self.bytes, self.body.start, place)
    }

    /// How many activities a report says were received from a place: four of the frame's bytes.
    #[inline(always)]
    pub fn received(&self, place: usize) -> u32
        requires { place < length (received_of self.now) }
        ensures value { slice_get (received_of self.now) place ≡ Some result }
        ensures part { (v : FrameVersion) → IsPart (spelling v self.now)
            (place_of_received v self.now place) (to_be_bytes w32 result) }
    {
        count_in(
            self.bytes,
            self.body.start,
            usize::from(self.places) + place,
        )
    }

    /// How many values are passed, at most 16; none by a report.
    #[inline(always)]
    pub fn roots(&self) -> usize
        ensures value { result ≡ length (graph_of self.now).roots }
        ensures few { result ≤ 16 }
    {
        usize::from(self.body.roots)
    }

    /// How many texts there are.
    pub fn texts(&self) -> usize
        ensures value { result ≡ length (graph_of self.now).texts }
        ensures few { result ≤ MOST_WIDE }
    {
        self.body.texts.len()
    }

    /// How many rails there are.
    pub fn rails(&self) -> usize
        ensures value { result ≡ length (graph_of self.now).rails }
        ensures few { result ≤ MOST_WIDE }
    {
        self.body.rails.len()
    }

    /// How many objects there are.
    #[inline(always)]
    pub fn nodes(&self) -> usize
        ensures value { result ≡ length (graph_of self.now).nodes }
        ensures few { result ≤ MOST_WIDE }
    {
        self.body.nodes.len()
    }

    /// A value that is passed, from the frame's bytes.
    #[inline(always)]
    pub fn root(&self, i: usize) -> Item
        requires { i < length (graph_of self.now).roots }
        ensures value { slice_get (graph_of self.now).roots i ≡ Some (item_of result) }
        ensures part { (v : FrameVersion) → IsPart (spelling v self.now)
            (place_of_root v self.now i) (item_bytes v (item_of result)) }
    {
        nth_item(
            bytes_from(self.bytes, self.body.start),
            self.version,
            self.places,
            self.body.roots,
            i,
        )
    }

    /// A text, in the frame's bytes: after its length there.
    pub fn text(&self, i: usize) -> &'a str
        requires { i < length (graph_of self.now).texts }
        ensures value { slice_get (graph_of self.now).texts i ≡ Some result.now }
        ensures fits { FitsText result.now }
        ensures part { (v : FrameVersion) → IsPart (spelling v self.now)
            (place_of_text v self.now i) result.now }
    {
        let bytes = self.bytes;
        let text = blob_in(bytes, self.body.texts[i]);
        unsafe { str::from_utf8_unchecked(text) }
    }

    /// A rail, in the frame's bytes: after its length there.
    pub fn rail(&self, i: usize) -> &'a [u8]
        requires { i < length (graph_of self.now).rails }
        ensures value { slice_get (graph_of self.now).rails i ≡ Some result.now }
        ensures fits { FitsRail result.now }
        ensures part { (v : FrameVersion) → IsPart (spelling v self.now)
            (place_of_rail v self.now i) result.now }
    {
        let bytes = self.bytes;
        blob_in(bytes, self.body.rails[i])
    }

    /// An object, in the frame's bytes.
    #[inline(always)]
    pub fn node(&self, i: usize) -> NodeView<'a>
        requires { i < length (graph_of self.now).nodes }
        ensures value { slice_get (graph_of self.now).nodes i ≡ Some result }
        ensures few { length result.fields ≤ 16 }
        ensures part { (v : FrameVersion) → IsPart (spelling v self.now)
            (place_of_node v self.now i) (node_bytes v result) }
    {
        let bytes = self.bytes;
        node_in(bytes, self.body.nodes[i], self.version, self.places)
    }

    /// All objects, by the frame's version: see `NodesByVersion`.
    #[inline(always)]
    pub fn nodes_by_version(&self) -> NodesByVersion<'_>
        ensures value { nodes_of result ≡ (graph_of self.now).nodes }
    {
        let (bytes, places) = (self.bytes, self.places);
        let starts = self.body.nodes.as_slice();
        match self.version {
            FrameVersion::Narrow => NodesByVersion::Narrow(Nodes {
                version: FrameVersion::Narrow,
                places,
                bytes,
                starts,
            }),
            FrameVersion::Wide => NodesByVersion::Wide(Nodes {
                version: FrameVersion::Wide,
                places,
                bytes,
                starts,
            }),
        }
    }
}
