//! Parts of a frame of version 2 at the end of bytes.

ghost use Rattle.std.specs.Prelude.{◌≡◌, [], ◌∷◌, ◌++◌, ◌^◌, ◌<◌, ◌≤◌, OnOk, length};
ghost use Rattle.std.specs.List.{flat_map};
ghost use Rattle.std.specs.Int.{w16, w32, to_be_bytes};
ghost use Rattle.x10_model.specs.Images.{int_bytes};
ghost use Rattle.x10_model.specs.declared.version.FrameVersion.TheVariants.{Wide};
ghost use Rattle.x10_model.specs.Frames.{item_bytes, blob_bytes, node_bytes, counts_bytes};
ghost use Rattle.x10_frame.specs.declared.head.What.TheVariants as what;
ghost use Rattle.x10_frame.specs.Items.{item_of};
ghost use Rattle.x10_frame.specs.Heads.{head};
ghost use Rattle.x10_frame.specs.Writing.{head_bytes, values_bytes, node_of};

use crate::head::{Head, What};
use crate::item::Item;
use byteorder::{BigEndian, ByteOrder};
use std::alloc::AllocError;
use x10_model::Finish;

#[inline(always)]
fn put_place(out: &mut Vec<u8>, place: u16) -> Result<(), AllocError>
    ensures { OnOk result (out.new.items ≡ out.old.items ++ 2 ∷ to_be_bytes w16 place) }
{
    let p = place.to_be_bytes();
    out.extend_from_slice(&[2, p[0], p[1]])
}

/// A tag, and the number of a text, a rail or an object.
#[inline(always)]
fn put_number(out: &mut Vec<u8>, tag: u8, number: u32) -> Result<(), AllocError>
    ensures { OnOk result (out.new.items ≡ out.old.items ++ tag ∷ to_be_bytes w32 number) }
{
    let n = number.to_be_bytes();
    out.extend_from_slice(&[tag, n[0], n[1], n[2], n[3]])
}

#[inline(always)]
fn put_int(out: &mut Vec<u8>, number: i64) -> Result<(), AllocError>
    ensures { OnOk result (out.new.items ≡ out.old.items ++ 1 ∷ int_bytes number) }
{
    let n = number.to_be_bytes();
    out.extend_from_slice(&[1, n[0], n[1], n[2], n[3], n[4], n[5], n[6], n[7]])
}

#[inline(always)]
fn put_ref(out: &mut Vec<u8>, home: u16, id: u32, class: u16) -> Result<(), AllocError>
    ensures { OnOk result (out.new.items ≡ out.old.items ++ 7
        ∷ (to_be_bytes w16 home ++ (to_be_bytes w32 id ++ to_be_bytes w16 class))) }
{
    let (h, i, c) = (home.to_be_bytes(), id.to_be_bytes(), class.to_be_bytes());
    out.extend_from_slice(&[7, h[0], h[1], i[0], i[1], i[2], i[3], c[0], c[1]])
}

/// A value.
#[tactic(auto, unfolding(x10_model::specs::Frames::item_bytes))]
#[inline(always)]
pub fn put_item(out: &mut Vec<u8>, item: &Item) -> Result<(), AllocError>
    ensures { OnOk result (out.new.items ≡ out.old.items ++ item_bytes Wide (item_of item.now)) }
{
    match *item {
        Item::Int(number) => put_int(out, number),
        Item::Place(place) => put_place(out, place),
        Item::Text(index) => put_number(out, 3, index),
        Item::Rail(index) => put_number(out, 4, index),
        Item::Object(index) => put_number(out, 5, index),
        Item::Null => out.extend_from_slice(&[6]),
        Item::Ref { home, id, class } => put_ref(out, home, id, class),
    }
}

/// Values, one after another.
pub fn put_items(out: &mut Vec<u8>, items: &[Item]) -> Result<(), AllocError>
    ensures { OnOk result (out.new.items ≡ out.old.items ++ values_bytes items.now) }
{
    for item in items {
        put_item(out, item)?;
    }
    Ok(())
}

/// A text or a rail.
#[tactic(auto, unfolding(x10_model::specs::Frames::blob_bytes))]
pub fn put_blob(out: &mut Vec<u8>, bytes: &[u8]) -> Result<(), AllocError>
    requires { length bytes.now < 2 ^ 16 }
    ensures { OnOk result (out.new.items ≡ out.old.items ++ blob_bytes bytes.now) }
{
    out.extend_from_slice(&(bytes.len() as u32).to_be_bytes())?;
    out.extend_from_slice(bytes)
}

/// A node's class, and how many fields it has.
#[inline(always)]
pub fn put_begin(out: &mut Vec<u8>, class: u16, fields: u8) -> Result<(), AllocError>
    ensures { OnOk result (out.new.items ≡ out.old.items
        ++ (to_be_bytes w16 class ++ fields ∷ [])) }
{
    let c = class.to_be_bytes();
    out.extend_from_slice(&[c[0], c[1], fields])
}

/// A node.
#[tactic(auto, unfolding(x10_model::specs::Frames::node_bytes))]
pub fn put_node(out: &mut Vec<u8>, class: u16, fields: &[Item]) -> Result<(), AllocError>
    requires { length fields.now ≤ 16 }
    ensures { OnOk result (out.new.items ≡ out.old.items
        ++ node_bytes Wide (node_of class fields.now)) }
{
    put_begin(out, class, fields.len() as u8)?;
    put_items(out, fields)
}

/// The counts of a report.
pub fn put_counts(out: &mut Vec<u8>, counts: &[u32]) -> Result<(), AllocError>
    ensures { OnOk result (out.new.items ≡ out.old.items ++ counts_bytes counts.now) }
{
    let start = out.len();
    out.resize(start + 4 * counts.len(), 0)?;
    BigEndian::write_u32_into(counts, &mut out[start..]);
    Ok(())
}

#[inline(always)]
fn put_spawn(
    out: &mut Vec<u8>,
    from: u16,
    to: u16,
    under: Finish,
    function: u16,
) -> Result<(), AllocError>
    ensures { OnOk result (out.new.items ≡ out.old.items
        ++ head_bytes Wide (head from to (what.Spawn under function))) }
{
    let (f, t, h) = (
        from.to_be_bytes(),
        to.to_be_bytes(),
        under.home.to_be_bytes(),
    );
    let (n, u) = (under.number.to_be_bytes(), function.to_be_bytes());
    out.extend_from_slice(&[
        2, 1, f[0], f[1], t[0], t[1], h[0], h[1], n[0], n[1], n[2], n[3], u[0], u[1],
    ])
}

#[inline(always)]
fn put_shift(
    out: &mut Vec<u8>,
    from: u16,
    to: u16,
    waiting: u32,
    under: Finish,
    function: u16,
) -> Result<(), AllocError>
    ensures { OnOk result (out.new.items ≡ out.old.items
        ++ head_bytes Wide (head from to (what.Shift waiting under function))) }
{
    let (f, t, w) = (from.to_be_bytes(), to.to_be_bytes(), waiting.to_be_bytes());
    let (h, n) = (under.home.to_be_bytes(), under.number.to_be_bytes());
    let u = function.to_be_bytes();
    out.extend_from_slice(&[
        2, 2, f[0], f[1], t[0], t[1], w[0], w[1], w[2], w[3], h[0], h[1], n[0], n[1], n[2], n[3],
        u[0], u[1],
    ])
}

/// The head of a frame of two places and a number: type 3 or 4.
#[inline(always)]
fn put_short(out: &mut Vec<u8>, kind: u8, from: u16, to: u16, number: u32) -> Result<(), AllocError>
    ensures { OnOk result (out.new.items ≡ out.old.items
        ++ ((2 ∷ kind ∷ []) ++ (to_be_bytes w16 from
        ++ (to_be_bytes w16 to ++ to_be_bytes w32 number)))) }
{
    let (f, t, n) = (from.to_be_bytes(), to.to_be_bytes(), number.to_be_bytes());
    out.extend_from_slice(&[2, kind, f[0], f[1], t[0], t[1], n[0], n[1], n[2], n[3]])
}

/// What comes before the graph of a frame, or before the number of places of a report.
#[inline(always)]
pub fn put_head(out: &mut Vec<u8>, head: &Head) -> Result<(), AllocError>
    ensures { OnOk result (out.new.items ≡ out.old.items ++ head_bytes Wide head.now) }
{
    let Head { from, to, what } = *head;
    match what {
        What::Spawn { under, function } => put_spawn(out, from, to, under, function),
        What::Shift {
            waiting,
            under,
            function,
        } => put_shift(out, from, to, waiting, under, function),
        What::Back { waiting } => put_short(out, 3, from, to, waiting),
        What::Report { number } => put_short(out, 4, from, to, number),
    }
}
