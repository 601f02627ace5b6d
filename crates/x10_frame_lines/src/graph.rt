//! The lines of a graph: what is passed, and all that this leads to.
ghost use Rattle.std.specs.Prelude.{◌≡◌, ◌++◌, OnOk};
ghost use Rattle.std.specs.String.{string_bytes};
ghost use Rattle.x10_frame.specs.Heads.{graph_of};
ghost use Rattle.x10_frame.specs.Items.{item_of};
ghost use Rattle.x10_frame_lines.specs.Lines.{numbered, root_line, text_line, rail_line, field_line, object_lines, graph_lines};

use crate::values::{push_bytes, push_item};
use std::alloc::AllocError;
use std::fmt::Write;
use x10_asm::push_quoted;
use x10_frame::{FrameView, Item, NodeView};

/// The values that are passed, the texts, the rails and the objects, in the order of the frame's bytes.
pub fn push_graph(text: &mut String, frame: &FrameView) -> Result<(), AllocError>
    ensures { OnOk result (string_bytes text.new
        ≡ string_bytes text.old ++ graph_lines (graph_of frame.now)) }
{
    push_roots(text, frame)?;
    push_texts(text, frame)?;
    push_rails(text, frame)?;
    push_objects(text, frame)
}

fn push_roots(text: &mut String, frame: &FrameView) -> Result<(), AllocError>
    ensures { OnOk result (string_bytes text.new
        ≡ string_bytes text.old ++ numbered root_line 0 (graph_of frame.now).roots) }
{
    for i in 0..frame.roots() {
        push_root(text, i, frame.root(i))?;
    }
    Ok(())
}

/// A value that is passed: an argument or a result.
fn push_root(text: &mut String, i: usize, root: Item) -> Result<(), AllocError>
    ensures { OnOk result (string_bytes text.new
        ≡ string_bytes text.old ++ root_line i (item_of root)) }
{
    write!(text, "root {i}: ")?;
    push_item(text, root)?;
    text.push_str("\n")
}

fn push_texts(text: &mut String, frame: &FrameView) -> Result<(), AllocError>
    ensures { OnOk result (string_bytes text.new
        ≡ string_bytes text.old ++ numbered text_line 0 (graph_of frame.now).texts) }
{
    for i in 0..frame.texts() {
        push_text(text, i, frame.text(i))?;
    }
    Ok(())
}

/// A text, quoted as in assembler text.
fn push_text(text: &mut String, i: usize, quoted: &str) -> Result<(), AllocError>
    ensures { OnOk result (string_bytes text.new
        ≡ string_bytes text.old ++ text_line i quoted.now) }
{
    write!(text, "text {i}:")?;
    push_quoted(text, quoted)?;
    text.push_str("\n")
}

fn push_rails(text: &mut String, frame: &FrameView) -> Result<(), AllocError>
    ensures { OnOk result (string_bytes text.new
        ≡ string_bytes text.old ++ numbered rail_line 0 (graph_of frame.now).rails) }
{
    for i in 0..frame.rails() {
        push_rail(text, i, frame.rail(i))?;
    }
    Ok(())
}

/// A rail's length, and its bytes.
fn push_rail(text: &mut String, i: usize, bytes: &[u8]) -> Result<(), AllocError>
    ensures { OnOk result (string_bytes text.new
        ≡ string_bytes text.old ++ rail_line i bytes.now) }
{
    let length = bytes.len();
    write!(text, "rail {i}, length {length}:")?;
    push_bytes(text, bytes)?;
    text.push_str("\n")
}

fn push_objects(text: &mut String, frame: &FrameView) -> Result<(), AllocError>
    ensures { OnOk result (string_bytes text.new
        ≡ string_bytes text.old ++ numbered object_lines 0 (graph_of frame.now).nodes) }
{
    for i in 0..frame.nodes() {
        push_object(text, i, &frame.node(i))?;
    }
    Ok(())
}

/// An object's class, and its fields, a line each.
fn push_object(text: &mut String, i: usize, object: &NodeView) -> Result<(), AllocError>
    ensures { OnOk result (string_bytes text.new
        ≡ string_bytes text.old ++ object_lines i object.now) }
{
    let class = object.class();
    writeln!(text, "object {i}: class {class}")?;
    push_fields(text, i, object)
}

fn push_fields(text: &mut String, i: usize, object: &NodeView) -> Result<(), AllocError>
    ensures { OnOk result (string_bytes text.new
        ≡ string_bytes text.old ++ numbered (field_line i) 0 object.now.fields) }
{
    for j in 0..object.fields() {
        push_field(text, i, j, object.field(j))?;
    }
    Ok(())
}

fn push_field(text: &mut String, i: usize, j: usize, value: Item) -> Result<(), AllocError>
    ensures { OnOk result (string_bytes text.new
        ≡ string_bytes text.old ++ field_line i j (item_of value)) }
{
    write!(text, "object {i}, field {j}: ")?;
    push_item(text, value)?;
    text.push_str("\n")
}
