//! Values, and bytes of rails.
ghost use Rattle.std.specs.Prelude.{◌≡◌, ◌++◌, OnOk};
ghost use Rattle.std.specs.String.{string_bytes};
ghost use Rattle.x10_frame.specs.Items.{item_of};
ghost use Rattle.x10_frame_lines.specs.Lines.{count_words, item_text};

use std::alloc::AllocError;
use std::fmt::Write;
use x10_frame::Item;

/// A value: a number as it is, and what else it is in words.
pub fn push_item(text: &mut String, item: Item) -> Result<(), AllocError>
    ensures { OnOk result (string_bytes text.new
        ≡ string_bytes text.old ++ item_text (item_of item)) }
{
    match item {
        Item::Int(number) => write!(text, "{number}"),
        Item::Place(place) => write!(text, "place {place}"),
        Item::Text(index) => write!(text, "text {index}"),
        Item::Rail(index) => write!(text, "rail {index}"),
        Item::Object(index) => write!(text, "object {index}"),
        Item::Null => text.push_str("null"),
        Item::Ref { home, id, class } => {
            write!(text, "global reference {id} of place {home}, class {class}")
        }
    }
}

/// Numbers, each with a space before it.
pub fn push_bytes(text: &mut String, bytes: &[u8]) -> Result<(), AllocError>
    ensures { OnOk result (string_bytes text.new
        ≡ string_bytes text.old ++ count_words bytes.now) }
{
    for at in 0..bytes.len() {
        let byte = bytes[at];
        write!(text, " {byte}")?;
    }
    Ok(())
}
