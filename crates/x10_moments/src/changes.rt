//! How a list of texts changed.
ghost use Rattle.std.specs.Prelude.{◌≡◌, ◌++◌, OnOk, Some, length, option_map, slice_get};
ghost use Rattle.std.specs.String.{string_bytes};
ghost use Rattle.x10_moments.specs.Changes.{bytes_of, change_text, entries, entry_if, was};

use std::alloc::AllocError;
use std::fmt::Write;

/// How a list changed, each of whose texts is a value of JSON: how many there are now, and with their numbers from 0 those that are
/// new or other than before. Linear in the texts.
pub(crate) fn push_change(
    text: &mut String,
    old: &[String],
    new: &[String],
) -> Result<(), AllocError>
    ensures { OnOk result (string_bytes text.new
        ≡ string_bytes text.old ++ change_text (bytes_of old.now) (bytes_of new.now)) }
{
    let count = new.len();
    write!(text, "[{count}")?;
    push_entries(text, old, new)?;
    text.push_str("]")
}

/// The elements that are new or other than before.
fn push_entries(text: &mut String, old: &[String], new: &[String]) -> Result<(), AllocError>
    ensures { OnOk result (string_bytes text.new
        ≡ string_bytes text.old
        ++ entries (bytes_of old.now) (bytes_of new.now) (length new.now)) }
{
    for i in 0..new.len() {
        push_entry(text, old, i, &new[i])?;
    }
    Ok(())
}

/// An element, unless it was the same before.
fn push_entry(text: &mut String, old: &[String], i: usize, new: &str) -> Result<(), AllocError>
    ensures { OnOk result (string_bytes text.new
        ≡ string_bytes text.old
        ++ entry_if (slice_get (bytes_of old.now) i) i (Some new.now)) }
{
    if is_same(old.get(i), new) {
        return Ok(());
    }
    write!(text, ",[{i},{new}]")
}

/// Whether an element was there before, and was this text.
fn is_same(old: Option<&String>, new: &str) -> bool
    ensures { result ≡ was (option_map (λ s. string_bytes s.now) old.entry) new.now }
{
    match old {
        Some(old) => old.as_str() == new,
        None => false,
    }
}
