//! How what a place shows changed.
ghost use Rattle.std.specs.Prelude.{◌≡◌, ◌<◌, ◌++◌, OnOk, Some, length, map, slice_set};
ghost use Rattle.std.specs.String.{string_bytes};
ghost use Rattle.x10_moments.specs.Changes.{bytes_of};
ghost use Rattle.x10_moments.specs.Moments.{changed_text, list_text, nothing, one_text, parts_text, place_text, shown_by};

use crate::changes::push_change;
use std::alloc::{AllocError, Global};
use std::fmt::Write;
use x10_states::Parts;

/// What a place shows that isn't known yet.
pub(crate) fn no_parts(alloc: Global) -> Parts
    ensures { shown_by result ≡ nothing }
{
    Parts {
        stays: Vec::new(alloc),
        objects: Vec::new(alloc),
        rails: Vec::new(alloc),
        texts: Vec::new(alloc),
        exports: Vec::new(alloc),
        lines: Vec::new(alloc),
    }
}

/// A list of what a place shows, by its name.
#[tactic(auto, unfolding(crate::specs::Moments::list_text))]
fn push_list(
    text: &mut String,
    name: &str,
    old: &Vec<String>,
    new: &Vec<String>,
) -> Result<(), AllocError>
    ensures { OnOk result (string_bytes text.new ≡ string_bytes text.old
        ++ list_text name.now (bytes_of old.now.items) (bytes_of new.now.items)) }
{
    text.push_str(name)?;
    push_change(text, old, new)
}

/// How what a place shows changed: each of its lists.
#[tactic(auto, unfolding(crate::specs::Moments::parts_text))]
fn push_parts(text: &mut String, old: &Parts, new: &Parts) -> Result<(), AllocError>
    ensures { OnOk result (string_bytes text.new ≡ string_bytes text.old
        ++ parts_text (shown_by old.now) (shown_by new.now)) }
{
    push_list(text, "{\"stays\":", &old.stays, &new.stays)?;
    push_list(text, ",\"objects\":", &old.objects, &new.objects)?;
    push_list(text, ",\"rails\":", &old.rails, &new.rails)?;
    push_list(text, ",\"texts\":", &old.texts, &new.texts)?;
    push_list(text, ",\"exports\":", &old.exports, &new.exports)?;
    push_list(text, ",\"lines\":", &old.lines, &new.lines)?;
    text.push_str("}")?;
    Ok(())
}

/// A place, and how what it shows changed.
#[tactic(auto, unfolding(crate::specs::Moments::place_text))]
pub(crate) fn push_place(
    text: &mut String,
    id: u16,
    old: &Parts,
    new: &Parts,
) -> Result<(), AllocError>
    ensures { OnOk result (string_bytes text.new ≡ string_bytes text.old
        ++ place_text id (shown_by old.now) (shown_by new.now)) }
{
    write!(text, "[{id},")?;
    push_parts(text, old, new)?;
    text.push_str("]")
}

/// A place, and how what it shows changed, as a list.
#[tactic(auto, unfolding(crate::specs::Moments::one_text))]
fn push_one(text: &mut String, id: u16, old: &Parts, new: &Parts) -> Result<(), AllocError>
    ensures { OnOk result (string_bytes text.new ≡ string_bytes text.old
        ++ one_text id (shown_by old.now) (shown_by new.now)) }
{
    text.push_str("[")?;
    push_place(text, id, old, new)?;
    text.push_str("]")
}

/// The same of a place whose new parts are kept then.
pub(crate) fn push_changed_place(
    text: &mut String,
    places: &mut Vec<Parts>,
    id: u16,
    parts: Parts,
) -> Result<(), AllocError>
    requires { id < length places.old.items }
    ensures text { OnOk result (string_bytes text.new ≡ string_bytes text.old
        ++ changed_text (Some id) (map shown_by places.old.items)
        (map shown_by places.new.items)) }
    ensures places { OnOk result (places.new.items ≡ slice_set places.old.items id parts) }
{
    let at = usize::from(id);
    push_one(text, id, &places[at], &parts)?;
    places[at] = parts;
    Ok(())
}
