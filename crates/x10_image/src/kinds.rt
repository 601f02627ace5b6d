//! Kinds, parameters and results at the front of bytes.

ghost use Rattle.std.specs.Prelude.{◌≡◌};
ghost use Rattle.x10_model.specs.ReadingImages.{kind_of, flagged, result_of, kind_at, slot_at, result_at};
ghost use Rattle.x10_model.specs.ReadingImages as reading;
ghost use Rattle.x10_image.specs.Faults.{Answers};

use crate::fault::ImageFault;
use x10_bytes::{byte_at, u16_at};
use x10_kinds::Kind;
use x10_model::Slot;

/// The kind with a tag, in a module with `classes` classes.
fn kind_with(classes: u16, tag: u8, class: u16) -> Option<Kind>
    ensures { result ≡ kind_of classes tag class }
{
    match tag {
        1 => without_class(Kind::Int, class),
        2 => without_class(Kind::Place, class),
        3 => without_class(Kind::Text, class),
        4 => without_class(Kind::Rail, class),
        5 if class < classes => Some(Kind::Obj(class)),
        6 if class < classes => Some(Kind::Opt(class)),
        7 if class < classes => Some(Kind::GRef(class)),
        _ => None,
    }
}

fn without_class(kind: Kind, class: u16) -> Option<Kind>
    ensures { result ≡ reading.without_class kind class }
{
    (class == 0).then_some(kind)
}

/// A kind in a module with `classes` classes, and the bytes after it.
#[tactic(auto, unfolding(x10_model::specs::ReadingImages::kind_at, x10_model::specs::Readers::bind, x10_model::specs::Readers::given))]
pub fn kind_at(bytes: &[u8], classes: u16) -> Result<(Kind, &[u8]), ImageFault>
    ensures exact { Answers (λ x. (x.0, x.1.now)) result (kind_at classes bytes.now) }
{
    let (tag, bytes) = byte_at::<ImageFault>(bytes)?;
    let (class, bytes) = u16_at::<ImageFault>(bytes)?;
    let kind = kind_with(classes, tag, class).ok_or(ImageFault::Kind)?;
    Ok((kind, bytes))
}

fn with_flag(kind: Kind, flag: u8) -> Option<Slot>
    ensures { result ≡ flagged (Some kind) flag }
{
    match flag {
        0 => Some(Slot {
            kind,
            home_here: false,
        }),
        1 if matches!(kind, Kind::GRef(_)) => Some(Slot {
            kind,
            home_here: true,
        }),
        _ => None,
    }
}

fn slot_with(classes: u16, tag: u8, class: u16, flag: u8) -> Option<Slot>
    ensures { result ≡ flagged (kind_of classes tag class) flag }
{
    with_flag(kind_with(classes, tag, class)?, flag)
}

/// A parameter in a module with `classes` classes, and the bytes after it.
#[tactic(auto, unfolding(x10_model::specs::ReadingImages::slot_at, x10_model::specs::Readers::bind, x10_model::specs::Readers::given))]
pub fn slot_at(bytes: &[u8], classes: u16) -> Result<(Slot, &[u8]), ImageFault>
    ensures exact { Answers (λ x. (x.0, x.1.now)) result (slot_at classes bytes.now) }
{
    let (tag, bytes) = byte_at::<ImageFault>(bytes)?;
    let (class, bytes) = u16_at::<ImageFault>(bytes)?;
    let (flag, bytes) = byte_at::<ImageFault>(bytes)?;
    let slot = slot_with(classes, tag, class, flag).ok_or(ImageFault::Kind)?;
    Ok((slot, bytes))
}

fn result_with(classes: u16, tag: u8, class: u16, flag: u8) -> Option<Option<Slot>>
    ensures { result ≡ result_of classes tag class flag }
{
    if tag == 0 {
        return (class == 0 && flag == 0).then_some(None);
    }
    Some(Some(slot_with(classes, tag, class, flag)?))
}

/// A result in a module with `classes` classes, which may be none, and the bytes after it.
#[tactic(auto, unfolding(x10_model::specs::ReadingImages::result_at, x10_model::specs::Readers::bind, x10_model::specs::Readers::given))]
pub fn result_at(bytes: &[u8], classes: u16) -> Result<(Option<Slot>, &[u8]), ImageFault>
    ensures exact { Answers (λ x. (x.0, x.1.now)) result (result_at classes bytes.now) }
{
    let (tag, bytes) = byte_at::<ImageFault>(bytes)?;
    let (class, bytes) = u16_at::<ImageFault>(bytes)?;
    let (flag, bytes) = byte_at::<ImageFault>(bytes)?;
    let result = result_with(classes, tag, class, flag).ok_or(ImageFault::Kind)?;
    Ok((result, bytes))
}
