//! Where bytes that are not an image are wrong: the first part that the reader refuses.

ghost use Rattle.std.specs.Prelude.{◌≡◌, ℕ, ℤ, List, Ok, IfOk, IfErr, IfSome, MatchOption};
ghost use Rattle.x10_kinds.specs.declared.kind.Kind.{Kind};
ghost use Rattle.x10_model.specs.Modules as model;
ghost use Rattle.x10_model.specs.declared.version.ImageVersion.{ImageVersion};
ghost use Rattle.x10_model.specs.Readers.{times, numbered, int};
ghost use Rattle.x10_model.specs.ReadingImages.{Short, class_at, text_at, function_at, module_at};
ghost use Rattle.x10_image.specs.Faults.{named, IsFault};
ghost use Rattle.x10_image.specs.Misfits.{IsRefused, IsRefusedIn, HasWholeParts};

use crate::fault::ImageFault;
use crate::field::Field;
use crate::header::read_header;
use crate::parts::{past_class, past_function, past_ints, past_text};
use x10_model::ImageVersion;

/// A part of an image.
#[derive(Clone, Copy, Debug, PartialEq, Eq)]
pub enum Item {
    Header,
    /// A class, by its number.
    Class(u16),
    /// The constant numbers, and how many there are.
    Ints(u16),
    /// A constant text, by its number.
    Text(u16),
    /// A function, by its number.
    Function(u16),
    /// What comes after the last function.
    Behind,
}

/// The first part of bytes that is refused.
#[derive(Clone, Copy, Debug)]
pub struct Misfit<'a> {
    pub item: Item,
    pub fault: ImageFault,
    /// The bytes from the part on.
    pub from: &'a [u8],
    /// The field of the part that is wrong; nothing for what comes after the last function.
    pub field: Option<Field<'a>>,
}

/// The bytes after the classes.
fn past_classes(bytes: &[u8], count: u16) -> Result<&[u8], Misfit<'_>>
    ensures part { IfErr result (λ m. (version : ImageVersion)
        → IsRefused version count m.item m.from.now m.fault) }
    ensures passed { IfOk result (λ rest. (items : List (List Kind))
        × (times count (class_at count) bytes.now ≡ Ok (items, rest.now))) }
    ensures fault { IfErr result (λ m. IsFault (named m.fault)
        (times count (class_at count) bytes.now)) }
    ensures field { IfErr result (λ m. IfSome m.field (λ f. f.fault ≡ m.fault)) }
{
    let mut rest = bytes;
    for class in 0..count {
        match past_class(rest, count) {
            Ok(after) => rest = after,
            Err(field) => {
                return Err(Misfit {
                    item: Item::Class(class),
                    fault: field.fault,
                    from: rest,
                    field: Some(field),
                });
            }
        }
    }
    Ok(rest)
}

/// The bytes after the constant numbers.
fn past_numbers(bytes: &[u8], count: u16) -> Result<&[u8], Misfit<'_>>
    ensures part { IfErr result (λ m. (version : ImageVersion) (classes : ℕ)
        → IsRefused version classes m.item m.from.now m.fault) }
    ensures passed { IfOk result (λ rest. (items : List ℤ)
        × (times count (int Short) bytes.now ≡ Ok (items, rest.now))) }
    ensures fault { IfErr result (λ m. IsFault (named m.fault)
        (times count (int Short) bytes.now)) }
    ensures field { IfErr result (λ m. IfSome m.field (λ f. f.fault ≡ m.fault)) }
{
    match past_ints(bytes, count) {
        Ok(rest) => Ok(rest),
        Err(field) => Err(Misfit {
            item: Item::Ints(count),
            fault: field.fault,
            from: bytes,
            field: Some(field),
        }),
    }
}

/// The bytes after the texts.
fn past_texts(bytes: &[u8], count: u16) -> Result<&[u8], Misfit<'_>>
    ensures part { IfErr result (λ m. (version : ImageVersion) (classes : ℕ)
        → IsRefused version classes m.item m.from.now m.fault) }
    ensures passed { IfOk result (λ rest. (items : List (List ℕ))
        × (times count text_at bytes.now ≡ Ok (items, rest.now))) }
    ensures fault { IfErr result (λ m. IsFault (named m.fault) (times count text_at bytes.now)) }
    ensures field { IfErr result (λ m. IfSome m.field (λ f. f.fault ≡ m.fault)) }
{
    let mut rest = bytes;
    for text in 0..count {
        match past_text(rest) {
            Ok(after) => rest = after,
            Err(field) => {
                return Err(Misfit {
                    item: Item::Text(text),
                    fault: field.fault,
                    from: rest,
                    field: Some(field),
                });
            }
        }
    }
    Ok(rest)
}

/// The bytes after the functions.
fn past_functions(
    bytes: &[u8],
    version: ImageVersion,
    classes: u16,
    count: u16,
) -> Result<&[u8], Misfit<'_>>
    ensures part { IfErr result (λ m. IsRefused version classes m.item m.from.now m.fault) }
    ensures passed { IfOk result (λ rest. (items : List model.Function)
        × (numbered count (function_at version classes) bytes.now ≡ Ok (items, rest.now))) }
    ensures fault { IfErr result (λ m. IsFault (named m.fault)
        (numbered count (function_at version classes) bytes.now)) }
    ensures field { IfErr result (λ m. IfSome m.field (λ f. f.fault ≡ m.fault)) }
{
    let mut rest = bytes;
    for function in 0..count {
        match past_function(rest, version, classes, function) {
            Ok(after) => rest = after,
            Err(field) => {
                return Err(Misfit {
                    item: Item::Function(function),
                    fault: field.fault,
                    from: rest,
                    field: Some(field),
                });
            }
        }
    }
    Ok(rest)
}

/// All parts one after the other.
fn past_all(bytes: &[u8]) -> Result<(), Misfit<'_>>
    ensures part { IfErr result (λ m. IsRefusedIn bytes.now m.item m.from.now m.fault) }
    ensures whole { IfOk result (λ _. HasWholeParts bytes.now) }
    ensures fault { IfErr result (λ m. IsFault (named m.fault) (module_at bytes.now)) }
    ensures field { IfErr result (λ m. IfSome m.field (λ f. f.fault ≡ m.fault)) }
{
    let (header, rest) = match read_header(bytes) {
        Ok(read) => read,
        Err(field) => {
            return Err(Misfit {
                item: Item::Header,
                fault: field.fault,
                from: bytes,
                field: Some(field),
            });
        }
    };
    let rest = past_classes(rest, header.classes)?;
    let rest = past_numbers(rest, header.ints)?;
    let rest = past_texts(rest, header.texts)?;
    let rest = past_functions(rest, header.version, header.classes, header.functions)?;
    if rest.is_empty() {
        return Ok(());
    }
    Err(Misfit {
        item: Item::Behind,
        fault: ImageFault::Trailing,
        from: rest,
        field: None,
    })
}

/// The first part of bytes that is refused, with its fault, which is that of reading the part from there on, by the header
/// where it is behind one, and that of the bytes, and the field of it that is wrong. Nothing only where each part is whole and
/// in order, even where the entry is wrong. One pass over the bytes; takes no memory.
pub fn misfit_in(bytes: &[u8]) -> Option<Misfit<'_>>
    ensures part { IfSome result (λ m. IsRefusedIn bytes.now m.item m.from.now m.fault) }
    ensures fault { MatchOption result (HasWholeParts bytes.now)
        (λ m. IsFault (named m.fault) (module_at bytes.now)) }
    ensures field { IfSome result (λ m. IfSome m.field (λ f. f.fault ≡ m.fault)) }
{
    past_all(bytes).err()
}
