//! The header of an image.

ghost use Rattle.std.specs.Prelude.{◌≡◌};
ghost use Rattle.std.specs.Int.{w16, w32};
ghost use Rattle.x10_model.specs.Images.{magic};
ghost use Rattle.x10_model.specs.Images as images;
ghost use Rattle.x10_model.specs.Readers.{number, expect};
ghost use Rattle.x10_model.specs.ReadingImages.{Short, Magic, version_at, header_at};
ghost use Rattle.x10_image.specs.Faults.{Answers, AnswersBy};
ghost use Rattle.x10_image.specs.Headers.{seen};

use crate::fault::ImageFault;
use crate::field::{Field, Meaning, read};
use crate::fields::{after_zero_u16, u16_within};
use x10_bytes::{has, u16_at, u32_at};
use x10_model::ImageVersion;
use x10_model::limits::{MOST_FUNCTIONS, MOST_PLACES};

pub const MAGIC: u32 = 0x5831_3050;

/// The version of an image, and how much of everything it has.
#[derive(Clone, Copy, Debug)]
pub struct Header {
    pub version: ImageVersion,
    pub least_places: u16,
    pub classes: u16,
    pub ints: u16,
    pub texts: u16,
    pub functions: u16,
    pub entry: u16,
}

#[tactic(auto, unfolding(x10_model::specs::Readers::expect, x10_model::specs::Readers::bind, x10_model::specs::Readers::check))]
fn after_magic(bytes: &[u8]) -> Result<&[u8], ImageFault>
    ensures exact { Answers (λ x. (tt, x.now)) result
        (expect (number w32 Short) magic Magic bytes.now) }
{
    let (found, bytes) = u32_at::<ImageFault>(bytes)?;
    if found != MAGIC {
        return Err(ImageFault::Magic);
    }
    Ok(bytes)
}

/// The number of a version.
pub fn number_of(version: ImageVersion) -> u16
    ensures value { result ≡ images.number_of version }
{
    match version {
        ImageVersion::One => 1,
        ImageVersion::Two => 2,
    }
}

/// The version of an image by its number, and the bytes after it.
#[tactic(auto, unfolding(x10_model::specs::ReadingImages::version_at, x10_model::specs::Readers::given, x10_model::specs::Readers::bind))]
pub fn version_at(bytes: &[u8]) -> Result<(ImageVersion, &[u8]), ImageFault>
    ensures exact { Answers (λ x. (x.0, x.1.now)) result (version_at bytes.now) }
{
    let (number, bytes) = u16_at::<ImageFault>(bytes)?;
    match number {
        1 => Ok((ImageVersion::One, bytes)),
        2 => Ok((ImageVersion::Two, bytes)),
        _ => Err(ImageFault::Version),
    }
}

/// The header, and the bytes after it.
#[tactic(auto, unfolding(x10_model::specs::ReadingImages::header_at, x10_model::specs::Readers::bind, x10_model::specs::Readers::done))]
pub fn read_header(bytes: &[u8]) -> Result<(Header, &[u8]), Field<'_>>
    ensures exact { AnswersBy (λ f. f.fault) (λ x. (seen x.0, x.1.now)) result
        (header_at bytes.now) }
{
    read!(Meaning::Header, 20, bytes, has(bytes, 20));
    let bytes = read!(Meaning::Magic, 4, bytes, after_magic(bytes));
    let (version, bytes) = read!(Meaning::Version, 2, bytes, version_at(bytes));
    let (least_places, bytes) = read!(Meaning::Places, 2, bytes, u16_within(bytes, 1, MOST_PLACES));
    let (classes, bytes) = read!(Meaning::Header, 2, bytes, u16_at(bytes));
    let (ints, bytes) = read!(Meaning::Header, 2, bytes, u16_at(bytes));
    let (texts, bytes) = read!(Meaning::Header, 2, bytes, u16_at(bytes));
    let most = MOST_FUNCTIONS;
    let (functions, bytes) = read!(Meaning::Functions, 2, bytes, u16_within(bytes, 1, most));
    let (entry, bytes) = read!(Meaning::Header, 2, bytes, u16_at(bytes));
    let bytes = read!(Meaning::Zero, 2, bytes, after_zero_u16(bytes));
    let header = Header {
        version,
        least_places,
        classes,
        ints,
        texts,
        functions,
        entry,
    };
    Ok((header, bytes))
}
