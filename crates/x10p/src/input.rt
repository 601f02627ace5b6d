//! Reading a file or standard input, only as far as it can be what a command takes.
use crate::trouble::Trouble;
use std::io::Read;
use x10_cli::is_image;
use x10_frame::{FrameFault, FrameView};
use x10_image::{ImageFault, ImageView};

/// How many bytes are read before they are looked at for the first time.
const FIRST: u64 = 65_536;

/// How many times as many bytes are read before each further look. What was read is looked at from its beginning, so that the
/// looks together cost little compared with the last reading.
const MORE: u64 = 16;

/// The most bytes of a text's lines that aren't `text` lines: room for the greatest module without its texts, which takes
/// 50 million, and for comments.
const BESIDE_TEXTS: u64 = 67_108_864;

/// The most bytes of a `text` line: 65,535 bytes, each escaped, the word before them, two quotes and a line's end.
const TEXT_LINE: u64 = 131_079;

/// How a log begins.
const LOG: &[u8] = b"x10 log 1\n";

/// What a file is read as.
#[derive(Clone, Copy)]
pub enum Wanted {
    Text,
    Image,
    /// Its first bytes say which of the two it is.
    TextOrImage,
    /// A frame where there are so many places.
    Frame(u16),
}

/// What is known about a file from those of its bytes that were read.
enum Look {
    /// More of it may be of use, up to this many bytes in all.
    More(u64),
    /// The answer is found in what was read, whatever follows.
    Enough,
    /// It is greater than a text can be.
    TooLong,
}

/// The bytes of a file, or its first bytes, enough of them that the command answers as it would for all.
pub fn read<F: Read>(rt: &HostRuntime, wanted: Wanted, file: &mut F) -> Result<Vec<u8>, Trouble> {
    let mut bytes = Vec::new(rt.alloc());
    let mut goal = FIRST;
    for _ in 0..40 {
        if is_at_end(file, goal, &mut bytes)? {
            return Ok(bytes);
        }
        match look_at(rt, wanted, &bytes)? {
            Look::More(most) => goal = goal.saturating_mul(MORE).min(most),
            Look::Enough => return Ok(bytes),
            Look::TooLong => return Err(Trouble::TooLong),
        }
    }
    Err(Trouble::TooLong)
}

/// The bytes of a log. Of what begins otherwise only as much is read and left as begins so: it is refused by its first line,
/// whatever follows.
pub fn read_log<F: Read>(rt: &HostRuntime, file: &mut F) -> Result<Vec<u8>, Trouble> {
    let mut bytes = Vec::new(rt.alloc());
    let is_whole = match is_at_end(file, FIRST, &mut bytes) {
        Ok(is_whole) => is_whole,
        Err(trouble) => return Err(trouble.of_log()),
    };
    if !bytes.starts_with(LOG) {
        bytes.truncate(alike(&bytes, LOG));
        return Ok(bytes);
    }
    if is_whole {
        return Ok(bytes);
    }
    match file.read_to_end(&mut bytes) {
        Ok(_) => Ok(bytes),
        Err(error) => Err(Trouble::reading_log(error)),
    }
}

/// How many bytes at the front are the same.
fn alike(bytes: &[u8], others: &[u8]) -> usize {
    let mut count = 0;
    for (byte, other) in bytes.iter().zip(others.iter()) {
        if byte != other {
            return count;
        }
        count = count.saturating_add(1);
    }
    count
}

/// Reads on until there are `goal` bytes, and answers whether the file has ended before that.
fn is_at_end<F: Read>(file: &mut F, goal: u64, bytes: &mut Vec<u8>) -> Result<bool, Trouble> {
    let missing = goal.saturating_sub(bytes.len() as u64);
    match file.by_ref().take(missing).read_to_end(bytes) {
        Ok(_) => Ok((bytes.len() as u64) < goal),
        Err(error) => Err(Trouble::reading(error)),
    }
}

fn look_at(rt: &HostRuntime, wanted: Wanted, bytes: &[u8]) -> Result<Look, Trouble> {
    match wanted {
        Wanted::Text => Ok(look_at_text(bytes)),
        Wanted::TextOrImage if !is_image(bytes) => Ok(look_at_text(bytes)),
        Wanted::Image | Wanted::TextOrImage => look_at_image(rt, bytes),
        Wanted::Frame(places) => look_at_frame(rt, places, bytes),
    }
}

/// A text that isn't UTF-8 is refused whatever follows.
fn look_at_text(bytes: &[u8]) -> Look {
    if let Err(error) = str::from_utf8(bytes)
        && error.error_len().is_some()
    {
        return Look::Enough;
    }
    let most = most_of_text(bytes);
    if bytes.len() as u64 > most {
        return Look::TooLong;
    }
    Look::More(most.saturating_add(1))
}

/// The most bytes of a text that begins with these bytes, and has no `text` lines but those in them.
fn most_of_text(bytes: &[u8]) -> u64 {
    let mut most = BESIDE_TEXTS;
    for line in bytes.split(|byte| *byte == b'\n') {
        if line.trim_ascii_start().starts_with(b"text ") {
            most = most.saturating_add(TEXT_LINE);
        }
    }
    most
}

/// An image is read from front to back, so that the first fault stays, whatever follows; except for an end that comes too
/// early, and for what is reported only where nothing follows.
fn look_at_image(rt: &HostRuntime, bytes: &[u8]) -> Result<Look, Trouble> {
    match ImageView::read(rt.alloc(), bytes) {
        Err(ImageFault::Memory) => Err(Trouble::Memory),
        Ok(_) | Err(ImageFault::Short | ImageFault::Entry) => Ok(Look::More(u64::MAX)),
        Err(_) => Ok(Look::Enough),
    }
}

/// A frame is read from front to back too, and what follows it is a fault whatever it is.
fn look_at_frame(rt: &HostRuntime, places: u16, bytes: &[u8]) -> Result<Look, Trouble> {
    match FrameView::read(rt.alloc(), bytes, places) {
        Err(FrameFault::Memory) => Err(Trouble::Memory),
        Ok(_) | Err(FrameFault::Short) => Ok(Look::More(u64::MAX)),
        Err(_) => Ok(Look::Enough),
    }
}
