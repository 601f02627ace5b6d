//! The texts of a heap, one after another.

ghost use Rattle.std.specs.Prelude.{◌≡◌, ◌<◌, ◌≤◌, ◌+◌, ◌-◌, ◌^◌, List, ℕ, [], ◌∷◌, ◌++◌, OnOk, OnErr, IsOk, Some, length, take, drop, slice_get, slice_index, slice_range};
ghost use Rattle.x10_model.specs.Modules.{FitsText};
ghost use Rattle.x10_heap.specs.Laid.{start_of};

use crate::ends::start_in;
use std::alloc::{AllocError, Global};
use std::marker::Model;

/// Texts by their numbers from 0, each in UTF-8 and of at most 65,535 bytes. The bytes of each follow those of the text before
/// it. So a text takes its bytes, and eight more.
#[derive(Drop)]
pub struct Texts {
    /// Where each text ends among the bytes.
    ends: Vec<usize>,
    bytes: Vec<u8>,
}

impl Model for Texts {
    ghost use Rattle.std.specs.Prelude.{ℕ, List};
    ghost use Rattle.x10_heap.specs.LaidTexts.{texts_from, AreTexts};

    ghost Value = { List (List ℕ) };

    ghost view = { λ t. texts_from 0 t.ends.items t.bytes.items };

    ghost invariant = { λ t. AreTexts 0 t.ends.items t.bytes.items };
}

/// A part of the bytes: from one place to another.
#[derive(Clone, Copy)]
struct Span {
    start: usize,
    end: usize,
}

/// Where a text starts and ends.
#[inline(always)]
fn span_in(ends: &[usize], text: usize) -> Span
    requires { text < length ends.now }
    ensures start { result.start ≡ start_of 0 text ends.now }
    ensures end { result.end ≡ slice_index ends.now text }
{
    Span {
        start: start_in(ends, text),
        end: ends[text],
    }
}

/// The bytes of a span.
#[inline(always)]
fn part(bytes: &[u8], span: Span) -> &[u8]
    requires ordered { span.start ≤ span.end }
    requires within { span.end ≤ length bytes.now }
    ensures { result.now ≡ slice_range bytes.now span.start span.end }
{
    &bytes[span.start..span.end]
}

/// Appends to both lists, or to neither.
#[inline(always)]
fn append(ends: &mut Vec<usize>, bytes: &mut Vec<u8>, text: &[u8]) -> Result<(), AllocError>
    ensures ends { OnOk result (ends.new.items ≡ ends.old.items ++ length bytes.new.items ∷ []) }
    ensures bytes { OnOk result (bytes.new.items ≡ bytes.old.items ++ text.now) }
    ensures err { OnErr result ((ends.new.items ≡ ends.old.items)
        × (bytes.new.items ≡ bytes.old.items)) }
{
    ends.reserve(1)?;
    bytes.extend_from_slice(text)?;
    ends.push_reserved(bytes.len());
    Ok(())
}

/// Copies a span's bytes over those from a place behind it on.
#[inline(always)]
fn copy_behind(bytes: &mut [u8], span: Span, to: usize)
    requires ordered { span.start ≤ span.end }
    requires before { span.end ≤ to }
    requires room { to + (span.end - span.start) ≤ length bytes.old }
    ensures { bytes.new ≡ take to bytes.old ++ slice_range bytes.old span.start span.end
        ++ drop (to + (span.end - span.start)) bytes.old }
{
    let (front, back) = bytes.split_at_mut(to);
    back[..span.end - span.start].copy_from_slice(&front[span.start..span.end]);
}

/// Appends two spans of the bytes to them, as one text; or changes neither list.
#[inline(always)]
fn append_joined(
    ends: &mut Vec<usize>,
    bytes: &mut Vec<u8>,
    first: Span,
    second: Span,
) -> Result<(), AllocError>
    requires first { (first.start ≤ first.end) × (first.end ≤ length bytes.old.items) }
    requires second { (second.start ≤ second.end) × (second.end ≤ length bytes.old.items) }
    requires few { first.end - first.start + (second.end - second.start) < 2 ^ 16 }
    ensures ends { OnOk result (ends.new.items ≡ ends.old.items ++ length bytes.new.items ∷ []) }
    ensures bytes { OnOk result (bytes.new.items ≡ bytes.old.items
        ++ (slice_range bytes.old.items first.start first.end
        ++ slice_range bytes.old.items second.start second.end)) }
    ensures err { OnErr result ((ends.new.items ≡ ends.old.items)
        × (bytes.new.items ≡ bytes.old.items)) }
{
    let start = bytes.len();
    let middle = start + (first.end - first.start);
    ends.reserve(1)?;
    bytes.resize(middle + (second.end - second.start), 0)?;
    copy_behind(bytes.as_mut_slice(), first, start);
    copy_behind(bytes.as_mut_slice(), second, middle);
    ends.push_reserved(bytes.len());
    Ok(())
}

impl Texts {
    /// None. Takes no memory.
    pub(crate) fn new(alloc: Global) -> Texts
        ensures { result ≡ [] }
    {
        Texts {
            ends: Vec::new(alloc),
            bytes: Vec::new(alloc),
        }
    }

    /// How many there are.
    #[inline(always)]
    pub(crate) fn len(&self) -> usize
        ensures { result ≡ length self.now }
    {
        self.ends.len()
    }

    /// Room for the ends of so many more.
    pub(crate) fn reserve(&mut self, texts: usize) -> Result<(), AllocError>
        ensures value { self.new ≡ self.old }
        ensures none { texts ≡ 0 → IsOk result }
    {
        self.ends.reserve(texts)
    }

    /// The next text.
    #[inline(always)]
    pub(crate) fn push(&mut self, text: &str) -> Result<(), AllocError>
        requires { length text.now < 2 ^ 16 }
        ensures ok { OnOk result (self.new ≡ self.old ++ text.now ∷ []) }
        ensures err { OnErr result (self.new ≡ self.old) }
    {
        append(&mut self.ends, &mut self.bytes, text.as_bytes())
    }

    /// Two of the texts joined, as the next one. Takes the time to copy both.
    #[inline(always)]
    pub(crate) fn join(&mut self, first: usize, second: usize) -> Result<(), AllocError>
        requires first { first < length self.old }
        requires second { second < length self.old }
        requires few { (t u : List ℕ) → slice_get self.old first ≡ Some t
            → slice_get self.old second ≡ Some u → length t + length u < 2 ^ 16 }
        ensures ok { OnOk result ((t u : List ℕ) → slice_get self.old first ≡ Some t
            → slice_get self.old second ≡ Some u → self.new ≡ self.old ++ (t ++ u) ∷ []) }
        ensures err { OnErr result (self.new ≡ self.old) }
    {
        let (first, second) = (span_in(&self.ends, first), span_in(&self.ends, second));
        append_joined(&mut self.ends, &mut self.bytes, first, second)
    }

    /// A text.
    #[inline(always)]
    pub(crate) fn get(&self, text: usize) -> &str
        requires { text < length self.now }
        ensures value { slice_get self.now text ≡ Some result.now }
        ensures fits { FitsText result.now }
    {
        let bytes = part(&self.bytes, span_in(&self.ends, text));
        // the bytes were those of a text, or of two
        unsafe { str::from_utf8_unchecked(bytes) }
    }

    /// The first so many.
    pub(crate) fn truncate(&mut self, texts: usize)
        ensures { self.new ≡ take texts self.old }
    {
        if texts >= self.ends.len() {
            return;
        }
        let start = start_in(&self.ends, texts);
        self.ends.truncate(texts);
        self.bytes.truncate(start);
    }
}
