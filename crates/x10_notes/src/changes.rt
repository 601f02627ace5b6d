//! What an event changed in registers, and what began.
use crate::known::Known;
use crate::reads::push_with;
use crate::shot::Stood;
use std::alloc::{AllocError, Global};
use std::fmt::Write;
use x10_heap::Heap;
use x10_place::{CallFrame, Place};

/// What is told of a register: what it held before and what it holds now, if these differ; none where nothing is known now.
fn change(
    alloc: Global,
    register: usize,
    before: Option<&String>,
    now: Option<&String>,
) -> Result<Option<String>, AllocError> {
    let Some(now) = now else {
        return Ok(None);
    };
    let Some(before) = before else {
        return Ok(Some(format!(in alloc; "r{register} = {now}")?));
    };
    if before.as_str() == now.as_str() {
        return Ok(None);
    }
    Ok(Some(format!(in alloc; "r{register}: {before} -> {now}")?))
}

/// What a register held, if it was known.
fn known(words: &[Option<String>], register: usize) -> Option<&String> {
    match words.get(register) {
        Some(Some(word)) => Some(word),
        _ => None,
    }
}

/// Pushes words, each with something before it: the first with `first`, the others with `next`.
pub(crate) fn push_each(
    out: &mut String,
    words: &[String],
    first: &str,
    next: &str,
) -> Result<(), AllocError> {
    for i in 0..words.len() {
        out.push_str(if i == 0 { first } else { next })?;
        out.push_str(words[i].as_str())?;
    }
    Ok(())
}

impl<'a> Known<'a> {
    /// What is told of each register of a call frame that holds something else than before.
    fn changes(
        &self,
        heap: &Heap,
        frame: &CallFrame,
        before: &[Option<String>],
    ) -> Result<Vec<String>, AllocError> {
        let words = self.words(heap, frame)?;
        let mut changes = Vec::new(self.alloc);
        for i in 0..words.len() {
            if let Some(change) = change(self.alloc, i, known(before, i), known(&words, i))? {
                changes.push(change)?;
            }
        }
        Ok(changes)
    }

    /// Pushes a line for each register that holds something else than before.
    fn push_changes(
        &self,
        out: &mut String,
        heap: &Heap,
        frame: &CallFrame,
        before: &[Option<String>],
    ) -> Result<(), AllocError> {
        let changes = self.changes(heap, frame, before)?;
        push_each(out, &changes, "\n", "\n")
    }

    /// Pushes what the parameters of a function hold that begins.
    fn push_arguments(
        &self,
        out: &mut String,
        heap: &Heap,
        frame: &CallFrame,
    ) -> Result<(), AllocError> {
        let words = self.words(heap, frame)?;
        let registers = self
            .kinds
            .registers(self.alloc, frame.function(), frame.pc())?;
        push_with(out, &words, &registers)
    }

    /// Pushes that a function was called.
    fn push_called(
        &self,
        out: &mut String,
        heap: &Heap,
        frame: &CallFrame,
    ) -> Result<(), AllocError> {
        let function = frame.function();
        write!(out, "\ncalls f{function}")?;
        self.push_arguments(out, heap, frame)
    }

    /// Pushes that a function goes on that called one.
    fn push_returned(
        &self,
        out: &mut String,
        heap: &Heap,
        frame: &CallFrame,
        before: &[Option<String>],
    ) -> Result<(), AllocError> {
        let function = frame.function();
        write!(out, "\nback in f{function}")?;
        let changes = self.changes(heap, frame, before)?;
        push_each(out, &changes, ": ", ", ")
    }

    /// Pushes what became of a stay, each line with a line feed before it.
    pub(crate) fn push_became(
        &self,
        out: &mut String,
        place: &Place,
        key: usize,
        stood: &Stood,
    ) -> Result<(), AllocError> {
        let Some(stay) = place.stay(key) else {
            return out.push_str("\nends");
        };
        let (heap, frame) = (place.heap(), stay.frame());
        if stay.callers() > stood.callers {
            return self.push_called(out, heap, frame);
        }
        if stay.callers() < stood.callers {
            return self.push_returned(out, heap, frame, &stood.caller);
        }
        self.push_changes(out, heap, frame, &stood.top)
    }

    /// Pushes that an activity began with a key, on a line of its own.
    pub(crate) fn push_begun(
        &self,
        out: &mut String,
        place: &Place,
        key: usize,
    ) -> Result<(), AllocError> {
        let Some(stay) = place.stay(key) else {
            return Ok(());
        };
        out.push_str("\nbegins ")?;
        self.push_activity(out, place.id(), key, stay)?;
        self.push_arguments(out, place.heap(), stay.frame())
    }
}
