//! Values and registers in words.
use std::alloc::{AllocError, Global};
use std::fmt::Write;
use x10_heap::Heap;
use x10_kinds::Kind;
use x10_place::CallFrame;
use x10_states::{Kinds, push_value};
use x10_verify::Verified;

/// The registers that a function can have.
const REGISTERS: u8 = 64;

/// What words are made from: the module, and what the verifier knows of its registers.
#[derive(Drop)]
pub(crate) struct Known<'a> {
    pub(crate) alloc: Global,
    pub(crate) verified: &'a Verified<'a>,
    pub(crate) kinds: Kinds,
}

impl<'a> Known<'a> {
    /// The kind of a field of a class; none where there is no such field.
    fn field_kind(&self, class: u16, field: usize) -> Option<Kind> {
        let image = self.verified.image();
        let class = usize::from(class);
        if class >= image.classes() {
            return None;
        }
        let kinds = image.class(class);
        if field >= kinds.len() {
            return None;
        }
        Some(kinds.field(field))
    }

    /// Pushes a field of an object, with a comma before all but the first.
    fn push_field(
        &self,
        out: &mut String,
        heap: &Heap,
        class: u16,
        field: usize,
        word: u64,
    ) -> Result<(), AllocError> {
        if field > 0 {
            out.push_str(", ")?;
        }
        match self.field_kind(class, field) {
            Some(kind) => push_value(self.alloc, out, heap, kind, word),
            None => out.push_str("?"),
        }
    }

    fn push_fields(
        &self,
        out: &mut String,
        heap: &Heap,
        class: u16,
        fields: &[u64],
    ) -> Result<(), AllocError> {
        for field in 0..fields.len() {
            self.push_field(out, heap, class, field, fields[field])?;
        }
        Ok(())
    }

    /// Pushes the class and the fields of an object, if a word names one: it is one more than the object's number.
    fn push_object(&self, out: &mut String, heap: &Heap, word: u64) -> Result<(), AllocError> {
        heap.fits();
        if word == 0 || word > heap.objects() as u64 {
            return Ok(());
        }
        let object = (word - 1) as u32;
        let class = heap.class(object);
        write!(out, " of class {class} ")?;
        out.push_str("{")?;
        self.push_fields(out, heap, class, heap.fields(object))?;
        out.push_str("}")
    }

    /// Pushes a word of a kind as a value; an object with its fields.
    fn push_word(
        &self,
        out: &mut String,
        heap: &Heap,
        kind: Kind,
        word: u64,
    ) -> Result<(), AllocError> {
        push_value(self.alloc, out, heap, kind, word)?;
        match kind {
            Kind::Obj(_) | Kind::Opt(_) => self.push_object(out, heap, word),
            _ => Ok(()),
        }
    }

    /// What a register of a call frame holds; none where the verifier doesn't know its kind there.
    fn word(
        &self,
        heap: &Heap,
        frame: &CallFrame,
        register: u8,
    ) -> Result<Option<String>, AllocError> {
        let Some(kind) = self.kinds.kind(frame.function(), frame.pc(), register) else {
            return Ok(None);
        };
        let Some(word) = frame.registers().get(usize::from(register)) else {
            return Ok(None);
        };
        let mut out = String::new(self.alloc);
        self.push_word(&mut out, heap, kind, *word)?;
        Ok(Some(out))
    }

    /// What each register of a call frame holds, as far as the verifier knows its kind there.
    pub(crate) fn words(
        &self,
        heap: &Heap,
        frame: &CallFrame,
    ) -> Result<Vec<Option<String>>, AllocError> {
        let mut words = Vec::with_capacity(self.alloc, usize::from(REGISTERS))?;
        for register in 0..REGISTERS {
            words.push(self.word(heap, frame, register)?)?;
        }
        Ok(words)
    }
}
