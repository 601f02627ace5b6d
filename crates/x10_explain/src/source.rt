//! The text that a module was read from.
ghost use Rattle.std.specs.Prelude.{IfSome, IsUtf8};

use crate::text::word_at;
use std::alloc::{AllocError, Global};
use x10_asm::{Statement, line_of};

/// Where a function begins in a text.
#[derive(Clone, Copy)]
struct Func {
    /// How many lines come before its own.
    lines: usize,
    /// How many bytes come before its own line.
    bytes: usize,
}

/// A text, and where its functions begin. It takes 16 bytes for each of them.
#[derive(Drop)]
pub struct Source<'a> {
    text: &'a str,
    funcs: Vec<Func>,
}

impl<'a> Source<'a> {
    /// Finds the functions of a text. One pass over its lines.
    pub fn read(alloc: Global, text: &'a str) -> Result<Source<'a>, AllocError> {
        let mut funcs = Vec::new(alloc);
        let mut bytes: usize = 0;
        for (lines, line) in text.split('\n').enumerate() {
            if let Some(("func", _)) = word_at(line, 0) {
                funcs.push(Func { lines, bytes })?;
            }
            bytes = bytes.saturating_add(line.len()).saturating_add(1);
        }
        Ok(Source { text, funcs })
    }

    /// The text from the first line of function `f` on.
    pub(crate) fn from_function(&self, f: usize) -> Option<&'a str> {
        self.text.get(self.funcs.get(f)?.bytes..)
    }

    /// The line of an instruction, and its number from 1; none where the text has no such instruction. Linear in the lines of
    /// the instruction's function.
    pub fn line_of(&self, f: usize, pc: usize) -> Option<(usize, &'a str)>
        ensures { IfSome result (λ x. IsUtf8 x.1.now) }
    {
        let func = *self.funcs.get(f)?;
        let text = self.from_function(f)?;
        let mut left = pc;
        for (index, line) in text.lines().enumerate() {
            if !matches!(line_of(line).statement, Statement::Instruction(_)) {
                continue;
            }
            if left == 0 {
                let before = func.lines.saturating_add(index);
                return Some((before.saturating_add(1), line));
            }
            left -= 1;
        }
        None
    }
}
