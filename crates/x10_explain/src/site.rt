//! A function of a module.
ghost use Rattle.std.specs.Prelude.{◌<◌, length};

use crate::head::instr_in;
use crate::source::Source;
use crate::teller::Name;
use std::alloc::{AllocError, Global};
use x10_bounds::{Spot, surroundings};
use x10_code::Instr;
use x10_image::{ClassView, ImageView, SigView};
use x10_verify::{Flow, known_flow};

/// A function of a module, and the text that the module was read from, where there is one.
#[derive(Clone, Copy)]
pub(crate) struct Site<'a> {
    pub(crate) image: &'a ImageView<'a>,
    pub(crate) source: Option<&'a Source<'a>>,
    pub(crate) f: usize,
    ghost there: { f < length image.now.functions },
}

impl<'a> Site<'a> {
    /// Function `f`, if it is there.
    pub(crate) fn new(
        image: &'a ImageView<'a>,
        source: Option<&'a Source<'a>>,
        f: usize,
    ) -> Option<Site<'a>> {
        if f < image.functions() {
            Some(Site { image, source, f })
        } else {
            None
        }
    }

    pub(crate) fn signature(&self) -> SigView<'a> {
        self.image.signature(self.f)
    }

    /// How many instructions it has.
    pub(crate) fn len(&self) -> usize {
        self.image.code_len(self.f)
    }

    pub(crate) fn instr(&self, pc: usize) -> Option<Instr> {
        instr_in(self.image, self.f, pc)
    }

    /// What is known at each instruction.
    pub(crate) fn flow(&self, alloc: Global) -> Result<Flow, AllocError> {
        known_flow(alloc, self.image, self.f)
    }

    /// What is around each instruction.
    pub(crate) fn spots(&self, alloc: Global) -> Result<Vec<Spot>, AllocError> {
        surroundings(alloc, self.image, self.f)
    }

    /// The signature of the function that an instruction names, if it is there.
    pub(crate) fn callee(&self, instr: Instr) -> Option<SigView<'a>> {
        let f = instr.x as usize;
        if f < self.image.functions() {
            Some(self.image.signature(f))
        } else {
            None
        }
    }

    /// The fields of a class, if it is there.
    pub(crate) fn fields(&self, class: usize) -> Option<ClassView<'a>> {
        if class < self.image.classes() {
            Some(self.image.class(class))
        } else {
            None
        }
    }

    /// An instruction, to the end of its line: where there is a text, its line there, and else as the listing writes it, with its
    /// number.
    pub(crate) fn at(&self, pc: usize) -> Name<'a> {
        if let Some(source) = self.source
            && let Some((number, line)) = source.line_of(self.f, pc)
        {
            return Name::Line(number, line.trim_start_matches(' '));
        }
        Name::Step(pc, self.instr(pc))
    }
}
