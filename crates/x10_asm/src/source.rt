//! What was read of a text, line by line.

ghost use Rattle.std.specs.Prelude.{◌≡◌, ◌+◌, ◌<◌, ◌^◌, List, true, length};
ghost use Rattle.x10_image.specs.Written.{function_shown};
ghost use Rattle.x10_asm.specs.declared.statement.Statement.TheVariants.{Label};
ghost use Rattle.x10_asm.specs.Lines.{lines, words};
ghost use Rattle.x10_asm.specs.Labels as labels;
ghost use Rattle.x10_asm.specs.LabelLines.{labels_from};
ghost use Rattle.x10_asm.specs.Reading as reading;
ghost use Rattle.x10_asm.specs.Lines as spec;
ghost use Rattle.x10_asm.specs.Sources.{StandsFor, Takes};

use crate::fault::AsmCause;
use crate::label::{Table, labels_of};
use crate::lines::{
    class_of, end_of, entry_of, func_of, int_of, label_at, places_of, text_of, version_of,
};
use crate::operand::instruction_of;
use crate::stage::{Stage, is_inside};
use crate::statement::{Line, Statement, line_of};
use std::alloc::Global;
use std::collections::BTreeMap;
use std::mem::replace;
use x10_code::Op;
use x10_image::{Function, Module, is_known};
use x10_model::ImageVersion;

/// What was read of a text: the module so far, and the function that has begun and not ended, with
/// its labels.
#[derive(Drop)]
pub struct Source<'a> {
    pub stage: Stage,
    pub so_far: Module,
    pub function: Function,
    pub labels: Table<'a>,
}

fn no_function(alloc: Global) -> Function
    ensures { function_shown result ≡ reading.no_function }
{
    Function {
        parameters: Vec::new(alloc),
        registers: 0,
        loops: 0,
        result: None,
        code: Vec::new(alloc),
    }
}

/// Nothing read.
pub fn nothing_read<'a>(alloc: Global) -> Source<'a>
    ensures { StandsFor result reading.nothing_read }
{
    Source {
        stage: Stage::Start,
        so_far: Module {
            version: ImageVersion::One,
            least_places: 0,
            classes: Vec::new(alloc),
            ints: Vec::new(alloc),
            texts: Vec::new(alloc),
            functions: Vec::new(alloc),
            entry: 0,
        },
        function: no_function(alloc),
        labels: BTreeMap::new(alloc),
    }
}

impl<'a> Source<'a> {
    fn take_version(&mut self, line: &str) -> Result<(), AsmCause>
        ensures { (s : reading.Source) → StandsFor self.old s
            → Takes self.new result (reading.with_version s
            (reading.version_of s.stage s.so_far.version (words line.now))) }
    {
        version_of(self.stage, self.so_far.version, line)?;
        self.so_far.version = ImageVersion::Two;
        Ok(())
    }

    fn take_places(&mut self, line: &str) -> Result<(), AsmCause>
        ensures { (s : reading.Source) → StandsFor self.old s
            → Takes self.new result (reading.with_places s
            (reading.places_of s.stage (words line.now))) }
    {
        let places = places_of(self.stage, line)?;
        self.so_far.least_places = places;
        self.stage = Stage::Classes;
        Ok(())
    }

    fn take_class(&mut self, alloc: Global, classes: usize, line: &str) -> Result<(), AsmCause>
        ensures { (s : reading.Source) → StandsFor self.old s
            → Takes self.new result (reading.with_class s
            (reading.class_of s.stage classes (length s.so_far.classes) (words line.now))) }
    {
        let before = self.so_far.classes.len();
        let fields = class_of(alloc, self.stage, classes, before, line)?;
        self.so_far.classes.push(fields)?;
        Ok(())
    }

    fn take_int(&mut self, line: &str) -> Result<(), AsmCause>
        ensures { (s : reading.Source) → StandsFor self.old s
            → Takes self.new result (reading.with_int s
            (reading.int_line_of s.stage (length s.so_far.ints) (words line.now))) }
    {
        let int = int_of(self.stage, self.so_far.ints.len(), line)?;
        self.so_far.ints.push(int)?;
        self.stage = Stage::Ints;
        Ok(())
    }

    fn take_text(&mut self, alloc: Global, line: &str) -> Result<(), AsmCause>
        ensures { (s : reading.Source) → StandsFor self.old s
            → Takes self.new result (reading.with_text s
            (reading.text_of s.stage (length s.so_far.texts) (spec.after_spaces line.now))) }
    {
        let before = self.so_far.texts.len();
        let text = text_of(alloc, self.stage, before, line)?;
        self.so_far.texts.push(text)?;
        self.stage = Stage::Texts;
        Ok(())
    }

    /// Begins a function, whose lines follow from the number of the first of them on.
    fn take_func(
        &mut self,
        alloc: Global,
        classes: usize,
        line: &str,
        number: usize,
        rest: &'a str,
    ) -> Result<(), AsmCause>
        requires { number + length rest.now < 2 ^ 64 }
        ensures { (s : reading.Source) → StandsFor self.old s
            → Takes self.new result (reading.with_func s (labels_from number 0 (lines rest.now))
            (reading.func_of s.stage classes (length s.so_far.functions) (words line.now))) }
    {
        let before = self.so_far.functions.len();
        let function = func_of(alloc, self.stage, classes, before, line)?;
        let labels = labels_of(alloc, number, rest)?;
        self.function = function;
        self.labels = labels;
        self.stage = Stage::Inside;
        Ok(())
    }

    fn take_instruction(&mut self, op: Op, line: &'a str) -> Result<(), AsmCause>
        ensures { (s : reading.Source) → StandsFor self.old s
            → Takes self.new result (reading.instruction_line_of s op (words line.now)) }
    {
        if !is_known(self.so_far.version, op) {
            return Err(AsmCause::Word);
        }
        let inside = is_inside(self.stage);
        let count = self.function.code.len();
        let instr = instruction_of(&self.labels, inside, count, op, line)?;
        self.function.code.push(instr)?;
        Ok(())
    }

    fn take_end(&mut self, alloc: Global, line: &str) -> Result<(), AsmCause>
        ensures { (s : reading.Source) → StandsFor self.old s
            → Takes self.new result (reading.with_end s
            (reading.end_of s.stage (length s.function.code) (words line.now))) }
    {
        end_of(self.stage, self.function.code.len(), line)?;
        let function = replace(&mut self.function, no_function(alloc));
        self.so_far.functions.push(function)?;
        self.labels = BTreeMap::new(alloc);
        self.stage = Stage::Functions;
        Ok(())
    }

    fn take_entry(&mut self, line: &str) -> Result<(), AsmCause>
        ensures { (s : reading.Source) → StandsFor self.old s
            → Takes self.new result (reading.with_entry s
            (reading.entry_of s.stage s.so_far.functions (words line.now))) }
    {
        let entry = entry_of(self.stage, &self.so_far.functions, line)?;
        self.so_far.entry = entry;
        self.stage = Stage::Finished;
        Ok(())
    }

    fn take_label(&self, number: usize, word: &'a str, line: &str) -> Result<(), AsmCause>
        requires { labels.ends_in_colon word.now ≡ true }
        ensures { (s : reading.Source) → StandsFor self.now s
            → Takes self.now result (reading.with_nothing s
            (reading.label_at s.stage s.labels number word.now (words line.now))) }
    {
        label_at(self.stage, &self.labels, number, word, line)
    }

    /// Takes in a line, given the number of classes in the text, its own number, and what follows it. Where it is refused, what
    /// is kept may have changed.
    pub fn take(
        &mut self,
        alloc: Global,
        classes: usize,
        number: usize,
        text: &'a str,
        rest: &'a str,
    ) -> Result<(), AsmCause>
        requires { number + 1 + length rest.now < 2 ^ 64 }
        ensures { (s : reading.Source) → StandsFor self.old s
            → Takes self.new result (reading.after_line classes s number text.now
            (lines rest.now)) }
    {
        let line = line_of(text);
        match line.statement {
            Statement::Silent => Ok(()),
            Statement::Version => self.take_version(line.rest),
            Statement::Places => self.take_places(line.rest),
            Statement::Class => self.take_class(alloc, classes, line.rest),
            Statement::Int => self.take_int(line.rest),
            Statement::Text => self.take_text(alloc, line.rest),
            Statement::Func => self.take_func(alloc, classes, line.rest, number + 1, rest),
            Statement::End => self.take_end(alloc, line.rest),
            Statement::Entry => self.take_entry(line.rest),
            Statement::Label => self.take_label(number, line.first, line.rest),
            Statement::Instruction(op) => self.take_instruction(op, line.rest),
            Statement::Unknown => Err(AsmCause::Word),
        }
    }
}
