//! The words of labels, and what registers hold in words.
use crate::parts::{Part, Point};
use crate::sketch::Step;
use crate::table::{Shape, names};
use crate::template::Pushed;
use crate::words::{first_of, push_cut, width_of};
use std::alloc::{AllocError, Global};
use std::fmt::Write;
use x10_asm::push_quoted;
use x10_code::{Instr, Op, Operand, form, name};
use x10_heap::Heap;
use x10_kinds::Kind;
use x10_place::{CallFrame, Line};
use x10_states::{Kinds, push_value};
use x10_verify::Verified;
use x10_world::World;

/// The most letters of what the parameters of a function hold that a label shows.
const ARGUMENTS: usize = 12;

/// What words are made from: the module, what the verifier knows of its registers, and the most letters of a value.
#[derive(Drop)]
pub(crate) struct Known<'a> {
    pub(crate) alloc: Global,
    letters: usize,
    verified: &'a Verified<'a>,
    kinds: Kinds,
}

/// The call frame of a stay, and what the activities of its place share.
#[derive(Clone, Copy)]
struct View<'v> {
    heap: &'v Heap,
    frame: &'v CallFrame,
}

/// The view of the stay that a world has at a point.
fn view_at<'v>(world: &'v World, at: Point) -> Option<View<'v>> {
    let place = world.place(at.place)?;
    let stay = place.stay(at.lane.checked_sub(1)?)?;
    Some(View {
        heap: place.heap(),
        frame: stay.frame(),
    })
}

/// Whether an operation that goes on to the next instruction sets its first register.
fn sets(op: Op) -> bool {
    match op {
        Op::Jz | Op::Print | Op::Ifhere | Op::Ifsame | Op::Put | Op::Rset => false,
        _ => form(op).a == Operand::Register,
    }
}

impl<'a> Known<'a> {
    /// What is known of a module, for values of at most `letters` letters.
    pub(crate) fn new(
        alloc: Global,
        verified: &'a Verified<'a>,
        letters: usize,
    ) -> Result<Known<'a>, AllocError> {
        let kinds = Kinds::new(alloc, verified)?;
        Ok(Known {
            alloc,
            letters,
            verified,
            kinds,
        })
    }

    /// An instruction of a function; none where the module has no such one.
    fn instr(&self, function: u16, pc: u16) -> Option<Instr> {
        let image = self.verified.image();
        let (function, pc) = (usize::from(function), usize::from(pc));
        if function >= image.functions() || pc >= image.code_len(function) {
            return None;
        }
        Some(image.instr(function, pc))
    }

    /// The register that a call frame has got something in from the function that its last instruction named, by a CALL or an AT,
    /// and the instruction before which its kind is known.
    fn given(&self, frame: &CallFrame) -> Option<(u16, u8)> {
        let image = self.verified.image();
        let instr = self.instr(frame.function(), frame.pc().checked_sub(1)?)?;
        let (operands, named) = (form(instr.op), instr.x as usize);
        if operands.a != Operand::Result || operands.x != Operand::Function {
            return None;
        }
        if named >= image.functions() {
            return None;
        }
        image.signature(named).result()?;
        Some((frame.pc(), instr.a))
    }

    /// The register that a step has set, or whose value it has written elsewhere, and the instruction before which its kind is
    /// known.
    fn changed(&self, frame: &CallFrame, function: u16, pc: u16) -> Option<(u16, u8)> {
        let instr = self.instr(function, pc)?;
        match instr.op {
            Op::Put => Some((pc, instr.b)),
            Op::Rset => Some((pc, instr.c)),
            op if sets(op) && frame.pc().checked_sub(1) == Some(pc) => Some((frame.pc(), instr.a)),
            _ => None,
        }
    }

    /// Pushes what a register holds, after a space, if its kind is known before an instruction of the function. Answers whether it
    /// is. Of a text this is as much as a label may show.
    fn push_held(
        &self,
        out: &mut String,
        view: View,
        (pc, register): (u16, u8),
    ) -> Result<bool, AllocError> {
        let kind = self.kinds.kind(view.frame.function(), pc, register);
        let word = view.frame.registers().get(usize::from(register));
        let (Some(kind), Some(word)) = (kind, word) else {
            return Ok(false);
        };
        match kind {
            Kind::Text => self.push_text(out, view.heap, *word)?,
            _ => {
                out.push_str(" ")?;
                push_value(self.alloc, out, view.heap, kind, *word)?;
            }
        }
        Ok(true)
    }

    /// Pushes a text by its number, in quotes, as far as a label may show it.
    fn push_text(&self, out: &mut String, heap: &Heap, word: u64) -> Pushed {
        heap.fits();
        if word >= heap.texts() as u64 {
            return push_quoted(out, "");
        }
        push_quoted(out, first_of(heap.text(word as u32), self.letters))
    }

    /// Pushes what a register holds with a mark and its name, cut as a label is: ` r1 = 5`; nothing where its kind isn't known.
    fn push_register(
        &self,
        out: &mut String,
        view: View,
        mark: &str,
        register: Option<(u16, u8)>,
    ) -> Pushed {
        let Some((pc, register)) = register else {
            return Ok(());
        };
        let mut words = String::new(self.alloc);
        if self.push_held(&mut words, view, (pc, register))? {
            write!(out, "{mark} r{register} =")?;
            push_cut(out, &words, self.letters)?;
        }
        Ok(())
    }

    /// How many parameters a function has.
    fn parameters(&self, function: u16) -> u8 {
        let image = self.verified.image();
        let function = usize::from(function);
        if function >= image.functions() {
            return 0;
        }
        u8::try_from(image.signature(function).parameters()).unwrap_or(u8::MAX)
    }

    /// Pushes the function that a stay begins, with what its parameters hold, if that is short: `f1(7, rail 0)`.
    fn push_begun(&self, out: &mut String, view: View) -> Pushed {
        let function = view.frame.function();
        write!(out, "f{function}")?;
        let mut words = String::new(self.alloc);
        for register in 0..self.parameters(function) {
            if register > 0 {
                words.push_str(",")?;
            }
            if !self.push_held(&mut words, view, (0, register))? {
                words.push_str(" ?")?;
            }
        }
        match words.strip_prefix(' ') {
            Some(words) if width_of(words) <= ARGUMENTS => write!(out, "({words})"),
            Some(_) => out.push_str("(\u{2026})"),
            None => Ok(()),
        }
    }

    /// Pushes some words, and that the stay at a point begins.
    pub(crate) fn push_begins(
        &self,
        out: &mut String,
        before: &str,
        world: &World,
        at: Point,
    ) -> Pushed {
        let Some(view) = view_at(world, at) else {
            return Ok(());
        };
        out.push_str(before)?;
        self.push_begun(out, view)?;
        out.push_str(" begins")
    }

    /// Pushes what a step has done in its call frame: the function that it has called, the one that it has returned to, or the
    /// register that it has set or written elsewhere.
    fn push_done(&self, out: &mut String, view: View, step: Step) -> Pushed {
        match step.op {
            Op::Call => {
                out.push_str(" ")?;
                self.push_begun(out, view)
            }
            Op::Ret => {
                let function = view.frame.function();
                write!(out, " to f{function}")?;
                self.push_register(out, view, ":", self.given(view.frame))
            }
            _ => {
                let register = self.changed(view.frame, step.function, step.pc);
                self.push_register(out, view, "", register)
            }
        }
    }

    /// Pushes what a step did: function, instruction and operation, as the listing has them; the stay that it began, the finish
    /// that it opened or closed, or what it did in its call frame; and the frames that it put out.
    pub(crate) fn push_step(
        &self,
        words: &mut String,
        world: &World,
        step: Step,
        frames: Option<&[Part]>,
    ) -> Pushed {
        let (function, pc, name) = (step.function, step.pc, name(step.op));
        write!(words, "{function}:{pc} {name}")?;
        self.push_deed(words, world, step)?;
        for frame in frames.unwrap_or(&[]) {
            let (name, number) = (names()[frame.shape as usize], frame.number);
            write!(words, " {name} {number}")?;
        }
        if !step.lives {
            words.push_str(" end")?;
        }
        Ok(())
    }

    /// Pushes what a step did besides frames.
    fn push_deed(&self, words: &mut String, world: &World, step: Step) -> Pushed {
        if let Some(number) = step.finish {
            let home = step.at.place;
            return write!(words, " finish {home}.{number}");
        }
        if let Some(began) = step.began {
            return self.push_begins(words, " ", world, began);
        }
        match view_at(world, step.at) {
            Some(view) => self.push_done(words, view, step),
            None => Ok(()),
        }
    }

    /// Pushes a step that printed the last of its place's lines, cut; and all of the line, if it was cut.
    pub(crate) fn push_printed(
        &self,
        words: &mut String,
        full: &mut String,
        world: &World,
        step: Step,
    ) -> Pushed {
        let (function, pc) = (step.function, step.pc);
        write!(words, "{function}:{pc} PRINT")?;
        let Some(lines) = world.output(step.at.place) else {
            return Ok(());
        };
        match lines.last() {
            Some(Line::Int(number)) => write!(words, " {number}"),
            Some(Line::Text(line)) => {
                words.push_str(" ")?;
                if push_cut(words, line, self.letters)? {
                    full.push_str(line)?;
                }
                Ok(())
            }
            None => Ok(()),
        }
    }

    /// Pushes what a delivery did: the frame, and the function that begins at a point or what came back there.
    pub(crate) fn push_taken(
        &self,
        words: &mut String,
        world: &World,
        arrow: Part,
        at: Point,
    ) -> Pushed {
        let (name, number) = (names()[arrow.shape as usize], arrow.number);
        write!(words, "{name} {number}")?;
        match (arrow.shape, view_at(world, at)) {
            (Shape::Back, Some(view)) => {
                self.push_register(words, view, ":", self.given(view.frame))
            }
            _ => self.push_begins(words, ": ", world, at),
        }
    }
}
