//! Instructions in words, with what they read.
use crate::known::Known;
use std::alloc::{AllocError, Global};
use std::fmt::Write;
use x10_asm::{next_line, push_instruction};
use x10_code::{Instr, Op, Operand, form};
use x10_place::CallFrame;

/// Pushes what some registers hold, as far as it is known: `, with r1 = 4, r2 = 1`.
pub(crate) fn push_with(
    out: &mut String,
    words: &[Option<String>],
    registers: &[u8],
) -> Result<(), AllocError> {
    let mut before = ", with";
    for register in registers {
        if let Some(Some(word)) = words.get(usize::from(*register)) {
            write!(out, "{before} r{register} = {word}")?;
            before = ",";
        }
    }
    Ok(())
}

/// Adds a register that isn't there yet.
fn add(registers: &mut Vec<u8>, register: u8) -> Result<(), AllocError> {
    if registers.contains(&register) {
        return Ok(());
    }
    registers.push(register)?;
    Ok(())
}

/// Adds so many registers from one on.
fn add_all(registers: &mut Vec<u8>, first: u8, count: usize) -> Result<(), AllocError> {
    for register in first..64 {
        if usize::from(register - first) < count {
            add(registers, register)?;
        }
    }
    Ok(())
}

/// Pushes an instruction as a listing has it, without the line's end.
fn push_listed(alloc: Global, out: &mut String, instr: Instr) -> Result<(), AllocError> {
    let mut line = String::new(alloc);
    push_instruction(&mut line, instr)?;
    match next_line(line.as_str()) {
        Some((words, _)) => out.push_str(words),
        None => Ok(()),
    }
}

impl<'a> Known<'a> {
    /// Whether a function gives a result.
    fn gives(&self, function: u16) -> bool {
        let image = self.verified.image();
        let function = usize::from(function);
        function < image.functions() && image.signature(function).result().is_some()
    }

    /// How many arguments or fields an instruction takes.
    fn taken(&self, instr: Instr) -> usize {
        let image = self.verified.image();
        let number = instr.x as usize;
        match instr.op {
            Op::New if number < image.classes() => image.class(number).len(),
            Op::Call | Op::Async | Op::At | Op::Ata if number < image.functions() => {
                image.signature(number).parameters()
            }
            _ => 0,
        }
    }

    /// Whether an operation in a function reads register a. The others that have one write it.
    fn reads_first(&self, function: u16, op: Op) -> bool {
        match op {
            Op::Jz | Op::Print | Op::Ifhere | Op::Ifsame | Op::Put | Op::Rset => true,
            Op::Ret => self.gives(function),
            _ => false,
        }
    }

    /// Adds the registers that an operand behind the first names: all of them are read.
    fn add_named(
        &self,
        registers: &mut Vec<u8>,
        instr: Instr,
        operand: Operand,
        register: u8,
    ) -> Result<(), AllocError> {
        match operand {
            Operand::Register => add(registers, register),
            Operand::Arguments => add_all(registers, register, self.taken(instr)),
            _ => Ok(()),
        }
    }

    /// The registers that an instruction of a function reads, each once.
    fn reads(&self, function: u16, instr: Instr) -> Result<Vec<u8>, AllocError> {
        let form = form(instr.op);
        let mut registers = Vec::new(self.alloc);
        if self.reads_first(function, instr.op) {
            add(&mut registers, instr.a)?;
        }
        self.add_named(&mut registers, instr, form.b, instr.b)?;
        self.add_named(&mut registers, instr, form.c, instr.c)?;
        Ok(registers)
    }

    /// The instruction at which a call frame stands; none where the module has no such one.
    fn instr(&self, frame: &CallFrame) -> Option<Instr> {
        let image = self.verified.image();
        let (function, pc) = (usize::from(frame.function()), usize::from(frame.pc()));
        if function >= image.functions() || pc >= image.code_len(function) {
            return None;
        }
        Some(image.instr(function, pc))
    }

    /// The instruction at which a call frame stands, with what the registers that it reads hold; `words` are those of the frame.
    pub(crate) fn instruction(
        &self,
        frame: &CallFrame,
        words: &[Option<String>],
    ) -> Result<String, AllocError> {
        let mut out = String::new(self.alloc);
        let Some(instr) = self.instr(frame) else {
            return Ok(out);
        };
        push_listed(self.alloc, &mut out, instr)?;
        let registers = self.reads(frame.function(), instr)?;
        push_with(&mut out, words, &registers)?;
        Ok(out)
    }
}
