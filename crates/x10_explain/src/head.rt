//! The first line of an explanation.
ghost use Rattle.std.specs.Prelude.{◌≡◌, ◌++◌, OnOk, IfOk, codes, decimal};
ghost use Rattle.std.specs.String.{string_bytes};
ghost use Rattle.x10_model.specs.Ranges.{instr_at};
ghost use Rattle.x10_explain.specs.Heads.{head_line, line_if, placed, position_of};

use crate::names::verify_name;
use std::alloc::{AllocError, Global};
use std::fmt::Write;
use x10_asm::push_instruction;
use x10_code::Instr;
use x10_image::ImageView;
use x10_verify::VerifyFault;

/// An instruction of a function, where there is one.
pub(crate) fn instr_in(image: &ImageView, f: usize, pc: usize) -> Option<Instr>
    ensures { result ≡ instr_at image.now f pc }
{
    if f < image.functions() && pc < image.code_len(f) {
        Some(image.instr(f, pc))
    } else {
        None
    }
}

// An instruction's line, where there is one.
fn push_line(out: &mut String, instr: Option<Instr>) -> Result<(), AllocError>
    ensures { OnOk result (string_bytes out.new ≡ string_bytes out.old ++ line_if instr) }
{
    match instr {
        None => out.push_str("isn't there\n"),
        Some(instr) => push_instruction(out, instr),
    }
}

// Where a fault is.
fn push_position(out: &mut String, fault: VerifyFault) -> Result<(), AllocError>
    ensures { OnOk result (string_bytes out.new ≡ string_bytes out.old ++ position_of fault) }
{
    let word = verify_name(fault.cause);
    let (function, pc) = (fault.function, fault.pc);
    write!(out, "{word}, function {function}, instruction {pc}: ")
}

/// Where a fault is in a text, in the form that editors jump to.
pub(crate) fn push_place(
    out: &mut String,
    name: &str,
    line: usize,
    column: usize,
) -> Result<(), AllocError>
    ensures { OnOk result (string_bytes out.new
        ≡ string_bytes out.old ++ placed name.now line column) }
{
    write!(out, "{name}:{line}:{column}: ")
}

/// The rule, the function, and the instruction as the listing writes it.
pub(crate) fn head(
    alloc: Global,
    image: &ImageView,
    fault: VerifyFault,
) -> Result<String, AllocError>
    ensures { IfOk result (λ s. string_bytes s ≡ head_line image.now fault) }
{
    let mut out = String::new(alloc);
    push_position(&mut out, fault)?;
    let instr = instr_in(image, usize::from(fault.function), usize::from(fault.pc));
    push_line(&mut out, instr)?;
    Ok(out)
}
