//! Whether what an instruction names is there.
ghost use Rattle.std.specs.Prelude.{◌≡◌, ◌↔◌, ◌<◌, ◌≤◌, IsTrue, length, Some, slice_get};
ghost use Rattle.x10_code.specs.Table.{form_of};
ghost use Rattle.x10_image.specs.Parts.{signature_of};
ghost use Rattle.x10_model.specs.Modules.{Function};
ghost use Rattle.x10_model.specs.Ranges.{function_at, argument_count, result_for, IsThere, IsInRange, IsResultRegister, AreArgumentRegisters, result_of, parameters_of, fields_of};
ghost use Rattle.x10_verify.specs.Ranges.{SaysOf};

use x10_code::{Instr, Operand, form};
use x10_image::{ImageView, SigView};
use x10_model::Slot;

/// Whether all that an instruction of a function names is there.
pub(crate) fn in_range(image: &ImageView, f: usize, signature: &SigView, instr: Instr) -> bool
    requires there { f < length image.now.functions }
    requires signature { SaysOf image.now f signature.now }
    ensures { (function : Function) → function_at image.now f ≡ Some function
        → IsTrue result ↔ IsInRange image.now function instr }
{
    let form = form(instr.op);
    is_there(image, f, signature, instr, form.a, u32::from(instr.a))
        && is_there(image, f, signature, instr, form.b, u32::from(instr.b))
        && is_there(image, f, signature, instr, form.c, u32::from(instr.c))
        && is_there(image, f, signature, instr, form.x, instr.x)
}

// Whether what one operand names is there.
#[inline(always)]
fn is_there(
    image: &ImageView,
    f: usize,
    signature: &SigView,
    instr: Instr,
    operand: Operand,
    n: u32,
) -> bool
    requires there { f < length image.now.functions }
    requires signature { SaysOf image.now f signature.now }
    requires result { operand ≡ Operand.Result → (form_of instr.op).a ≡ Operand.Result }
    requires arguments { operand ≡ Operand.Arguments → (form_of instr.op).b ≡ Operand.Arguments }
    ensures { (function : Function) → function_at image.now f ≡ Some function
        → IsTrue result ↔ IsThere image.now function instr operand n }
{
    match operand {
        Operand::Unused | Operand::Count | Operand::Field => true,
        Operand::Register => n < u32::from(signature.registers()),
        Operand::Result => result_fits(image, signature, instr, n),
        Operand::Arguments => arguments_fit(image, signature, instr, n),
        Operand::Slot => n < u32::from(signature.loops()),
        Operand::Int => (n as usize) < image.ints(),
        Operand::Text => (n as usize) < image.texts(),
        Operand::Place => n < u32::from(image.least()),
        Operand::Class => (n as usize) < image.classes(),
        Operand::Function => (n as usize) < image.functions(),
        Operand::Target => (n as usize) < image.code_len(f),
    }
}

// Whether a result's register is there, where there is a result.
fn result_fits(image: &ImageView, signature: &SigView, instr: Instr, n: u32) -> bool
    requires { (form_of instr.op).a ≡ Operand.Result }
    ensures { (function : Function) → signature.now ≡ signature_of function
        → IsTrue result ↔ IsResultRegister function
        (result_for image.now function instr instr.op) n }
{
    match named_result(image, signature, instr) {
        None => true,
        Some(_) => n < u32::from(signature.registers()),
    }
}

// The result of the function that an instruction calls, or else of the one that it ends.
fn named_result(image: &ImageView, signature: &SigView, instr: Instr) -> Option<Slot>
    requires { (form_of instr.op).a ≡ Operand.Result }
    ensures { (function : Function) → signature.now ≡ signature_of function
        → result ≡ result_for image.now function instr instr.op }
{
    if form(instr.op).x == Operand::Function {
        callee_result(image, instr)
    } else {
        signature.result()
    }
}

// The result of the function that an instruction calls.
fn callee_result(image: &ImageView, instr: Instr) -> Option<Slot>
    ensures { result ≡ result_of (function_at image.now instr.x) }
{
    if (instr.x as usize) < image.functions() {
        image.signature(instr.x as usize).result()
    } else {
        None
    }
}

// Whether the registers of the arguments are there.
fn arguments_fit(image: &ImageView, signature: &SigView, instr: Instr, n: u32) -> bool
    requires { (form_of instr.op).b ≡ Operand.Arguments }
    ensures { (function : Function) → signature.now ≡ signature_of function
        → IsTrue result ↔ AreArgumentRegisters function
        (argument_count image.now instr instr.op) n }
{
    let count = named_count(image, instr);
    (count != 0 || n == 0) && n as usize + count <= usize::from(signature.registers())
}

// How many registers an instruction asks for: one for each field of a class, or for each parameter of a function.
fn named_count(image: &ImageView, instr: Instr) -> usize
    requires { (form_of instr.op).b ≡ Operand.Arguments }
    ensures value { result ≡ argument_count image.now instr instr.op }
    ensures few { result ≤ 16 }
{
    if form(instr.op).x == Operand::Class {
        field_count(image, instr)
    } else {
        parameter_count(image, instr)
    }
}

// How many fields the class that an instruction names has.
fn field_count(image: &ImageView, instr: Instr) -> usize
    ensures value { result ≡ length (fields_of (slice_get image.now.classes instr.x)) }
    ensures few { result ≤ 16 }
{
    if (instr.x as usize) < image.classes() {
        image.class(instr.x as usize).len()
    } else {
        0
    }
}

// How many parameters the function that an instruction names has.
fn parameter_count(image: &ImageView, instr: Instr) -> usize
    ensures value { result ≡ length (parameters_of (function_at image.now instr.x)) }
    ensures few { result ≤ 16 }
{
    if (instr.x as usize) < image.functions() {
        image.signature(instr.x as usize).parameters()
    } else {
        0
    }
}
