ghost use Rattle.x10_code.specs.declared.instr.Instr.{Instr};
ghost use Rattle.std.specs.Prelude.{◌≡◌, ◌≢◌, ◌↔◌, ◌+◌, ◌<◌, ℕ, IfOk, IfErr, IsFalse, IsTrue, Some, length, slice_get};
ghost use Rattle.std.specs.List.{flat_map};
ghost use Rattle.x10_code.specs.declared.instr.Instr as instrs;
ghost use Rattle.x10_code.specs.declared.op.Op.TheVariants as op;
ghost use Rattle.x10_code.specs.Spelling.{IsInstr, spelling as instruction};
ghost use Rattle.x10_image.specs.Parts.{code_at};
ghost use Rattle.x10_kinds.specs.declared.kind.Kind.TheVariants as kind;
ghost use Rattle.x10_model.specs.Assignments.{HasAssignment, IsKind, State};
ghost use Rattle.x10_model.specs.Images.{spelling as image_bytes};
ghost use Rattle.x10_model.specs.Modules.{Function};
ghost use Rattle.x10_model.specs.Ranges.{function_at, instr_at, IsInRange};
ghost use Rattle.x10_verify.specs.Certified.{IsCertified};
ghost use Rattle.x10_verify.specs.Faults.{Refutes};
ghost use Rattle.x10_verify.specs.Least.{HasLeast, IsReached};
ghost use Rattle.x10_verify.specs.Printing.{PrintsText};

use crate::fault::{VerifyCause, VerifyFault, memory, structure};
use crate::printing::{blank_rows, noted};
use crate::states::blank;
use crate::whole::{check_flow, check_ranges, longest};
use std::alloc::Global;
use std::marker::Model;
use x10_bounds::bounds;
use x10_code::Instr;
use x10_image::ImageView;

/// A module that the verifier accepted, with the bound of each function. No activity of it ever goes wrong, nor takes
/// more steps than the bound of its first function.
#[derive(Drop)]
pub struct Verified<'a> {
    image: ImageView<'a>,
    bounds: Vec<u64>,
    // For each function, whether each of its instructions is a PRINT of a text.
    rows: Vec<Vec<bool>>,
}

impl<'a> Model for Verified<'a> {
    ghost use Rattle.x10_verify.specs.Certified.{Certified};
    ghost use Rattle.x10_verify.specs.Printing.{IsKnownWell};

    ghost Value = { Certified };

    ghost view = { λ a. record { program = a.image; bounds = a.bounds.items } };

    ghost invariant = { λ a. IsKnownWell (record { program = a.image; bounds = a.bounds.items }) a.rows.items };
}

/// Verifies a module: memory aside, yes exactly where its structure holds, all that it names is there and each function has a
/// consistent assignment. Takes 32 bytes for each function and one for each instruction and, while it works, 0.4 kB for each
/// instruction of the longest function; and time linear in the instructions, except for those in loops that are looked at
/// again: as often as what is known before them changes.
pub fn verify<'a>(alloc: Global, image: ImageView<'a>) -> Result<Verified<'a>, VerifyFault>
    ensures ok { IfOk result (λ v. (v.program ≡ image.entry) × IsCertified v) }
    ensures err { IfErr result (Refutes image.entry) }
{
    let bounds = match bounds(alloc, &image) {
        Ok(bounds) => bounds,
        Err(fault) => return Err(structure(fault)),
    };
    if let Err(at) = check_ranges(&image) {
        return Err(VerifyFault {
            cause: VerifyCause::Index,
            function: at.function as u16,
            pc: at.pc as u16,
        });
    }
    let Ok(mut table) = blank(alloc, longest(&image)) else {
        return Err(memory());
    };
    let Ok(mut rows) = blank_rows(alloc, &image) else {
        return Err(memory());
    };
    if let Err((function, fault)) = check_flow(&image, &mut table, &mut rows) {
        return Err(VerifyFault {
            cause: fault.cause.named(),
            function: function as u16,
            pc: fault.pc as u16,
        });
    }
    image.fits();
    Ok(Verified {
        image,
        bounds,
        rows,
    })
}

impl<'a> Verified<'a> {
    /// The module's image.
    #[inline(always)]
    pub fn image(&self) -> &ImageView<'a>
        ensures { result.now ≡ self.now.program }
    {
        &self.image
    }

    /// The same module with the same bounds, over other bytes that spell its image. Constant time and no memory.
    pub fn over<'b>(self, bytes: &'b [u8]) -> Verified<'b>
        requires same { bytes.now ≡ image_bytes self.program }
        ensures { result ≡ self.entry }
    {
        Verified {
            image: self.image.over(bytes),
            bounds: self.bounds,
            rows: self.rows,
        }
    }

    /// The most steps that an activity takes that begins with a function. Constant time.
    pub fn bound(&self, f: usize) -> u64
        requires { f < length self.now.program.functions }
        ensures { slice_get self.now.bounds f ≡ Some result }
    {
        self.bounds[f]
    }

    /// What the verifier found about the module, for callers whose own clauses rely on it. It does nothing.
    pub fn certificate(&self)
        ensures { IsCertified self.now }
    {
        let _ = &self.bounds;
    }

    /// Each function has a least assignment: for callers whose own clauses rely on it. It does nothing.
    pub fn assignments(&self)
        ensures { (f : ℕ) (function : Function) → function_at self.now.program f ≡ Some function
            → HasLeast self.now.program function }
    {
        let _ = &self.bounds;
    }

    /// Whether the PRINT at an instruction of a function prints a text: true where the flow reaches it and each consistent
    /// assignment knows a text in its register; false for a number, and everywhere else. Where the flow doesn't reach, an
    /// assignment may know anything, so `number` speaks only of what is reached. Constant time, no memory.
    pub fn prints_text(&self, f: usize, pc: usize) -> bool
        ensures exact { IsTrue result ↔ PrintsText self.now.program f pc }
        ensures text { IsTrue result → (function : Function)
            → function_at self.now.program f ≡ Some function → (i : instrs.Instr)
            → slice_get function.code pc ≡ Some i
            → (a : HasAssignment self.now.program function) (s : State) → a.0 pc ≡ Some s
            → IsKind s i.a kind.Text }
        ensures number { IsFalse result → (function : Function)
            → function_at self.now.program f ≡ Some function
            → IsReached self.now.program function pc → (i : instrs.Instr)
            → slice_get function.code pc ≡ Some i → i.op ≡ op.Print
            → (a : HasAssignment self.now.program function) (s : State) → a.0 pc ≡ Some s
            → IsKind s i.a kind.Int }
    {
        noted(&self.rows, f, pc)
    }

    /// An instruction, with all that is known of it. That another one follows, unless it is a RET, comes from the structure:
    /// a function that nests ends with RET. Constant time, no memory.
    #[inline(always)]
    pub fn fetch(&self, f: usize, pc: usize) -> Instr
        requires function { f < length self.now.program.functions }
        requires pc { pc < length (code_at self.now.program f) }
        ensures value { instr_at self.now.program f pc ≡ Some result }
        ensures fits { IsInstr result }
        ensures in_range { (function : Function) → function_at self.now.program f ≡ Some function
            → IsInRange self.now.program function result }
        ensures follows { result.op ≢ op.Ret → pc + 1 < length (code_at self.now.program f) }
    {
        self.image.instr(f, pc)
    }

    /// The first operand of an instruction, whose operation isn't looked at. Constant time, no memory.
    #[inline(always)]
    pub fn first_operand(&self, f: usize, pc: usize) -> u8
        requires function { f < length self.now.program.functions }
        requires pc { pc < length (code_at self.now.program f) }
        ensures { (i : Instr) → instr_at self.now.program f pc ≡ Some i → result ≡ i.a }
    {
        self.image.first_operand(f, pc)
    }

    /// The code of a function: 8 bytes for each instruction, a part of the image. Constant time, no memory.
    #[inline(always)]
    pub fn code(&self, f: usize) -> &'a [u8]
        requires { f < length self.now.program.functions }
        ensures { result.now ≡ flat_map instruction (code_at self.now.program f) }
    {
        self.image.code(f)
    }

    /// An instruction as `fetch` answers it, from the function's code as `code` gives it. For a loop over the instructions of
    /// one function, where the function is looked up once. Constant time, no memory.
    #[inline(always)]
    pub fn fetch_from(&self, code: &[u8], f: usize, pc: usize) -> Instr
        requires function { f < length self.now.program.functions }
        requires code { code.now ≡ flat_map instruction (code_at self.now.program f) }
        requires pc { pc < length (code_at self.now.program f) }
        ensures value { instr_at self.now.program f pc ≡ Some result }
        ensures fits { IsInstr result }
        ensures in_range { (function : Function) → function_at self.now.program f ≡ Some function
            → IsInRange self.now.program function result }
        ensures follows { result.op ≢ op.Ret → pc + 1 < length (code_at self.now.program f) }
    {
        self.image.instr_from(code, f, pc)
    }
}
