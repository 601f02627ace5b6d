//! Which instructions print a text.
ghost use Rattle.std.specs.Prelude.{◌≡◌, ◌↔◌, ◌<◌, ◌≤◌, ℕ, IfOk, IsTrue, length};
ghost use Rattle.x10_image.specs.Parts.{code_at};
ghost use Rattle.x10_model.specs.Ranges.{instr_at};
ghost use Rattle.x10_verify.specs.Known.{kind_in};
ghost use Rattle.x10_verify.specs.Printing.{HasRows, bit_at, bit_in, is_print, is_text, is_text_in, prints_in};
ghost use Rattle.x10_verify.specs.States.{state_if, stated};

use crate::states::{Entry, Mark};
use std::alloc::{AllocError, Global};
use x10_code::{Instr, Op};
use x10_image::ImageView;
use x10_kinds::Kind;

/// A row for each function, with room for one answer for each instruction. A byte for each.
pub(crate) fn blank_rows(alloc: Global, image: &ImageView) -> Result<Vec<Vec<bool>>, AllocError>
    ensures { IfOk result (λ rows. HasRows image.now rows.items) }
{
    let mut rows = Vec::with_capacity(alloc, image.functions())?;
    for f in 0..image.functions() {
        let row = vec![in alloc; false; image.code_len(f)]?;
        rows.push(row)?;
    }
    Ok(rows)
}

/// Notes of each instruction of a function whether it is a PRINT of a text, by the states that are known before them. One pass
/// over the code, which looks only at the states of PRINTs.
pub(crate) fn note(image: &ImageView, f: usize, table: &Vec<Entry>, row: &mut Vec<bool>)
    requires there { f < length image.now.functions }
    requires room { length (code_at image.now f) ≤ length table.now.items }
    requires size { length row.old.items ≡ length (code_at image.now f) }
    ensures noted { (pc : ℕ) → bit_in row.new.items pc
        ≡ prints_in (instr_at image.now f pc) (stated table.now.items pc) }
    ensures size { length row.new.items ≡ length row.old.items }
{
    let code = image.code(f);
    for pc in 0..image.code_len(f) {
        row[pc] = prints(image.instr_from(code, f, pc), &table[pc]);
    }
}

/// The answer of a row for an instruction, and false where there is none.
pub(crate) fn noted(rows: &Vec<Vec<bool>>, f: usize, pc: usize) -> bool
    ensures { result ≡ bit_at rows.now.items f pc }
{
    f < rows.len() && pc < rows[f].len() && rows[f][pc]
}

// Whether an instruction is a PRINT whose register is known to hold a text.
fn prints(instr: Instr, entry: &Entry) -> bool
    ensures { result ≡ prints_in (Some instr) (state_if entry.now.mark entry.now.known) }
{
    matches!(instr.op, Op::Print) && holds_text(entry, instr.a)
}

// Whether a register is known to hold a text.
fn holds_text(entry: &Entry, register: u8) -> bool
    ensures { result ≡ is_text_in (state_if entry.now.mark entry.now.known) register }
{
    match entry.mark {
        Mark::Unreached => false,
        Mark::Waiting | Mark::Done => matches!(entry.known.kind(register), Some(Kind::Text)),
    }
}
