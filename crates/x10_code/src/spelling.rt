ghost use Rattle.std.specs.Prelude.{◌≡◌, ℕ, ◌≢◌, ◌↔◌, Ok, IfOk, IsErrOf, IsTrue, length, slice_index};
ghost use Rattle.x10_code.specs.declared.op.Op.{Op};
ghost use Rattle.x10_code.specs.declared.instr.Instr.{Instr};
ghost use Rattle.x10_code.specs.declared.instr.CodeFault.TheVariants.{UnknownOp};
ghost use Rattle.x10_code.specs.Table.{code_of};
ghost use Rattle.x10_code.specs.Spelling.{fits_operand, fits_form, IsInstr, spelling, decoded};

use crate::instr::{CodeFault, Instr};
use crate::operands::Operand;
use crate::table::{code, form, op_with_code, unused};
use byteorder::{BigEndian, ByteOrder};

/// The instruction that eight bytes spell: the code, a, b and c in a byte each, and x in four, the
/// highest first. An unknown code comes before an unused operand that isn't 0. Constant time.
pub fn decode(bytes: &[u8; 8]) -> Result<Instr, CodeFault>
    ensures exact { result ≡ decoded bytes.now }
    ensures found { IfOk result (λ i. IsInstr i × (bytes.now ≡ spelling i)) }
    ensures only { (i : Instr) → IsInstr i → bytes.now ≡ spelling i → result ≡ Ok i }
    ensures unknown { IsErrOf result UnknownOp ↔ ((o : Op) → code_of o ≢ slice_index bytes.now 0) }
{
    decode_slice(bytes)
}

/// The instruction that eight bytes spell, read where they are, as in a slice of a function's code.
pub fn decode_slice(bytes: &[u8]) -> Result<Instr, CodeFault>
    requires { length bytes.now ≡ 8 }
    ensures exact { result ≡ decoded bytes.now }
    ensures found { IfOk result (λ i. IsInstr i × (bytes.now ≡ spelling i)) }
    ensures only { (i : Instr) → IsInstr i → bytes.now ≡ spelling i → result ≡ Ok i }
    ensures unknown { IsErrOf result UnknownOp ↔ ((o : Op) → code_of o ≢ slice_index bytes.now 0) }
{
    read(bytes)
}

fn read(bytes: &[u8]) -> Result<Instr, CodeFault>
    requires { length bytes.now ≡ 8 }
    ensures { result ≡ decoded bytes.now }
{
    let Some(op) = op_with_code(bytes[0]) else {
        return Err(CodeFault::UnknownOp);
    };
    if BigEndian::read_u64(bytes) & unused(op) != 0 {
        return Err(CodeFault::UnusedNotZero);
    }
    Ok(Instr {
        op,
        a: bytes[1],
        b: bytes[2],
        c: bytes[3],
        x: BigEndian::read_u32(&bytes[4..8]),
    })
}

/// The eight bytes that spell an instruction.
pub fn encode(instr: Instr) -> [u8; 8]
    requires { IsTrue (fits_form instr) }
    ensures value { result ≡ spelling instr }
{
    let mut bytes = [code(instr.op), instr.a, instr.b, instr.c, 0, 0, 0, 0];
    BigEndian::write_u32(&mut bytes[4..], instr.x);
    bytes
}

/// Whether the operands that an instruction's form doesn't use are 0, as `encode` asks.
#[inline(always)]
pub fn has_spelling(instr: Instr) -> bool
    ensures value { result ≡ fits_form instr }
{
    let form = form(instr.op);
    is_fit(form.a, u32::from(instr.a))
        && is_fit(form.b, u32::from(instr.b))
        && is_fit(form.c, u32::from(instr.c))
        && is_fit(form.x, instr.x)
}

#[inline(always)]
fn is_fit(operand: Operand, value: u32) -> bool
    ensures { result ≡ fits_operand operand value }
{
    operand != Operand::Unused || value == 0
}
