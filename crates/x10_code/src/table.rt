ghost use Rattle.std.specs.Prelude.{◌≡◌, Some, IfSome};
ghost use Rattle.x10_code.specs.declared.op.Op.{Op};
ghost use Rattle.x10_code.specs.Table.{code_of, name_of, group_of, form_of, op_of_name};
ghost use Rattle.x10_code.specs.Spelling.{op_of, unused_of};

use crate::groups::Group;
use crate::op::{OPERATIONS, Op, table};
use crate::operands::{Form, Operand};

macro_rules! code_in {
    (($op:expr) $($variant:ident row($code:literal, $($rest:tt)*);)*) => {
        match $op {
            $(Op::$variant => $code,)*
        }
    };
}

macro_rules! coded {
    (($code_given:expr) $($variant:ident row($code:literal, $($rest:tt)*);)*) => {
        Some(match $code_given {
            $($code => Op::$variant,)*
            _ => return None,
        })
    };
}

macro_rules! name_in {
    (($op:expr) $($variant:ident row($code:literal, $name:literal, $($rest:tt)*);)*) => {
        match $op {
            $(Op::$variant => $name,)*
        }
    };
}

macro_rules! named_as {
    (($name_given:expr) $($variant:ident row($code:literal, $name:literal, $($rest:tt)*);)*) => {
        match $name_given {
            $($name => Some(Op::$variant),)*
            _ => None,
        }
    };
}

macro_rules! group_in {
    (($op:expr) $($variant:ident row($code:literal, $name:literal, $group:ident, $($rest:tt)*);)*) => {
        match $op {
            $(Op::$variant => Group::$group,)*
        }
    };
}

macro_rules! form_in {
    (($op:expr) $($variant:ident row($code:literal, $name:literal, $group:ident, $a:ident, $b:ident, $c:ident, $x:ident);)*) => {
        match $op {
            $(Op::$variant => Form { a: Operand::$a, b: Operand::$b, c: Operand::$c, x: Operand::$x },)*
        }
    };
}

// The bits of an operand, where it is one that isn't used.
macro_rules! bits_of {
    (Unused, $bits:literal) => {
        $bits
    };
    ($operand:ident, $bits:literal) => {
        0
    };
}

macro_rules! unused_in {
    (($op:expr) $($variant:ident row($code:literal, $name:literal, $group:ident, $a:ident, $b:ident, $c:ident, $x:ident);)*) => {
        match $op {
            $(Op::$variant => {
                bits_of!($a, 0x00ff_0000_0000_0000)
                    + bits_of!($b, 0x0000_ff00_0000_0000)
                    + bits_of!($c, 0x0000_00ff_0000_0000)
                    + bits_of!($x, 0x0000_0000_ffff_ffff)
            })*
        }
    };
}

/// The first byte of an operation's spelling.
pub fn code(op: Op) -> u8
    ensures value { result ≡ code_of op }
{
    table!(code_in(op))
}

/// The operation with a code. Constant time.
pub fn op_with_code(code: u8) -> Option<Op>
    ensures value { result ≡ op_of code }
{
    table!(coded(code))
}

/// The name of an operation in assembler text and in listings.
pub fn name(op: Op) -> &'static str
    ensures value { result.now ≡ name_of op }
{
    table!(name_in(op))
}

/// The group of an operation.
pub fn group(op: Op) -> Group
    ensures value { result ≡ group_of op }
{
    table!(group_in(op))
}

/// What the operands of an operation name.
pub fn form(op: Op) -> Form
    ensures value { result ≡ form_of op }
{
    table!(form_in(op))
}

/// Where an instruction has to be 0, since its operation doesn't use the operand: bits of its eight bytes as one number, the
/// first byte highest.
pub(crate) fn unused(op: Op) -> u64
    ensures value { result ≡ unused_of (form_of op) }
{
    table!(unused_in(op))
}

/// The operation with a name, which is in capitals. Constant time, except where no operation has the name: then it compares the
/// names one by one.
pub fn op_named(name: &str) -> Option<Op>
    ensures found { IfSome result (λ o. name.now ≡ name_of o) }
    ensures only { (o : Op) → name.now ≡ name_of o → result ≡ Some o }
{
    named(name)
}

fn named(text: &str) -> Option<Op>
    ensures { result ≡ op_of_name text.now }
{
    match likely_named(text) {
        Some(op) if name(op) == text => Some(op),
        _ => first_named(text),
    }
}

/// The operation with a name, by one match. Nothing is proved of it: so many texts to compare with take a minute. Who asks looks
/// whether the operation has the name.
fn likely_named(text: &str) -> Option<Op> {
    table!(named_as(text))
}

fn first_named(text: &str) -> Option<Op>
    ensures { result ≡ op_of_name text.now }
{
    OPERATIONS.iter().copied().find(|op| name(*op) == text)
}
