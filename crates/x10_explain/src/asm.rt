//! Why the assembler refuses a text.
ghost use Rattle.std.specs.Prelude.{◌≡◌, ◌++◌, List, ℕ, IfOk, OnOk};
ghost use Rattle.std.specs.String.{string_bytes};
ghost use Rattle.x10_explain.specs.Heads.{asm_head, placed_asm_head};

use crate::caret::{column_in, tell_marks};
use crate::faulty::{Faulty, faulty_at, names_class};
use crate::flaws::tell_flaw;
use crate::labels::{tell_definition, tell_use};
use crate::names::asm_name;
use crate::order::{tell_entry, tell_missing, tell_order, tell_outside};
use crate::quotes::tell_quotes;
use crate::teller::{Name, Teller};
use std::alloc::{AllocError, Global};
use std::fmt::Write;
use x10_asm::{AsmCause, AsmFault, Statement, classes_in, flaw_in, line_of, next_line, version_in};

/// Why a text spells no module, in at most 5 lines: the cause and the number of the line, with the line itself and marks
/// beneath the word at fault; which case of the cause it is, and where it helps what such a line has to be. Linear in the text
/// up to the faulty line, and in all of it where the line names classes, labels or functions.
pub fn explain_asm(alloc: Global, text: &str, fault: AsmFault) -> Result<String, AllocError>
    ensures { IfOk result (λ s. (rest : List ℕ) × (string_bytes s ≡ asm_head fault ++ rest)) }
{
    explained(alloc, text, fault, faulty_at(text, fault).as_ref())
}

/// The same, given the refused line, if the text has it.
pub(crate) fn explained(
    alloc: Global,
    text: &str,
    fault: AsmFault,
    faulty: Option<&Faulty>,
) -> Result<String, AllocError>
    ensures { IfOk result (λ s. (rest : List ℕ) × (string_bytes s ≡ asm_head fault ++ rest)) }
{
    let mut out = String::new(alloc);
    push_head(&mut out, fault)?;
    let rest = reasons(alloc, text, fault, faulty, out.len())?;
    out.push_str(&rest)?;
    Ok(out)
}

/// The same, but the text's name, the line, and the column of the word at fault come first, in the form that editors jump to:
/// `first.asm:6:3: Number: `. Columns are counted in characters, from 1 on.
pub fn explain_asm_in(
    alloc: Global,
    name: &str,
    text: &str,
    fault: AsmFault,
) -> Result<String, AllocError>
    ensures { IfOk result (λ s. (column : ℕ) × (rest : List ℕ)
        × (string_bytes s ≡ placed_asm_head name.now column fault ++ rest)) }
{
    let faulty = faulty_at(text, fault);
    let mut out = String::new(alloc);
    push_placed_head(&mut out, name, column_of(faulty.as_ref()), fault)?;
    let before = out.chars().count();
    let rest = reasons(alloc, text, fault, faulty.as_ref(), before)?;
    out.push_str(&rest)?;
    Ok(out)
}

// The text's name, the line and the column, and the cause.
fn push_placed_head(
    out: &mut String,
    name: &str,
    column: usize,
    fault: AsmFault,
) -> Result<(), AllocError>
    ensures { OnOk result (string_bytes out.new
        ≡ string_bytes out.old ++ placed_asm_head name.now column fault) }
{
    let (word, number) = (asm_name(fault.cause), fault.line);
    write!(out, "{name}:{number}:{column}: {word}: ")
}

/// The column of the word at fault, in characters, from 1 on.
pub(crate) fn column_of(faulty: Option<&Faulty>) -> usize {
    match faulty {
        Some(faulty) => column_in(faulty.line, faulty.mark),
        None => 1,
    }
}

// The cause and the line's number.
fn push_head(out: &mut String, fault: AsmFault) -> Result<(), AllocError>
    ensures { OnOk result (string_bytes out.new ≡ string_bytes out.old ++ asm_head fault) }
{
    let word = asm_name(fault.cause);
    let line = fault.line;
    write!(out, "{word}, line {line}: ")
}

// The line itself, to the right of what stands there already, `before` columns, and what comes below it.
fn reasons(
    alloc: Global,
    text: &str,
    fault: AsmFault,
    faulty: Option<&Faulty>,
    before: usize,
) -> Result<String, AllocError> {
    let mut out = Teller::new(alloc);
    match faulty {
        Some(faulty) => {
            out.say("{}", &[Name::Shown(faulty.line)]);
            tell_marks(&mut out, before, faulty.line, faulty.mark);
            tell_case(&mut out, text, faulty);
        }
        None => {
            out.say("the text ends before it.\n", &[]);
            if fault.cause == AsmCause::Order {
                tell_missing(&mut out, text);
            }
        }
    }
    out.finish()
}

// What is wrong with a line, by itself or among the others of its text.
fn tell_case(out: &mut Teller, text: &str, faulty: &Faulty) {
    let (number, line, said) = (faulty.fault.line, faulty.line, faulty.said);
    if let Some(flaw) = faulty.flaw {
        if flaw.cause == faulty.fault.cause {
            return tell_flaw(out, faulty, flaw);
        }
        return tell_none(out);
    }
    match (faulty.fault.cause, faulty.quotes) {
        (AsmCause::Order, _) => tell_order(out, text, number, said.statement, said.first),
        (AsmCause::Label, _) if said.statement == Statement::Label => {
            tell_definition(out, text, number, said.first);
        }
        (AsmCause::Label, _) => match faulty.word().strip_prefix('@') {
            Some(name) => tell_use(out, text, number, name),
            None => tell_none(out),
        },
        (AsmCause::Text, Some(wrong)) => tell_quotes(out, line, wrong, faulty.word()),
        (AsmCause::Limit, _) => tell_outside(out, text, number, line, said.statement),
        (AsmCause::Entry, _) => tell_entry(out, text, number, line),
        _ => tell_none(out),
    }
}

// That the fault isn't one of this text.
fn tell_none(out: &mut Teller) {
    out.say(
        "Nothing of this sort is wrong there: the fault isn't this text's.\n",
        &[],
    );
}

/// The first line after line `first` of a text that is faulty by itself. One pass over the text, or two.
pub(crate) fn faulty_after(text: &str, first: usize) -> Option<Faulty<'_>> {
    let version = version_in(text);
    let mut known: Option<usize> = None;
    let mut rest = text;
    for index in 0..text.len() {
        let (line, after) = next_line(rest)?;
        rest = after;
        if index < first {
            continue;
        }
        let said = line_of(line);
        if names_class(said) && known.is_none() {
            known = Some(classes_in(text));
        }
        let classes = known.unwrap_or(0);
        if let Some(flaw) = flaw_in(said, classes, version) {
            let fault = AsmFault {
                line: index.saturating_add(1),
                cause: flaw.cause,
            };
            return Some(Faulty::new(fault, line, said, classes, Some(flaw)));
        }
    }
    None
}
