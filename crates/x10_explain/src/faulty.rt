//! A faulty line of a text, taken apart once.

use crate::caret::{Span, marked};
use crate::quotes::{Misquoted, in_quotes};
use x10_asm::{
    AsmCause, AsmFault, Flaw, Line, Statement, classes_in, flaw_in, line_of, next_line, version_in,
};
use x10_model::ImageVersion;

/// A line that is refused, and what is found in it.
#[derive(Clone, Copy)]
pub(crate) struct Faulty<'a> {
    pub(crate) fault: AsmFault,
    pub(crate) line: &'a str,
    pub(crate) said: Line<'a>,
    /// How many classes the text has, as far as the line may name one.
    pub(crate) classes: usize,
    /// The word at which the line is faulty whatever the other lines say.
    pub(crate) flaw: Option<Flaw<'a>>,
    /// What is wrong with its text in quotes, where nothing else is and it is refused for that.
    pub(crate) quotes: Option<Misquoted>,
    /// The word at which it is refused.
    pub(crate) mark: Option<Span>,
}

impl<'a> Faulty<'a> {
    /// A line with what it says and its flaw, in a text that has so many classes as far as the line may name one.
    pub(crate) fn new(
        fault: AsmFault,
        line: &'a str,
        said: Line<'a>,
        classes: usize,
        flaw: Option<Flaw<'a>>,
    ) -> Faulty<'a> {
        Faulty {
            fault,
            line,
            said,
            classes,
            flaw,
            quotes: None,
            mark: marked(line, said, fault.cause, flaw),
        }
    }

    /// The word at which it is refused; the empty one where none is found.
    pub(crate) fn word(&self) -> &'a str {
        let line = self.line;
        match self.mark {
            Some(span) => line.get(span.from..span.to).unwrap_or(""),
            None => "",
        }
    }
}

/// The line of a text that is refused, if the text has it.
pub(crate) fn faulty_at<'a>(text: &'a str, fault: AsmFault) -> Option<Faulty<'a>> {
    let line = line_at(text, fault.line)?;
    let said = line_of(line);
    if fault.cause == AsmCause::Text
        && said.statement == Statement::Text
        && let Some((wrong, mark)) = in_quotes(line, line.len().saturating_sub(said.rest.len()))
    {
        return Some(Faulty {
            fault,
            line,
            said,
            classes: 0,
            flaw: None,
            quotes: Some(wrong),
            mark,
        });
    }
    let classes = if names_class(said) {
        classes_in(text)
    } else {
        0
    };
    let version = match said.statement {
        Statement::Instruction(_) => version_in(text),
        _ => ImageVersion::One,
    };
    let flaw = flaw_in(said, classes, version);
    Some(Faulty::new(fault, line, said, classes, flaw))
}

// The line with a number, from 1 on.
fn line_at(text: &str, number: usize) -> Option<&str> {
    let mut rest = text;
    for _ in 0..number.checked_sub(1)? {
        let (_, after) = next_line(rest)?;
        rest = after;
    }
    let (line, _) = next_line(rest)?;
    Some(line)
}

/// Whether a line may name a class.
pub(crate) fn names_class(said: Line) -> bool {
    matches!(said.statement, Statement::Class | Statement::Func)
}
