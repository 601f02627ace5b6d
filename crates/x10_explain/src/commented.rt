//! A text as comments.
ghost use Rattle.std.specs.Prelude.{◌≡◌, ◌++◌, [], true, OnOk};
ghost use Rattle.std.specs.String.{string_bytes};
ghost use Rattle.x10_asm.specs.Comments.{Tells, comment, is_feedless};

use std::alloc::AllocError;
use x10_asm::next_line;

/// Each line of a text as a comment of its own, whatever it is.
pub(crate) fn push_commented(out: &mut String, text: &str) -> Result<(), AllocError>
    ensures { OnOk result (Tells (string_bytes out.old) (string_bytes out.new) []) }
{
    let mut rest = text;
    while let Some((line, after)) = next_line(rest) {
        push_comment(out, line)?;
        rest = after;
    }
    Ok(())
}

/// One line as a comment.
fn push_comment(out: &mut String, line: &str) -> Result<(), AllocError>
    requires { is_feedless line.now ≡ true }
    ensures { OnOk result (string_bytes out.new ≡ string_bytes out.old ++ comment line.now) }
{
    out.push_str("; ")?;
    out.push_str(line)?;
    out.push_str("\n")?;
    Ok(())
}
