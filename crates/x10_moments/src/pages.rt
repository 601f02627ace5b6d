//! What stands around the moments of a page.
ghost use Rattle.std.specs.Prelude.{◌≡◌, ◌++◌};
ghost use Rattle.x10_moments.specs.Pages.{page_end};

use x10_page::TAIL;

/// How a page ends, in two parts: whether the run ended, and what is the same of every page.
pub fn end_of_page(ended: bool) -> (&'static str, &'static str)
    ensures { result.0.now ++ result.1.now ≡ page_end ended }
{
    if ended {
        ("\n],\"end\":\"ended\"}\n", TAIL)
    } else {
        ("\n],\"end\":\"stopped\"}\n", TAIL)
    }
}
