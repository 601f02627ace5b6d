//! What holds of every listing and of every text. Each function does nothing: its contract is a law.

ghost use Rattle.x10_asm.specs.LawsOfTexts.{ListingIsRead, CommentedIsRead, SpelledFits, VersionIsTold};

/// A listing is read again: assembled, it gives the image of the module that it lists.
pub fn listing_is_read()
    ensures law { ListingIsRead }
{}

/// So is a listing with comments and blank lines between its lines.
pub fn commented_is_read()
    ensures law { CommentedIsRead }
{}

/// A module that a text spells is in all the ranges of an image, so it has one.
pub fn spelled_fits()
    ensures law { SpelledFits }
{}

/// The version that `version_in` answers is that of the module that the text spells, if it spells one.
pub fn version_is_told()
    ensures law { VersionIsTold }
{}
