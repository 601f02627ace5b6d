//! Laws of images. Each function does nothing: its contract is the law.

ghost use Rattle.x10_model.specs.LawsOfImages.{IsReadAgain, IsOneModule, IsSpelledSo, IsSpelledSeven, IsReadSeven, IsOtherVersion, IsShort, IsTrailing, IsBadOperand};

/// Reading the image of a module gives that module.
pub fn spelled_is_read()
    ensures again { IsReadAgain }
{}

/// No two modules have the same image.
pub fn one_module_for_an_image()
    ensures same { IsOneModule }
{}

/// Bytes that are read as a module are its image.
pub fn read_is_spelled()
    ensures fits_and_spelled { IsSpelledSo }
{}

/// A module that prints 7: its 64 bytes in each version, both ways, and changes of them that are refused.
pub fn seven()
    ensures spelled { IsSpelledSeven }
    ensures read { IsReadSeven }
    ensures version { IsOtherVersion }
    ensures short { IsShort }
    ensures trailing { IsTrailing }
    ensures operand { IsBadOperand }
{}
