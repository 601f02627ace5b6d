//! Laws of the eight bytes and of the table, each for every instruction or operation.

ghost use Rattle.x10_code.specs.Laws.{SpelledIsDecoded, DecodedWasSpelled, CodesDiffer, NamesDiffer, AllAreListed};

/// What is spelled is decoded.
pub fn spelled_is_decoded()
    ensures law { SpelledIsDecoded }
{}

/// What is decoded was spelled so.
pub fn decoded_was_spelled()
    ensures law { DecodedWasSpelled }
{}

/// No two operations share a code.
pub fn codes_differ()
    ensures law { CodesDiffer }
{}

/// No two operations share a name.
pub fn names_differ()
    ensures law { NamesDiffer }
{}

/// The list of operations lacks none.
pub fn all_are_listed()
    ensures law { AllAreListed }
{}
