ghost use Rattle.x10_bounds.specs.AtomicRegions.{StructuredKeeps};
ghost use Rattle.x10_bounds.specs.OpenFinishes.{StructuredMatches};
ghost use Rattle.x10_bounds.specs.Potential.{StructuredFalls};

/// In a function whose structure holds, the number of steps that it can still take falls with every step, and is its bound
/// where it begins: the bound on the steps of its runs rests on this.
pub fn structured_falls()
    ensures { StructuredFalls }
{}

/// In such a function each FINB is left by its FINE, a jump leads to an instruction inside the same number of finishes, and the
/// function ends inside none: a stay has as many finishes open as there are around its instructions.
pub fn structured_matches()
    ensures { StructuredMatches }
{}

/// In such a function each ATOMB leads into an atomic region and its ATOME out of it, a jump neither, and the function neither
/// ends inside one nor calls, starts, shifts, opens a finish or another such region there: whether an instruction stands inside
/// is whether the stay is inside that came to it.
pub fn structured_keeps()
    ensures { StructuredKeeps }
{}
