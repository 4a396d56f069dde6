// What code may take for granted of a text's program. The theorems stand on the contracts below; each function only says that its theorem is proved.
#![tactic(auto)]

ghost use Rattle.bounds.specs.Bounds.{PeakNeeds, MadeRight, ResolvedShort, StepsShort, PileFits, CoreNodes};
ghost use Rattle.lower.specs.Core.{CorePrograms};

// A body's nodes take as many places as the generator counts.
pub fn nodes_take_places() -> bool
    ensures { PeakNeeds }
{
    true
}

// The row of what the fold makes of a program's functions is the row of its functions in steps.
pub fn programs_are_made() -> bool
    ensures { MadeRight }
{
    true
}

// The row of a text's resolved program has at most three words for each byte, and four besides.
pub fn resolved_rows_are_short() -> bool
    ensures { ResolvedShort }
{
    true
}

// The row of a text's steps, with a word more for each step and each function, has at most ten words for each byte.
pub fn steps_are_short() -> bool
    ensures { StepsShort }
{
    true
}

// No more than 1,022 values of a text's function wait at once.
pub fn piles_fit() -> bool
    ensures { PileFits }
{
    true
}

// The steps of a program of stage 0 are those that the lowering of stage 0 takes.
pub fn core_programs_are_plain() -> bool
    ensures { CorePrograms }
{
    true
}

// The nodes of a program of stage 0 are those that the generator of stage 0 takes, and its functions have no arrays.
pub fn core_nodes_are_plain() -> bool
    ensures { CoreNodes }
{
    true
}
