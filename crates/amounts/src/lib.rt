// What lines come to, worked out by visiting each person once: the laws of passes along a listing of the persons. Each function has laws for its contract, and does nothing.
#![tactic(auto)]

ghost use Rattle.amounts.specs.Statements.{ListingGrows, MetFromTwo, CountsRight, MultiplesRight, PiecesRight, NeverMore, ClearedRight, LimitsRight, StartsRight};
ghost use Rattle.amounts.specs.Estates.{EstateByPasses};

// Going down from a line that lives lists it and all lines below, each person once, and before those below.
// Nobody is met from more than two others on the way.
pub fn lines_listed()
    ensures listed { ListingGrows }
    ensures met { MetFromTwo }
{}

// Upward along a listing everybody comes to the number of parts of their line, and to the least number that these divide, each cut off.
pub fn numbers_upward()
    ensures counts { CountsRight }
    ensures multiples { MultiplesRight }
{}

// Downward along a listing everybody comes to the pieces of all their parts; and all together never have more than they began with.
pub fn pieces_downward()
    ensures pieces { PiecesRight }
    ensures most { NeverMore }
{}

// Rows are as before once the places of a listing are cleared.
pub fn rows_cleared()
    ensures { ClearedRight }
{}

// Lines that an estate begins with: whether their parts are too many, and the least number that all divide, from the numbers upward.
pub fn limits_by_passes()
    ensures { LimitsRight }
{}

// The parts of these lines are those of the relatives, by the order that inherits.
pub fn relatives_by_lines()
    ensures { StartsRight }
{}

// The passes come to the estate, beside a spouse or not.
pub fn estate_by_passes()
    ensures { EstateByPasses }
{}
