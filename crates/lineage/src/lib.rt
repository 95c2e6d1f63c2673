// The laws of the ways of an estate, as chains of parent and child. Each function has laws for its contract, and does nothing.
#![tactic(auto)]

ghost use Rattle.lineage.specs.Chains.{WaysAreChains, ChainsAreWays, EachOnce};

// Every way that is listed leads from its start to its heir, from parent to child, past nobody who lives.
pub fn ways_are_chains()
    ensures holds { WaysAreChains }
{}

// Every such chain is listed.
pub fn chains_are_ways()
    ensures holds { ChainsAreWays }
{}

// No chain is listed twice in the first order, and none in the second unless the mother is the father.
pub fn each_once()
    ensures holds { EachOnce }
{}
