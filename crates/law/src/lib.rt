// The rules of succession and of the register, as definitions (specs/) that the contracts of the other crates cite.
#![tactic(auto)]
