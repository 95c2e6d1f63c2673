// The persons of a register by value, read from its words.
#![tactic(auto)]

ghost use Rattle.std.specs.Prelude.{◌≡◌, IfOk};
ghost use Rattle.theory.specs.Families.{WellFormed};
ghost use Rattle.people.specs.Layout.{family_in, Roomy, Valid};
ghost use Rattle.ways.specs.Rows.{family_of};

use people::Person;
use std::alloc::{AllocError, Global};

// All persons that words hold, by number; of a valid family, it is well-formed.
pub fn persons_in(heap: Global, memory: &[u32]) -> Result<Vec<Person>, AllocError>
    requires room { Roomy memory.now }
    ensures value { IfOk result (λ v. family_of v.items ≡ family_in memory.now) }
    ensures formed { IfOk result (λ v. (Valid (family_in memory.now) → WellFormed (family_of v.items))) }
{
    (0..memory[1])
        .map(|who| people::read(memory, who))
        .collect(heap)
}
