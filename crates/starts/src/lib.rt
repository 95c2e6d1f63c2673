// The lines that an estate begins with, by the order that inherits: at most four persons, each with one by so many. They are put into the words for parts.
#![tactic(auto)]

ghost use Rattle.std.specs.Prelude.{◌≡◌, ℕ, ◌<◌, ◌≤◌, List, [], length};
ghost use Rattle.law.specs.Family.{Family};
ghost use Rattle.theory.specs.Decedent.{kept_order};
ghost use Rattle.people.specs.Layout.{limit_in, count_in, Roomy};
ghost use Rattle.living.specs.Places.{ParentsThere};
ghost use Rattle.amounts.specs.Lines.{kept_starts};
ghost use Rattle.succession.specs.Orders.{order_number, Begun};
ghost use Rattle.starts.specs.Starts.{PutBehind};

use succession::Order;

// Puts the lines that the estate of somebody who is dead begins with, by the order that inherits; the relatives have one by so many together. Says how many they are.
pub fn begin(memory: &mut [u32], who: u32, order: Order, by: u32) -> u32
    requires room { Roomy memory.old }
    requires there { who < limit_in memory.old }
    requires small { by ≤ 8 }
    ensures limit { limit_in memory.new ≡ limit_in memory.old }
    ensures count { count_in memory.new ≡ count_in memory.old }
    ensures within { result ≤ 4096 }
    ensures put { (n : ℕ) (f : Family) (rk : ℕ → ℕ) (spare rest : List ℕ) → Begun memory.old n f rk [] spare rest 0 → ParentsThere f (length f) → who < length f
        → order_number order ≡ kept_order f who → PutBehind n f spare rest [] (kept_starts f who by) memory.new result }
{
    let starts = succession::starts_of(memory, who, order, by);
    let at = descent::work_at(memory[0]);
    let mut count = 0;
    for start in starts.into_iter().flatten() {
        shares::put_part(&mut memory[at..], count, start);
        count += 1;
    }
    count
}
