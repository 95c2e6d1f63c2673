// Going down a line of descent with one by so many of an estate: who lives has it, else the children whose lines live have it in equal parts.
// The parts are put behind one another in the work area of the register's memory.
#![tactic(auto)]

ghost use Rattle.std.specs.Prelude.{◌≡◌, ℕ, ◌+◌, ◌*◌, ◌<◌, ◌≤◌, Bool, List, [], ◌∷◌, length, filter, IfSome};
ghost use Rattle.law.specs.Family.{Family, Part as LawPart, children, line_parts};
ghost use Rattle.living.specs.Places.{Held};
ghost use Rattle.people.specs.Layout.{limit_in, count_in, Roomy};
ghost use Rattle.descent.specs.Going.{with_parts, Gone, Ready};

use shares::{MOST_PARTS, Part};

// Where the work area begins in memory with this limit.
pub fn work_at(limit: u32) -> usize
    ensures value { result ≡ 130 + 8 * limit }
{
    people::work_at(limit)
}

// Puts a part behind so many others.
fn put_heir(memory: &mut [u32], who: u32, by: u32, count: u32) -> Option<u32>
    requires room { Roomy memory.old }
    ensures limit { limit_in memory.new ≡ limit_in memory.old }
    ensures count { count_in memory.new ≡ count_in memory.old }
    ensures within { count ≤ 4096 → IfSome result (λ k. k ≤ 4096) }
    ensures gone { (n : ℕ) (f : Family) (ps : List LawPart) (spare rest : List ℕ) → memory.old ≡ with_parts n f ps spare rest → length ps ≡ count → length ps ≤ 4096
        → Gone n f spare rest ps (record { who = who; by = by } ∷ []) memory.new result }
{
    if count >= MOST_PARTS {
        return None;
    }
    let at = work_at(memory[0]);
    shares::put_part(&mut memory[at..], count, Part { who, by });
    Some(count + 1)
}

// How many children of somebody have a line that lives.
pub fn living_children(memory: &[u32], who: u32) -> u32
    requires room { Roomy memory.now }
    requires there { who < limit_in memory.now }
    ensures value { (n : ℕ) (f : Family) (s : ℕ → Bool) (work rest : List ℕ) → Held memory.now n f s work rest → result ≡ length (filter s (children f who)) }
{
    people::Children::of(memory, who)
        .filter(|child| living::lives(memory, *child))
        .count() as u32
}

// The parts of a line that has one by so many, behind so many others: how many there are then. None where there is no room for all, or a number on the way is too large.
pub fn line(memory: &mut [u32], steps: u32, who: u32, by: u32, count: u32) -> Option<u32>
    requires room { Roomy memory.old }
    requires there { who < limit_in memory.old }
    ensures limit { limit_in memory.new ≡ limit_in memory.old }
    ensures count { count_in memory.new ≡ count_in memory.old }
    ensures within { count ≤ 4096 → IfSome result (λ k. k ≤ 4096) }
    ensures gone { (n : ℕ) (f : Family) (rk : ℕ → ℕ) (ps : List LawPart) (spare rest : List ℕ) → Ready memory.old n f rk ps spare rest steps who count
        → Gone n f spare rest ps (line_parts f (length f) who by) memory.new result }
{
    if steps == 0 {
        return Some(count);
    }
    if people::read(memory, who).lives {
        return put_heir(memory, who, by, count);
    }
    let each = by.checked_mul(living_children(memory, who))?;
    let mut at = count;
    // Each turn writes the memory that holds the links, so that no iterator over the children can be lent it.
    let mut link = people::first_child(memory, who);
    for turn in 0..memory[1] {
        let Some(child) = people::somebody(memory[0], link) else {
            break;
        };
        if living::lives(memory, child) {
            at = line(memory, steps - 1, child, each, at)?;
        }
        link = people::next_child(memory, who, child);
    }
    Some(at)
}
