// Which lines of descent live, kept as bits as people are born and die: upward from the person, stopping where nothing changes.
#![tactic(auto)]

ghost use Rattle.std.specs.Prelude.{◌≡◌, ℕ, ◌-◌, ◌<◌, ◌≤◌, Bool, cond, not, ◌&&◌, List, length, Some, None, IfSome};
ghost use Rattle.law.specs.Family.{Family};
ghost use Rattle.rows.specs.Tables.{Wide};
ghost use Rattle.children.specs.Links.{link_row};
ghost use Rattle.people.specs.Layout.{person_row, laid, limit_in, count_in, Roomy};
ghost use Rattle.living.specs.Marks.{supported, unsupported, raised, lowered, begun, ended};
ghost use Rattle.living.specs.Places.{ParentsThere, Held, first_unsupported};

use people::{Children, marks_at};

// Puts somebody, given as 0 or one more than a number, into the set, and then their parents, stopping at those who are in it.
fn raise(memory: &mut [u32], steps: u32, link: u32)
    requires room { Roomy memory.old }
    ensures limit { limit_in memory.new ≡ limit_in memory.old }
    ensures count { count_in memory.new ≡ count_in memory.old }
    ensures left { (n k : ℕ) (f : Family) (links : ℕ → List ℕ) (s : ℕ → Bool) (work rest : List ℕ) → memory.old ≡ laid n k (person_row f) links s work rest
        → Wide 4 links → ParentsThere f n → link ≤ n → memory.new ≡ laid n k (person_row f) links (raised steps f link s) work rest }
{
    if steps == 0 {
        return;
    }
    let Some(who) = people::somebody(memory[0], link) else {
        return;
    };
    let at = marks_at(memory[0]);
    if bits::contains(memory, at, who) {
        return;
    }
    bits::insert(memory, at, who);
    let someone = people::read(memory, who);
    raise(memory, steps - 1, someone.mother);
    raise(memory, steps - 1, someone.father);
}

// Whether somebody lives, or has a child in the set.
pub fn is_supported(memory: &[u32], who: u32) -> bool
    requires room { Roomy memory.now }
    requires there { who < limit_in memory.now }
    ensures value { (n : ℕ) (f : Family) (s : ℕ → Bool) (work rest : List ℕ) → Held memory.now n f s work rest → result ≡ supported f s who }
{
    people::read(memory, who).lives || Children::of(memory, who).any(|child| lives(memory, child))
}

// Whether somebody is in the set though nothing keeps them there.
fn is_unsupported(memory: &[u32], who: u32) -> bool
    requires room { Roomy memory.now }
    requires there { who < limit_in memory.now }
    ensures value { (n : ℕ) (f : Family) (s : ℕ → Bool) (work rest : List ℕ) → Held memory.now n f s work rest → result ≡ (s who && not (supported f s who)) }
{
    lives(memory, who) && !is_supported(memory, who)
}

// Somebody who is given as 0 or one more than a number, if they are in the set though nothing keeps them there.
fn if_unsupported(memory: &[u32], link: u32) -> Option<u32>
    requires room { Roomy memory.now }
    ensures within { IfSome result (λ p. p < limit_in memory.now) }
    ensures value { (n : ℕ) (f : Family) (s : ℕ → Bool) (work rest : List ℕ) → Held memory.now n f s work rest → link ≤ n
        → result ≡ cond (unsupported f s link) (Some (link - 1)) None }
{
    let who = people::somebody(memory[0], link)?;
    is_unsupported(memory, who).then_some(who)
}

// The first of two parents, each given as 0 or one more than a number, who is in the set though nothing keeps them there.
fn unsupported_parent(memory: &[u32], mother: u32, father: u32) -> Option<u32>
    requires room { Roomy memory.now }
    ensures within { IfSome result (λ p. p < limit_in memory.now) }
    ensures value { (n : ℕ) (f : Family) (s : ℕ → Bool) (work rest : List ℕ) → Held memory.now n f s work rest → mother ≤ n → father ≤ n
        → result ≡ first_unsupported f s mother father }
{
    if_unsupported(memory, mother).or_else(|| if_unsupported(memory, father))
}

// Takes somebody's parents out of the set, and then theirs, as far as nothing keeps them in it. Two turns are enough, as there are two parents.
fn lower(memory: &mut [u32], steps: u32, who: u32)
    requires room { Roomy memory.old }
    requires there { who < limit_in memory.old }
    ensures limit { limit_in memory.new ≡ limit_in memory.old }
    ensures count { count_in memory.new ≡ count_in memory.old }
    ensures left { (n : ℕ) (f : Family) (s : ℕ → Bool) (work rest : List ℕ) → Held memory.old n f s work rest → ParentsThere f n
        → memory.new ≡ laid n (length f) (person_row f) (link_row f) (lowered steps f who s) work rest }
{
    if steps == 0 {
        return;
    }
    let at = marks_at(memory[0]);
    let someone = people::read(memory, who);
    for turn in 0..2u32 {
        let Some(parent) = unsupported_parent(memory, someone.mother, someone.father) else {
            return;
        };
        bits::remove(memory, at, parent);
        lower(memory, steps - 1, parent);
    }
}

// Somebody has begun to live: their line lives, and those of all forebears.
pub fn begins(memory: &mut [u32], who: u32)
    requires room { Roomy memory.old }
    requires there { who < limit_in memory.old }
    ensures limit { limit_in memory.new ≡ limit_in memory.old }
    ensures count { count_in memory.new ≡ count_in memory.old }
    ensures left { (n : ℕ) (f : Family) (s : ℕ → Bool) (work rest : List ℕ) → Held memory.old n f s work rest → ParentsThere f n
        → memory.new ≡ laid n (length f) (person_row f) (link_row f) (begun f who s) work rest }
{
    let steps = memory[1];
    raise(memory, steps, who + 1);
}

// Somebody has ceased to live: their line lives on by a child, or it ends, and so do those of the forebears whom nobody else keeps.
pub fn ends(memory: &mut [u32], who: u32)
    requires room { Roomy memory.old }
    requires there { who < limit_in memory.old }
    ensures limit { limit_in memory.new ≡ limit_in memory.old }
    ensures count { count_in memory.new ≡ count_in memory.old }
    ensures left { (n : ℕ) (f : Family) (s : ℕ → Bool) (work rest : List ℕ) → Held memory.old n f s work rest → ParentsThere f n
        → memory.new ≡ laid n (length f) (person_row f) (link_row f) (ended f who s) work rest }
{
    if !is_unsupported(memory, who) {
        return;
    }
    let at = marks_at(memory[0]);
    bits::remove(memory, at, who);
    let steps = memory[1];
    lower(memory, steps, who);
}

// Whether somebody's line lives.
pub fn lives(memory: &[u32], who: u32) -> bool
    requires room { Roomy memory.now }
    requires there { who < limit_in memory.now }
    ensures value { (n k : ℕ) (f : Family) (s : ℕ → Bool) (work rest : List ℕ) → memory.now ≡ laid n k (person_row f) (link_row f) s work rest → result ≡ s who }
{
    bits::contains(memory, marks_at(memory[0]), who)
}
