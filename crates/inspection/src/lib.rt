// Whether lent words are those of a register: each word is compared with what it should be for the family that the persons' words tell of.
#![tactic(auto)]

ghost use Rattle.std.specs.Prelude.{◌≡◌, ℕ, ◌+◌, ◌-◌, ◌<◌, ◌≤◌, Bool, true, cond, ◌&&◌, ◌⊎◌, List, length, ◌==◌, nat_lt, slice_index};
ghost use Rattle.law.specs.Family.{Family, person, is_child, children_in, children};
ghost use Rattle.children.specs.Links.{first_of, last_of, behind, has_parent};
ghost use Rattle.people.specs.Layout.{limit_in, count_in, family_in, parents_fit, spouse_fits, Roomy, Sound};
ghost use Rattle.people.specs.Persons.{law_person};
ghost use Rattle.living.specs.Marks.{supported};
ghost use Rattle.living.specs.Places.{Held};
ghost use Rattle.inspection.specs.Words.{row_fits, RowsFit, Zeros, link_fits, LinksFit, TablesFit, Marked};

use children::ROW;
use people::{
    MOST_PERSONS, Person, link_to, links_at, marks_at, parents_fit, row_at, words_asked, work_at,
};

// Whether the header fits the words: what a call needs to be safe.
pub fn fits(memory: &[u32]) -> bool
    ensures yes { result ≡ true → Roomy memory.now }
    ensures no { Roomy memory.now → result ≡ true }
{
    let [limit, count, ..] = *memory else {
        return false;
    };
    limit <= MOST_PERSONS && count <= limit && words_asked(limit) <= memory.len()
}

fn spouse_fits(memory: &[u32], who: u32, spouse: u32) -> bool
    requires room { Roomy memory.now }
    requires number { who < 4294967295 }
    ensures value { result ≡ spouse_fits (length (family_in memory.now)) who spouse (person (family_in memory.now) (spouse - 1)).spouse }
{
    let Some(number) = spouse.checked_sub(1) else {
        return true;
    };
    let Some(other) = people::find(memory, number) else {
        return false;
    };
    number != who && other.spouse == who + 1
}

// Whether a person's words are such as a register's can be.
fn row_fits(memory: &[u32], who: u32) -> bool
    requires room { Roomy memory.now }
    requires there { who < count_in memory.now }
    ensures value { result ≡ row_fits memory.now who }
{
    let someone = people::read(memory, who);
    memory[row_at(who) + 2] <= 1
        && (parents_fit(who, someone.mother, someone.father)
            && spouse_fits(memory, who, someone.spouse))
}

fn rows_fit(memory: &[u32]) -> bool
    requires room { Roomy memory.now }
    ensures yes { result ≡ true → RowsFit memory.now }
    ensures no { RowsFit memory.now → result ≡ true }
{
    (0..memory[1]).all(|who| row_fits(memory, who))
}

fn all_zero(memory: &[u32], from: usize, end: usize) -> bool
    requires order { from ≤ end }
    requires room { end ≤ length memory.now }
    ensures yes { result ≡ true → Zeros memory.now from end }
    ensures no { Zeros memory.now from end → result ≡ true }
{
    memory[from..end].iter().all(|word| *word == 0)
}

fn has_parent(someone: Person, parent: u32) -> bool
    requires number { parent < 4294967295 }
    ensures value { result ≡ has_parent (law_person someone) parent }
{
    someone.mother == parent + 1 || someone.father == parent + 1
}

fn is_child(memory: &[u32], parent: u32, child: u32) -> bool
    requires room { Roomy memory.now }
    requires there { child < count_in memory.now }
    requires number { parent < 4294967295 }
    ensures value { result ≡ is_child (family_in memory.now) parent child }
{
    has_parent(people::read(memory, child), parent)
}

// The link to the first child of a parent from a number on.
fn child_from(memory: &[u32], parent: u32, from: u32) -> u32
    requires room { Roomy memory.now }
    requires number { parent < 4294967295 }
    ensures value { result ≡ first_of (children_in (family_in memory.now) parent (count_in memory.now - from) from) }
{
    let first = (from..memory[1]).find(|child| is_child(memory, parent, *child));
    link_to(first)
}

// The link to the last child of a parent.
fn last_child(memory: &[u32], parent: u32) -> u32
    requires room { Roomy memory.now }
    requires number { parent < 4294967295 }
    ensures value { result ≡ last_of (children (family_in memory.now) parent) }
{
    let last = (0..memory[1]).rfind(|child| is_child(memory, parent, *child));
    link_to(last)
}

// The link to the child of a parent, who is given as 0 or one more than a number, behind one of their children.
fn child_behind(memory: &[u32], parent: u32, child: u32) -> u32
    requires room { Roomy memory.now }
    requires there { child < count_in memory.now }
    ensures value { ((person (family_in memory.now) child).mother ≡ parent) ⊎ ((person (family_in memory.now) child).father ≡ parent) → result ≡ behind (family_in memory.now) parent child }
{
    let Some(number) = parent.checked_sub(1) else {
        return 0;
    };
    child_from(memory, number, child + 1)
}

// Whether a person's links are right.
fn link_fits(memory: &[u32], who: u32) -> bool
    requires room { Roomy memory.now }
    requires there { who < count_in memory.now }
    ensures value { result ≡ link_fits memory.now who }
{
    let at = links_at(memory[0]) + ROW * who as usize;
    let someone = people::read(memory, who);
    memory[at..at + ROW]
        == [
            child_from(memory, who, 0),
            last_child(memory, who),
            child_behind(memory, someone.mother, who),
            child_behind(memory, someone.father, who),
        ]
}

fn links_fit(memory: &[u32]) -> bool
    requires room { Roomy memory.now }
    ensures yes { result ≡ true → LinksFit memory.now }
    ensures no { LinksFit memory.now → result ≡ true }
{
    (0..memory[1]).all(|who| link_fits(memory, who))
}

// Whether somebody is to be in the set.
fn is_marked(memory: &[u32], who: u32) -> bool
    requires room { Roomy memory.now }
    ensures value { (n : ℕ) (f : Family) (s : ℕ → Bool) (work rest : List ℕ) → Held memory.now n f s work rest → result ≡ (nat_lt who (length f) && supported f s who) }
{
    who < memory[1] && living::is_supported(memory, who)
}

// Whether somebody is in the set exactly if they are to be.
fn mark_fits(memory: &[u32], who: u32) -> bool
    requires room { Roomy memory.now }
    requires number { who < 4096 }
    ensures yes { (n : ℕ) (f : Family) (s : ℕ → Bool) (work rest : List ℕ) → Held memory.now n f s work rest → result ≡ true → s who ≡ (nat_lt who (length f) && supported f s who) }
    ensures no { (n : ℕ) (f : Family) (s : ℕ → Bool) (work rest : List ℕ) → Held memory.now n f s work rest → s who ≡ (nat_lt who (length f) && supported f s who) → result ≡ true }
{
    bits::contains(memory, marks_at(memory[0]), who) == is_marked(memory, who)
}

// Whether all are in the set who are to be, and nobody else.
fn marks_fit(memory: &[u32]) -> bool
    requires room { Roomy memory.now }
    ensures yes { (n : ℕ) (f : Family) (s : ℕ → Bool) (work rest : List ℕ) → Held memory.now n f s work rest → result ≡ true → Marked f s }
    ensures no { (n : ℕ) (f : Family) (s : ℕ → Bool) (work rest : List ℕ) → Held memory.now n f s work rest → Marked f s → result ≡ true }
{
    (0..MOST_PERSONS).all(|who| mark_fits(memory, who))
}

// Whether the words of persons, those of links and the words to work in are a register's.
fn tables_fit(memory: &[u32]) -> bool
    requires room { Roomy memory.now }
    ensures yes { result ≡ true → TablesFit memory.now }
    ensures no { TablesFit memory.now → result ≡ true }
{
    let limit = memory[0];
    let count = memory[1];
    let links = links_at(limit);
    rows_fit(memory)
        && all_zero(memory, row_at(count), links)
        && links_fit(memory)
        && all_zero(memory, links + ROW * count as usize, marks_at(limit))
        && all_zero(memory, work_at(limit), words_asked(limit))
}

// Whether words are those of a register: yes exactly to the memory of a valid family.
pub fn is_sound(memory: &[u32]) -> bool
    ensures yes { result ≡ true → Sound memory.now }
    ensures no { Sound memory.now → result ≡ true }
{
    fits(memory) && tables_fit(memory) && marks_fit(memory)
}
