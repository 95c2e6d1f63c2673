// Persons and their children in lent words. The layout: a header of two words (the limit and the number of persons), a table of persons, four words each,
// a table of the links to their children, four words each, the set of those whose lines live as bits, and words to work in.
#![tactic(auto)]

ghost use Rattle.std.specs.Prelude.{◌≡◌, ℕ, suc, ◌+◌, ◌*◌, ◌<◌, ◌≤◌, Bool, true, false, ◌⊎◌, List, [], ◌∷◌, ◌++◌, length, IfSome, MatchOption, slice_index};
ghost use Rattle.law.specs.Family.{Family, person, children};
ghost use Rattle.law.specs.Calls.{newborn as law_newborn};
ghost use Rattle.rows.specs.Written.{written};
ghost use Rattle.rows.specs.Tables.{table};
ghost use Rattle.children.specs.Links.{first_of, link_row, is_mother, next_place, filed, OfLast, TwoParents};
ghost use Rattle.people.specs.Layout.{person_words, person_at, person_row, laid, limit_in, count_in, links_in, next_link, family_in, words_asked, parents_fit, Roomy};
ghost use Rattle.people.specs.Persons.{law_person, link_of};

mod walk;

pub use walk::Children;

// How many persons a register may have room for.
pub const MOST_PERSONS: u32 = 4096;

// The words before the table of persons, those of one person, those of the set of living lines, and those that a register asks for: for each person and more.
const HEADER: usize = 2;

const PERSON: usize = 4;

const MARKS: usize = MOST_PERSONS as usize / 32;

const WORDS_EACH: usize = 16;

const WORDS_MORE: usize = 24576;

// How many words a register with this limit asks for.
pub fn words_asked(limit: u32) -> usize
    ensures value { result ≡ words_asked limit }
{
    WORDS_MORE + WORDS_EACH * limit as usize
}

// Where the words of this person begin.
pub fn row_at(who: u32) -> usize
    ensures value { result ≡ 2 + 4 * who }
{
    HEADER + PERSON * who as usize
}

// Where the links begin in memory with this limit: behind the last of the persons.
pub fn links_at(limit: u32) -> usize
    ensures value { result ≡ 2 + 4 * limit }
{
    row_at(limit)
}

// Where the set of those whose lines live begins.
pub fn marks_at(limit: u32) -> usize
    ensures value { result ≡ 2 + 8 * limit }
{
    links_at(limit) + children::ROW * limit as usize
}

// Where the words to work in begin.
pub fn work_at(limit: u32) -> usize
    ensures value { result ≡ 130 + 8 * limit }
{
    marks_at(limit) + MARKS
}

// One person, by value: mother, father and spouse are 0 where there is none, else one more than a number.
#[derive(Clone, Copy)]
pub struct Person {
    pub mother: u32,
    pub father: u32,
    pub lives: bool,
    pub spouse: u32,
}

// A parent of a child that is filed, 0 or one more than a number, and whether they are the mother of their last child so far.
#[derive(Clone, Copy)]
struct Parent {
    link: u32,
    of_last: bool,
}

// The person with this number.
pub fn read(memory: &[u32], who: u32) -> Person
    requires room { 6 + 4 * who ≤ length memory.now }
    ensures value { law_person result ≡ person_at memory.now (2 + 4 * who) }
{
    let at = row_at(who);
    Person {
        mother: memory[at],
        father: memory[at + 1],
        lives: memory[at + 2] != 0,
        spouse: memory[at + 3],
    }
}

// Writes the person with this number.
pub fn put(memory: &mut [u32], who: u32, someone: Person)
    requires room { 6 + 4 * who ≤ length memory.old }
    ensures limit { limit_in memory.new ≡ limit_in memory.old }
    ensures count { count_in memory.new ≡ count_in memory.old }
    ensures left { memory.new ≡ written (2 + 4 * who) (person_words (law_person someone)) memory.old }
{
    let words = [
        someone.mother,
        someone.father,
        u32::from(someone.lives),
        someone.spouse,
    ];
    rows::put(memory, row_at(who), &words);
}

// The person with this number, if there is one.
pub fn find(memory: &[u32], who: u32) -> Option<Person>
    requires room { Roomy memory.now }
    ensures cases { MatchOption result (length (family_in memory.now) ≤ who) (λ e. (who < length (family_in memory.now)) × (law_person e ≡ person (family_in memory.now) who)) }
{
    (who < memory[1]).then(|| read(memory, who))
}

// Whether the person with this number may have these parents: each unknown or with a smaller number, and not the same.
pub fn parents_fit(number: u32, mother: u32, father: u32) -> bool
    ensures value { result ≡ parents_fit number mother father }
{
    mother <= number && (father <= number && (mother == 0 || mother != father))
}

// Somebody born to these parents, if they may have a child with this number.
pub fn newborn(number: u32, mother: u32, father: u32) -> Option<Person>
    ensures cases { MatchOption result (parents_fit number mother father ≡ false) (λ e. (parents_fit number mother father ≡ true) × (law_person e ≡ law_newborn mother father)) }
{
    let child = Person {
        mother,
        father,
        lives: true,
        spouse: 0,
    };
    parents_fit(number, mother, father).then_some(child)
}

// The number of somebody who is given as 0 or one more than it, if the limit allows it.
pub fn somebody(limit: u32, link: u32) -> Option<u32>
    ensures cases { MatchOption result ((link ≡ 0) ⊎ (limit < link)) (λ p. (link ≡ suc p) × (p < limit)) }
{
    link.checked_sub(1).filter(|who| *who < limit)
}

// The link to somebody: 0 where there is nobody, else one more than the number.
pub fn link_to(who: Option<u32>) -> u32
    requires number { IfSome who (λ p. p < 4294967295) }
    ensures value { result ≡ link_of who }
{
    who.map_or(0, |number| number + 1)
}

// The words of the links.
fn link_words(memory: &[u32]) -> &[u32]
    requires room { Roomy memory.now }
    ensures value { result.now ≡ links_in memory.now }
{
    &memory[links_at(memory[0])..marks_at(memory[0])]
}

// The link to somebody's first child.
pub fn first_child(memory: &[u32], who: u32) -> u32
    requires room { Roomy memory.now }
    requires there { who < limit_in memory.now }
    ensures value { (n k : ℕ) (f : Family) (s : ℕ → Bool) (work rest : List ℕ) → memory.now ≡ laid n k (person_row f) (link_row f) s work rest → result ≡ first_of (children f who) }
{
    children::first(link_words(memory), who)
}

// The link from somebody's child to the next.
pub fn next_child(memory: &[u32], parent: u32, child: u32) -> u32
    requires room { Roomy memory.now }
    requires there { child < limit_in memory.now }
    requires number { parent < 4294967295 }
    ensures link { result ≡ next_link memory.now parent child }
    ensures value { (n k : ℕ) (f : Family) (s : ℕ → Bool) (work rest : List ℕ) → memory.now ≡ laid n k (person_row f) (link_row f) s work rest → result ≡ slice_index (table n (link_row f)) (next_place child (is_mother f parent child)) }
{
    let by_mother = read(memory, child).mother == parent + 1;
    children::next(link_words(memory), child, by_mother)
}

// Whether a parent, 0 or one more than a number, is the mother of their last child so far.
fn mother_of_last(memory: &[u32], parent: u32) -> bool
    requires room { Roomy memory.now }
    requires there { parent ≤ limit_in memory.now }
    ensures value { (n k : ℕ) (f : Family) (s : ℕ → Bool) (work rest : List ℕ) → memory.now ≡ laid n k (person_row f) (link_row f) s work rest → length f ≤ n → OfLast f parent result }
{
    let Some(number) = somebody(memory[0], parent) else {
        return false;
    };
    let Some(last) = somebody(memory[0], children::last(link_words(memory), number)) else {
        return false;
    };
    read(memory, last).mother == parent
}

// Files a child under a parent who is known.
fn file_under(links: &mut [u32], child: u32, parent: Parent)
    requires room { 4 * parent.link ≤ length links.old }
    requires number { child < 4294967295 }
    ensures left { links.new ≡ filed links.old parent.link child parent.of_last }
{
    if let Some(number) = parent.link.checked_sub(1) {
        children::append(links, number, child, parent.of_last);
    }
}

// Files a child under the mother and then under the father, in the part of memory in which the links lie.
fn file_child(links: &mut [u32], child: u32, mother: Parent, father: Parent)
    requires mother_there { 4 * mother.link ≤ length links.old }
    requires father_there { 4 * father.link ≤ length links.old }
    requires number { child < 4294967295 }
    ensures left { links.new ≡ filed (filed links.old mother.link child mother.of_last) father.link child father.of_last }
{
    file_under(links, child, mother);
    file_under(links, child, father);
}

// One person more: a child who was just born, with the next number, filed under its parents.
pub fn add(memory: &mut [u32], child: Person)
    requires room { Roomy memory.old }
    requires free { count_in memory.old < limit_in memory.old }
    requires mother { child.mother ≤ count_in memory.old }
    requires father { child.father ≤ count_in memory.old }
    ensures limit { limit_in memory.new ≡ limit_in memory.old }
    ensures count { count_in memory.new ≡ count_in memory.old + 1 }
    ensures left { (n : ℕ) (f : Family) (s : ℕ → Bool) (work rest : List ℕ) → memory.old ≡ laid n (length f) (person_row f) (link_row f) s work rest
        → TwoParents f → (child.mother ≡ child.father → child.mother ≡ 0) → law_person child ≡ law_newborn child.mother child.father
        → memory.new ≡ laid n (length f + 1) (person_row (f ++ (law_person child ∷ []))) (link_row (f ++ (law_person child ∷ []))) s work rest }
{
    let number = memory[1];
    let at = links_at(memory[0]);
    let end = marks_at(memory[0]);
    let mother = Parent {
        link: child.mother,
        of_last: mother_of_last(memory, child.mother),
    };
    let father = Parent {
        link: child.father,
        of_last: mother_of_last(memory, child.father),
    };
    put(memory, number, child);
    file_child(&mut memory[at..end], number, mother, father);
    memory[1] = number + 1;
}
