// The ways by which an estate comes to its heirs, of a family that is given as a row of persons: every part with the line of descent by which it came.
#![tactic(auto)]

ghost use Rattle.std.specs.Prelude.{◌≡◌, suc, ◌+◌, ◌*◌, ◌<◌, ◌≤◌, true, false, ◌&&◌, ◌⊎◌, [], ◌∷◌, ◌++◌, map, length, IfOk, OnOk, IsErrOf, vec_len, filter, MatchOption, ◌==◌};
ghost use Rattle.std.specs.List.{range_with_len};
ghost use Rattle.law.specs.Family.{person, is_child as law_is_child, children, some_of, line_lives};
ghost use Rattle.people.specs.Persons.{law_person};
ghost use Rattle.ways.specs.Rows.{family_of, in_row, lives_next, law_ways};
ghost use Rattle.ways.specs.declared.WaysError.TheVariants.{NoMemory};
ghost use Rattle.ways.specs.Going.{Went, Marked, family_in};
ghost use Rattle.ways.specs.Laws.{WaysAreParts};
ghost use Rattle.ways.specs.Ways.{stands as law_stands};

use people::Person;
use shares::MOST_PARTS;
use std::alloc::{AllocError, AllocFailed, Global};

// A way by which a part of an estate came: the persons of its line, from the one below the decedent or from the forebear of the order that inherits
// down to the heir; the heir; and one by how many of the estate it is.
#[derive(Drop)]
pub struct Way {
    pub line: Vec<usize>,
    pub who: usize,
    pub by: u32,
}

// Why no ways are put: with them an estate is beyond the limits, or there is no memory.
#[derive(Clone, Copy, Debug, PartialEq, Eq)]
pub enum WaysError {
    BeyondLimit,
    NoMemory,
}

impl From<AllocError> for WaysError {
    ghost from_gives = { λ _ e. e ≡ NoMemory };

    fn from(_e: AllocError) -> WaysError {
        WaysError::NoMemory
    }
}

impl<T: Drop> From<AllocFailed<T>> for WaysError {
    ghost from_gives = { λ _ e. e ≡ NoMemory };

    fn from(e: AllocFailed<T>) -> WaysError {
        WaysError::from(AllocError::from(e))
    }
}

// Who stands past the last person.
const NOBODY: Person = Person {
    mother: 0,
    father: 0,
    lives: false,
    spouse: 0,
};

// The person with a number. Past the last stands nobody.
pub fn person_at(family: &[Person], who: usize) -> Person
    ensures value { law_person result ≡ person (family_of family.now) who }
{
    family.get(who).copied().unwrap_or(NOBODY)
}

// Whether a link, 0 or one more than a number, is to somebody.
fn links_to(link: u32, who: usize) -> bool
    ensures value { result ≡ (link == suc who) }
{
    (link as usize).checked_sub(1) == Some(who)
}

// Whether somebody has somebody as mother or father.
fn is_child(family: &[Person], parent: usize, child: usize) -> bool
    ensures value { result ≡ law_is_child (family_of family.now) parent child }
{
    let Person { mother, father, .. } = person_at(family, child);
    links_to(mother, parent) || links_to(father, parent)
}

// Whether somebody is in a set; nobody is past its end.
pub fn is_in(set: &[bool], who: usize) -> bool
    ensures value { result ≡ in_row set.now who }
{
    set.get(who).copied().unwrap_or(false)
}

// Whether somebody is a child of somebody and in a set.
fn is_child_in(family: &[Person], set: &[bool], parent: usize, child: usize) -> bool
    ensures value { result ≡ (law_is_child (family_of family.now) parent child && in_row set.now child) }
{
    is_child(family, parent, child) && is_in(set, child)
}

// Whether a child of somebody is in a set.
fn has_child_in(family: &[Person], set: &[bool], parent: usize) -> bool
    ensures value { result ≡ some_of (in_row set.now) (children (family_of family.now) parent) }
{
    (0..family.len()).any(|child| is_child_in(family, set, parent, child))
}

// The children of somebody who are in a set, by number.
pub fn children_in(
    heap: Global,
    family: &[Person],
    set: &[bool],
    parent: usize,
) -> Result<Vec<usize>, AllocError>
    ensures value { IfOk result (λ v. v.items ≡ filter (in_row set.now) (children (family_of family.now) parent)) }
{
    (0..family.len())
        .filter(|child| is_child_in(family, set, parent, *child))
        .collect(heap)
}

// A line with one person more.
fn extended(heap: Global, line: &[usize], who: usize) -> Result<Vec<usize>, AllocError>
    ensures value { IfOk result (λ v. v.items ≡ line.now ++ (who ∷ [])) }
{
    let mut longer = Vec::from_slice(heap, line)?;
    longer.push(who)?;
    Ok(longer)
}

// Puts a way behind the others; not where there are as many as an estate may have parts.
fn put_way(ways: &mut Vec<Way>, way: Way) -> Result<(), WaysError>
    ensures put { OnOk result (ways.new.items ≡ ways.old.items ++ (way ∷ [])) }
    ensures beyond { IsErrOf result WaysError.BeyondLimit → 4096 ≤ vec_len ways.old }
{
    if ways.len() >= MOST_PARTS as usize {
        return Err(WaysError::BeyondLimit);
    }
    ways.push(way)?;
    Ok(())
}

// One by so many divided among some, with a step left to go down: one by how many that is, if it is below 2 to the 32nd.
pub fn each_of(by: u32, among: usize, steps: usize) -> Option<u32>
    ensures cases { MatchOption result ((steps ≡ 0) ⊎ (4294967296 ≤ by * among)) (λ each. (each ≡ by * among) × (0 < steps)) }
{
    if steps == 0 {
        return None;
    }
    let number = (by as usize).checked_mul(among)?;
    u32::try_from(number).ok()
}

// A family, whose estate goes down its lines, and whose lines are known to live.
#[derive(Clone, Copy)]
pub struct Descent<'a> {
    pub family: &'a [Person],
    pub decedent: usize,
    pub lives: &'a [bool],
}

impl Descent<'_> {
    // Whether somebody's line lives, by the children whose lines are known to live.
    fn lives_on(&self, who: usize) -> bool
        ensures value { result ≡ lives_next (family_in self.now) self.now.decedent (in_row self.now.lives.now) who }
    {
        if who == self.decedent {
            return false;
        }
        person_at(self.family, who).lives || has_child_in(self.family, self.lives, who)
    }

    // One step up: those who live, and those of whom a child's line is known to live; not the decedent.
    fn one_up(&self, heap: Global) -> Result<Vec<bool>, AllocError>
        ensures value { IfOk result (λ v. v.items ≡ map (lives_next (family_in self.now) self.now.decedent (in_row self.now.lives.now)) (range_with_len 0 (length self.now.family.now))) }
    {
        (0..self.family.len())
            .map(|who| self.lives_on(who))
            .collect(heap)
    }

    // Whether somebody stands for their line: they live, and are not the decedent.
    pub fn stands(&self, who: usize) -> bool
        ensures value { result ≡ law_stands (family_in self.now) self.now.decedent who }
    {
        who != self.decedent && person_at(self.family, who).lives
    }

    // The ways of the lines of some persons, each with one by so many, behind those that are there; above are the persons of the line before them.
    // Refused where there are too many, or a number on the way is too large.
    pub fn go_down(
        &self,
        steps: usize,
        above: &[usize],
        heads: &[usize],
        by: u32,
        ways: &mut Vec<Way>,
    ) -> Result<(), WaysError>
        ensures went { Marked self.now → Went (family_in self.now) self.now.decedent steps above.now heads.now by (law_ways ways.old.items) (law_ways ways.new.items) result }
    {
        let heap = *ways.allocator();
        for &who in heads {
            let line = extended(heap, above, who)?;
            if self.stands(who) {
                put_way(ways, Way { line, who, by })?;
            } else {
                let below = children_in(heap, self.family, self.lives, who)?;
                let each = each_of(by, below.len(), steps).ok_or(WaysError::BeyondLimit)?;
                self.go_down(steps - 1, &line, &below, each, ways)?;
            }
        }
        Ok(())
    }
}

// Whose lines live, by number: steps up from those who live until nothing changes.
pub fn living_lines(
    heap: Global,
    family: &[Person],
    decedent: usize,
) -> Result<Vec<bool>, AllocError>
    ensures value { IfOk result (λ v. v.items ≡ map (line_lives (family_of family.now) decedent) (range_with_len 0 (length family.now))) }
{
    let mut lives = vec![in heap; false; family.len()]?;
    for _ in 0..family.len() {
        let known = Descent {
            family,
            decedent,
            lives: &lives,
        };
        let next = known.one_up(heap)?;
        if next == lives {
            break;
        }
        lives = next;
    }
    Ok(lives)
}

// Without the persons on the way, the ways of an estate are its parts: a way of the relatives stands for as many equal parts as it counts.
pub fn ways_are_parts()
    ensures holds { WaysAreParts }
{}
