// Why somebody has a share of an estate: the ways by which its parts come to them.
#![tactic(auto)]

ghost use Rattle.std.specs.Prelude.{◌≡◌, ℕ, ◌+◌, ◌*◌, ◌<◌, ◌≤◌, true, false, ◌++◌, map, length, IfOk, if◌then◌else◌, vec_len, filter, nat_eq, nat_le};
ghost use Rattle.std.specs.List.{AllByRecursion};
ghost use Rattle.law.specs.Family.{children as law_children, parents as law_parents, line_lives};
ghost use Rattle.theory.specs.Families.{Ranked};
ghost use Rattle.shares.specs.Parts.{lead_parts, whole_row, number_of};
ghost use Rattle.succession.specs.Orders.{order_number, spouse_in};
ghost use Rattle.ways.specs.Ways.{way_part, first_ways, heads_ways, third_ways, relatives_ways};
ghost use Rattle.ways.specs.Rows.{family_of, in_row, law_ways};
ghost use Rattle.ways.specs.Going.{family_in};
ghost use Rattle.reasons.specs.declared.Refusal.TheVariants.{NoMemory};
ghost use Rattle.reasons.specs.Estates.{side_in, LinesIn, KnownIn, Put, EstateRight, OutcomeRight, refusal_of};

use people::Person;
use shares::{MOST_PARTS, Part};
use std::alloc::{AllocError, Global};
use succession::Order;
use ways::{Descent, Way, WaysError};

// The lines that live in each order: of the children, of the parents, and of the mother's and the father's parents.
#[derive(Drop)]
pub struct Lines {
    pub children: Vec<usize>,
    pub parents: Vec<usize>,
    pub mothers: Vec<usize>,
    pub fathers: Vec<usize>,
}

// The ways of an estate: a living spouse's part; how many times each way of the relatives counts; these ways; and the least number that all parts divide.
#[derive(Drop)]
pub struct Estate {
    pub spouse: Option<Part>,
    pub up: u32,
    pub ways: Vec<Way>,
    pub whole: u32,
}

// Why an estate has no ways.
#[derive(Clone, Copy, Debug, PartialEq, Eq)]
pub enum Refusal {
    NotThere,
    BeyondLimit,
    NoMemory,
}

impl From<AllocError> for Refusal {
    ghost from_gives = { λ _ e. e ≡ NoMemory };

    fn from(_e: AllocError) -> Refusal {
        Refusal::NoMemory
    }
}

impl From<WaysError> for Refusal {
    ghost from_gives = { λ e r. r ≡ refusal_of e };

    fn from(e: WaysError) -> Refusal {
        match e {
            WaysError::BeyondLimit => Refusal::BeyondLimit,
            WaysError::NoMemory => Refusal::NoMemory,
        }
    }
}

// The parents of somebody who are in a set, mother first.
fn parents_in(
    heap: Global,
    family: &[Person],
    set: &[bool],
    who: usize,
) -> Result<Vec<usize>, AllocError>
    ensures value { IfOk result (λ v. v.items ≡ filter (in_row set.now) (law_parents (family_of family.now) who)) }
{
    let Person { mother, father, .. } = ways::person_at(family, who);
    [mother, father]
        .iter()
        .filter_map(|link| (*link as usize).checked_sub(1))
        .filter(|parent| ways::is_in(set, *parent))
        .collect(heap)
}

// The parents of somebody, given as 0 or one more than a number, who are in a set.
fn side_in(
    heap: Global,
    family: &[Person],
    set: &[bool],
    link: u32,
) -> Result<Vec<usize>, AllocError>
    ensures value { IfOk result (λ v. v.items ≡ side_in (in_row set.now) (family_of family.now) link) }
{
    let Some(who) = link.checked_sub(1) else {
        return Ok(Vec::new(heap));
    };
    parents_in(heap, family, set, who as usize)
}

// The lines of the three orders that are in a set.
pub fn lines_in(
    heap: Global,
    family: &[Person],
    set: &[bool],
    decedent: usize,
) -> Result<Lines, AllocError>
    ensures value { IfOk result (λ l. LinesIn (in_row set.now) (family_of family.now) decedent l) }
{
    let Person { mother, father, .. } = ways::person_at(family, decedent);
    let children = ways::children_in(heap, family, set, decedent)?;
    let parents = parents_in(heap, family, set, decedent)?;
    let mothers = side_in(heap, family, set, mother)?;
    let fathers = side_in(heap, family, set, father)?;
    Ok(Lines {
        children,
        parents,
        mothers,
        fathers,
    })
}

// On how many sides of the grandparents a line lives.
fn living_sides(lines: &Lines) -> u32
    ensures few { result ≤ 2 }
    ensures value { result ≡ (if nat_eq (vec_len lines.now.mothers) 0 then 0 else 1) + (if nat_eq (vec_len lines.now.fathers) 0 then 0 else 1) }
{
    u32::from(!lines.mothers.is_empty()) + u32::from(!lines.fathers.is_empty())
}

// The order that inherits, by the lines that live.
pub fn order_of(lines: &Lines) -> Order
    ensures value { order_number result ≡ (if nat_eq (vec_len lines.now.children) 0 then (if nat_eq (vec_len lines.now.parents) 0 then (if nat_eq (vec_len lines.now.mothers) 0 then (if nat_eq (vec_len lines.now.fathers) 0 then 4 else 3) else 3) else 2) else 1) }
{
    if !lines.children.is_empty() {
        return Order::Children;
    }
    if !lines.parents.is_empty() {
        return Order::Parents;
    }
    if lines.mothers.is_empty() && lines.fathers.is_empty() {
        return Order::Nobody;
    }
    Order::Grandparents
}

// The ways of the first order, of which all have one by so many together, behind those that are there.
fn first_order(
    descent: &Descent,
    children: &[usize],
    by: u32,
    ways: &mut Vec<Way>,
) -> Result<(), WaysError>
    ensures put { (rk : ℕ → ℕ) → KnownIn descent.now rk → children.now ≡ filter (in_row descent.now.lives.now) (law_children (family_in descent.now) descent.now.decedent)
        → Put (law_ways ways.old.items) (first_ways (family_in descent.now) descent.now.decedent by) (law_ways ways.new.items) result }
{
    let persons = descent.family.len();
    let each = ways::each_of(by, children.len(), persons).ok_or(WaysError::BeyondLimit)?;
    descent.go_down(persons - 1, &[], children, each, ways)
}

// The ways of one or two forebears who have one by so many together, behind those that are there: their lines have it equally.
fn couple(
    descent: &Descent,
    persons: &[usize],
    by: u32,
    ways: &mut Vec<Way>,
) -> Result<(), WaysError>
    requires small { by ≤ 16 }
    ensures put { (rk : ℕ → ℕ) → KnownIn descent.now rk → AllByRecursion (λ p. line_lives (family_in descent.now) descent.now.decedent p ≡ true) persons.now → length persons.now ≤ 2
        → Put (law_ways ways.old.items) (heads_ways (family_in descent.now) descent.now.decedent persons.now (by * length persons.now)) (law_ways ways.new.items) result }
{
    let each = ways::each_of(by, persons.len(), 1).ok_or(WaysError::BeyondLimit)?;
    descent.go_down(descent.family.len(), &[], persons, each, ways)
}

// The ways of the third order: the sides on which a line lives have equal parts.
fn third_order(
    descent: &Descent,
    lines: &Lines,
    by: u32,
    ways: &mut Vec<Way>,
) -> Result<(), WaysError>
    requires small { by ≤ 8 }
    ensures put { (rk : ℕ → ℕ) → KnownIn descent.now rk → LinesIn (in_row descent.now.lives.now) (family_in descent.now) descent.now.decedent lines.now
        → Put (law_ways ways.old.items) (third_ways (family_in descent.now) descent.now.decedent by) (law_ways ways.new.items) result }
{
    let side = by * living_sides(lines);
    couple(descent, &lines.mothers, side, ways)?;
    couple(descent, &lines.fathers, side, ways)
}

// The ways of the order that inherits, of which all have one by so many together, behind those that are there.
fn relatives(
    descent: &Descent,
    lines: &Lines,
    by: u32,
    ways: &mut Vec<Way>,
) -> Result<(), WaysError>
    requires small { by ≤ 8 }
    ensures put { (rk : ℕ → ℕ) → KnownIn descent.now rk → LinesIn (in_row descent.now.lives.now) (family_in descent.now) descent.now.decedent lines.now
        → Put (law_ways ways.old.items) (relatives_ways (family_in descent.now) descent.now.decedent by) (law_ways ways.new.items) result }
{
    match order_of(lines) {
        Order::Children => first_order(descent, &lines.children, by, ways),
        Order::Parents => couple(descent, &lines.parents, by, ways),
        Order::Grandparents => third_order(descent, lines, by, ways),
        Order::Nobody => Ok(()),
    }
}

// Somebody's spouse, if they live.
fn living_spouse(family: &[Person], who: usize) -> Option<u32>
    ensures value { result ≡ spouse_in (family_of family.now) who }
{
    let spouse = ways::person_at(family, who).spouse.checked_sub(1)?;
    ways::person_at(family, spouse as usize)
        .lives
        .then_some(spouse)
}

// Whether a spouse's part and so many ways that count so many times are at most as many parts as an estate is divided into.
fn parts_fit(spouse: Option<Part>, up: u32, count: usize) -> bool
    requires some { 0 < up }
    ensures value { result ≡ nat_le (length (lead_parts spouse) + up * count) 4096 }
{
    let Ok(count) = u32::try_from(count) else {
        return false;
    };
    shares::parts_listed(spouse, up, count) <= u64::from(MOST_PARTS)
}

// The least number that all parts of an estate divide, given as a spouse's part and ways that count so many times;
// none where there are more than 4,096 parts, or it is 2 to the 32nd or more.
fn whole_of(spouse: Option<Part>, up: u32, ways: &[Way]) -> Option<u32>
    requires some { 0 < up }
    ensures value { result ≡ number_of (whole_row spouse up (map way_part (law_ways ways.now))) }
{
    if !parts_fit(spouse, up, ways.len()) {
        return None;
    }
    let mut number = shares::lead_multiple(spouse)?;
    for way in ways {
        number = shares::multiple(number, way.by)?;
    }
    Some(number)
}

// The ways of an estate, by which lines live: those of the order that inherits, and a living spouse's part. Refused where it is beyond the limits.
fn estate_of(heap: Global, descent: &Descent) -> Result<Estate, WaysError>
    ensures value { (rk : ℕ → ℕ) → KnownIn descent.now rk → EstateRight (family_in descent.now) descent.now.decedent result }
{
    let lines = lines_in(heap, descent.family, descent.lives, descent.decedent)?;
    let spouse = living_spouse(descent.family, descent.decedent);
    let beside = succession::beside_spouse(order_of(&lines), spouse);
    let mut ways = Vec::new(heap);
    relatives(descent, &lines, beside.by, &mut ways)?;
    let whole = whole_of(beside.lead, beside.times, &ways).ok_or(WaysError::BeyondLimit)?;
    Ok(Estate {
        spouse: beside.lead,
        up: beside.times,
        ways,
        whole,
    })
}

// The ways by which an estate comes to its heirs.
pub fn divide(heap: Global, family: &[Person], decedent: usize) -> Result<Estate, Refusal>
    ensures outcome { (rk : ℕ → ℕ) → Ranked (family_of family.now) rk → OutcomeRight (family_of family.now) decedent result }
{
    if decedent >= family.len() {
        return Err(Refusal::NotThere);
    }
    let lives = ways::living_lines(heap, family, decedent)?;
    let descent = Descent {
        family,
        decedent,
        lives: &lives,
    };
    let estate = estate_of(heap, &descent)?;
    Ok(estate)
}
