// Who inherits: the lines of children, else of parents, else of grandparents by the mother's and the father's side, and a spouse beside them.
#![tactic(auto)]

ghost use Rattle.std.specs.Prelude.{◌≡◌, ℕ, ◌+◌, ◌*◌, ◌<◌, ◌≤◌, Bool, List, [], length, IfSome, filter};
ghost use Rattle.std.specs.List.{AllByRecursion};
ghost use Rattle.law.specs.Family.{Family, person, known, side_lives};
ghost use Rattle.theory.specs.Decedent.{kept_order, kept_relatives, kept_estate};
ghost use Rattle.amounts.specs.Lines.{couple_starts, kept_starts, starts_parts};
ghost use Rattle.amounts.specs.Estates.{relatives_number, relatives_times, spouse_lead};
ghost use Rattle.children.specs.Links.{link_row};
ghost use Rattle.people.specs.Layout.{person_row, laid, working, image, limit_in, count_in, Roomy};
ghost use Rattle.living.specs.Places.{ParentsThere};
ghost use Rattle.shares.specs.Parts.{lead_parts, whole_row};
ghost use Rattle.descent.specs.Going.{Gone};
ghost use Rattle.succession.specs.Settling.{DeadThere, EstateSettled};
ghost use Rattle.succession.specs.Orders.{forebears, line_in, order_number, spouse_in, parents_at, Begun};
ghost use Rattle.succession.specs.Starts.{start_row, starts_row, sides_starts};

use people::Person;
use shares::{PARTS_WORDS, Part};

// The order that inherits.
#[derive(Clone, Copy, Debug, PartialEq, Eq, PartialOrd, Ord)]
pub enum Order {
    Children,
    Parents,
    Grandparents,
    Nobody,
}

// Two forebears, each 0 or one more than a number.
#[derive(Clone, Copy, Debug, Default, PartialEq, Eq)]
pub struct Couple {
    pub mother: u32,
    pub father: u32,
}

// Whether somebody, given as 0 or one more than a number, has a line that lives.
fn has_line(memory: &[u32], link: u32) -> bool
    requires room { Roomy memory.now }
    ensures value { (n k : ℕ) (f : Family) (s : ℕ → Bool) (work rest : List ℕ) → memory.now ≡ laid n k (person_row f) (link_row f) s work rest → link ≤ n → result ≡ line_in s link }
{
    people::somebody(memory[0], link).is_some_and(|who| living::lives(memory, who))
}

// How many of two forebears have a line that lives.
pub fn living_lines(memory: &[u32], two: Couple) -> u32
    requires room { Roomy memory.now }
    ensures few { result ≤ 2 }
    ensures value { (n k : ℕ) (f : Family) (s : ℕ → Bool) (work rest : List ℕ) → memory.now ≡ laid n k (person_row f) (link_row f) s work rest → two.mother ≤ n → two.father ≤ n
        → result ≡ length (filter s (forebears two)) }
{
    u32::from(has_line(memory, two.mother)) + u32::from(has_line(memory, two.father))
}

// Somebody's parents; nobody's are unknown.
pub fn parents_of(memory: &[u32], link: u32) -> Couple
    requires room { Roomy memory.now }
    ensures value { (n k : ℕ) (f : Family) (s : ℕ → Bool) (work rest : List ℕ) → memory.now ≡ laid n k (person_row f) (link_row f) s work rest → link ≤ n → result ≡ parents_at f link }
{
    let Some(who) = people::somebody(memory[0], link) else {
        return Couple::default();
    };
    let Person { mother, father, .. } = people::read(memory, who);
    Couple { mother, father }
}

// The line of somebody, given as 0 or one more than a number, with one by so many, if it lives.
fn start_of(memory: &[u32], link: u32, by: u32) -> Option<Part>
    requires room { Roomy memory.now }
    ensures within { IfSome result (λ p. p.who < limit_in memory.now) }
    ensures value { (n : ℕ) (f : Family) (work rest : List ℕ) → memory.now ≡ working n f work rest → link ≤ n → lead_parts result ≡ start_row f by (known link) }
{
    let who = people::somebody(memory[0], link)?;
    living::lives(memory, who).then_some(Part { who, by })
}

// The lines of two forebears who have one by so many together: those that live, equally.
fn couple_starts(memory: &[u32], two: Couple, by: u32) -> [Option<Part>; 2]
    requires room { Roomy memory.now }
    requires small { by ≤ 16 }
    ensures within { AllByRecursion (λ s. s.who < limit_in memory.now) (starts_row result) }
    ensures value { (n : ℕ) (f : Family) (work rest : List ℕ) → memory.now ≡ working n f work rest → two.mother ≤ n → two.father ≤ n
        → starts_row result ≡ couple_starts f (forebears two) by }
{
    let each = by * living_lines(memory, two);
    [
        start_of(memory, two.mother, each),
        start_of(memory, two.father, each),
    ]
}

// The parents of the mother and those of the father, and on how many of these two sides a line lives.
#[derive(Clone, Copy, Debug, PartialEq, Eq)]
pub struct Sides {
    pub mother: Couple,
    pub father: Couple,
    pub living: u32,
}

// The two sides of somebody's parents.
pub fn sides_of(memory: &[u32], two: Couple) -> Sides
    requires room { Roomy memory.now }
    ensures few { result.living ≤ 2 }
    ensures value { (n : ℕ) (f : Family) (work rest : List ℕ) → memory.now ≡ working n f work rest → ParentsThere f n → two.mother ≤ n → two.father ≤ n
        → (result.mother ≡ parents_at f two.mother) × (result.father ≡ parents_at f two.father) × (result.living ≡ length (filter (λ p. side_lives f (length f) p) (forebears two))) }
{
    let mother = parents_of(memory, two.mother);
    let father = parents_of(memory, two.father);
    let living = u32::from(living_lines(memory, mother) > 0)
        + u32::from(living_lines(memory, father) > 0);
    Sides {
        mother,
        father,
        living,
    }
}

// The lines of grandparents: the sides on which a line lives have equal parts. A side without a living line has none.
fn side_starts(memory: &[u32], sides: Sides, by: u32) -> [Option<Part>; 4]
    requires room { Roomy memory.now }
    requires small { by ≤ 8 }
    requires few { sides.living ≤ 2 }
    ensures within { AllByRecursion (λ s. s.who < limit_in memory.now) (starts_row result) }
    ensures value { (n : ℕ) (f : Family) (work rest : List ℕ) (two : Couple) → memory.now ≡ working n f work rest → ParentsThere f n
        → sides.mother ≡ parents_at f two.mother → sides.father ≡ parents_at f two.father → sides.living ≡ length (filter (λ p. side_lives f (length f) p) (forebears two))
        → starts_row result ≡ sides_starts f (forebears two) by }
{
    let each = by * sides.living;
    let [mothers_mother, mothers_father] = couple_starts(memory, sides.mother, each);
    let [fathers_mother, fathers_father] = couple_starts(memory, sides.father, each);
    [
        mothers_mother,
        mothers_father,
        fathers_mother,
        fathers_father,
    ]
}

// The order that inherits from somebody who is dead: the first in which a line lives.
pub fn order_of(memory: &[u32], who: u32) -> Order
    requires room { Roomy memory.now }
    requires there { who < limit_in memory.now }
    ensures value { (n : ℕ) (f : Family) (work rest : List ℕ) → memory.now ≡ working n f work rest → ParentsThere f n → order_number result ≡ kept_order f who }
{
    if living::lives(memory, who) {
        return Order::Children;
    }
    let two = parents_of(memory, who + 1);
    if living_lines(memory, two) > 0 {
        return Order::Parents;
    }
    if sides_of(memory, two).living > 0 {
        return Order::Grandparents;
    }
    Order::Nobody
}

// The lines that the estate of somebody who is dead begins with, by the order that inherits: at most four. The relatives have one by so many together.
pub fn starts_of(memory: &[u32], who: u32, order: Order, by: u32) -> [Option<Part>; 4]
    requires room { Roomy memory.now }
    requires there { who < limit_in memory.now }
    requires small { by ≤ 8 }
    ensures within { AllByRecursion (λ s. s.who < limit_in memory.now) (starts_row result) }
    ensures value { (n : ℕ) (f : Family) (work rest : List ℕ) → memory.now ≡ working n f work rest → ParentsThere f n → order_number order ≡ kept_order f who
        → starts_row result ≡ kept_starts f who by }
{
    let two = parents_of(memory, who + 1);
    match order {
        Order::Children => [Some(Part { who, by }), None, None, None],
        Order::Parents => {
            let [mother, father] = couple_starts(memory, two, by);
            [mother, father, None, None]
        }
        Order::Grandparents => side_starts(memory, sides_of(memory, two), by),
        Order::Nobody => [None; 4],
    }
}

// The parts of the lines that an estate begins with, one line behind the other.
fn relatives(memory: &mut [u32], starts: [Option<Part>; 4]) -> Option<u32>
    requires room { Roomy memory.old }
    requires there { AllByRecursion (λ s. s.who < limit_in memory.old) (starts_row starts) }
    ensures limit { limit_in memory.new ≡ limit_in memory.old }
    ensures count { count_in memory.new ≡ count_in memory.old }
    ensures few { IfSome result (λ k. k ≤ 4096) }
    ensures gone { (n : ℕ) (f : Family) (rk : ℕ → ℕ) (spare rest : List ℕ) → Begun memory.old n f rk [] spare rest 0 → AllByRecursion (λ s. s.who < length f) (starts_row starts)
        → Gone n f spare rest [] (starts_parts f (starts_row starts)) memory.new result }
{
    let steps = memory[1];
    let mut count = 0;
    for start in starts.into_iter().flatten() {
        count = descent::line(memory, steps, start.who, start.by, count)?;
    }
    Some(count)
}

// Somebody's living spouse, given the spouse as 0 or one more than a number.
pub fn living_spouse(memory: &[u32], spouse: u32) -> Option<u32>
    requires room { Roomy memory.now }
    ensures value { (n k : ℕ) (f : Family) (s : ℕ → Bool) (work rest : List ℕ) (d : ℕ) → memory.now ≡ laid n k (person_row f) (link_row f) s work rest → spouse ≡ (person f d).spouse → spouse ≤ n
        → result ≡ spouse_in f d }
{
    people::somebody(memory[0], spouse).filter(|who| people::read(memory, *who).lives)
}

// What a spouse has first, how often each part of relatives counts beside it, and by how many they go.
#[derive(Clone, Copy, Debug, PartialEq, Eq)]
pub struct Beside {
    pub lead: Option<Part>,
    pub times: u32,
    pub by: u32,
}

// A quarter beside children's lines, a half beside parents' or grandparents', and else all; without a spouse nothing.
pub fn beside_spouse(order: Order, spouse: Option<u32>) -> Beside
    ensures small { result.by ≤ 8 }
    ensures some { 0 < result.times }
    ensures value { (f : Family) (d : ℕ) → spouse ≡ spouse_in f d → order_number order ≡ kept_order f d → whole_row result.lead result.times (kept_relatives f d result.by) ≡ kept_estate f d }
    ensures numbers { (f : Family) (d : ℕ) → spouse ≡ spouse_in f d → order_number order ≡ kept_order f d
        → (result.by ≡ relatives_number f d) × (result.times ≡ relatives_times f d) × (lead_parts result.lead ≡ spouse_lead f d) }
{
    let Some(who) = spouse else {
        return Beside {
            lead: None,
            times: 1,
            by: 1,
        };
    };
    let (by, times) = match order {
        Order::Children => (4, 3),
        Order::Parents | Order::Grandparents => (2, 1),
        Order::Nobody => (1, 1),
    };
    Beside {
        lead: Some(Part { who, by }),
        times,
        by,
    }
}

// The shares of the estate of somebody who is dead, written as the answer: how many there are. None where the estate is beyond the limits; nothing is written then.
pub fn settle(memory: &mut [u32], answer: &mut [u8], who: u32) -> Option<u32>
    requires room { Roomy memory.old }
    requires there { who < limit_in memory.old }
    requires bytes { 8 + 20 * limit_in memory.old ≤ length answer.old }
    ensures limit { limit_in memory.new ≡ limit_in memory.old }
    ensures count { count_in memory.new ≡ count_in memory.old }
    ensures settled { (n : ℕ) (f : Family) (rest : List ℕ) → memory.old ≡ image n f rest → DeadThere f n who
        → EstateSettled n f rest who memory.new answer.old answer.new result }
{
    let order = order_of(memory, who);
    let spouse = people::read(memory, who).spouse;
    let beside = beside_spouse(order, living_spouse(memory, spouse));
    let persons = memory[1];
    let at = descent::work_at(memory[0]);
    let starts = starts_of(memory, who, order, beside.by);
    let Some(count) = relatives(memory, starts) else {
        rows::clear(memory, at, PARTS_WORDS);
        return None;
    };
    shares::settle(
        &mut memory[at..],
        answer,
        persons,
        beside.lead,
        beside.times,
        count,
    )
}
