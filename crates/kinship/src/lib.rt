// Why somebody has no share of an estate: of which lines they are, and who stands before them.
#![tactic(auto)]

ghost use Rattle.std.specs.Prelude.{◌≡◌, ℕ, ◌<◌, length, IfOk, Some};
ghost use Rattle.theory.specs.Families.{Ranked};
ghost use Rattle.ways.specs.Rows.{family_of, in_row};
ghost use Rattle.succession.specs.Orders.{order_number};
ghost use Rattle.kinship.specs.Causes.{order_in, cause_by, cause_words, NoWay, CauseHolds};
ghost use Rattle.kinship.specs.Forebears.{only_lives, LinesTo};

use people::Person;
use std::alloc::{AllocError, Global};
use std::fmt;
use succession::Order;

// Why somebody has no share: they are the decedent, are not there, or are dead, looked at in this order; else they are of the lines of a farther order only,
// or on every line that leads to them somebody lives who stands before them, or no line leads to them.
#[derive(Clone, Copy, Debug, PartialEq, Eq, Hash)]
pub enum Cause {
    IsDecedent,
    NotThere,
    Dead,
    NearerOrder,
    LivingForebear,
    NotOfFamily,
}

impl fmt::Display for Cause {
    ghost output = { λ cause. Some (cause_words cause) };

    fn fmt<W: fmt::Write>(&self, f: &mut fmt::Formatter<W>) -> fmt::Result {
        f.write_str(match self {
            Cause::IsDecedent => "the decedent",
            Cause::NotThere => "not there",
            Cause::Dead => "dead",
            Cause::NearerOrder => "a nearer order inherits",
            Cause::LivingForebear => "a living forebear stands before them",
            Cause::NotOfFamily => "not of the family",
        })
    }
}

// The same family, in which nobody lives but one.
fn only_living(heap: Global, family: &[Person], who: usize) -> Result<Vec<Person>, AllocError>
    ensures value { IfOk result (λ v. family_of v.items ≡ only_lives (family_of family.now) who) }
{
    family
        .iter()
        .enumerate()
        .map(|(index, person)| Person {
            lives: index == who,
            ..*person
        })
        .collect(heap)
}

// Of whose lines somebody is, who is there.
pub fn lines_to(heap: Global, family: &[Person], who: usize) -> Result<Vec<bool>, AllocError>
    ensures value { IfOk result (λ v. ((rk : ℕ → ℕ) → Ranked (family_of family.now) rk → who < length family.now → LinesTo (family_of family.now) who (in_row v.items))) }
{
    let only = only_living(heap, family, who)?;
    ways::living_lines(heap, &only, family.len())
}

// The nearest order of which a line is in a set.
fn nearest_order(
    heap: Global,
    family: &[Person],
    set: &[bool],
    decedent: usize,
) -> Result<Order, AllocError>
    ensures value { IfOk result (λ o. order_number o ≡ order_in (in_row set.now) (family_of family.now) decedent) }
{
    let lines = reasons::lines_in(heap, family, set, decedent)?;
    Ok(reasons::order_of(&lines))
}

// Why somebody who lives has no share, by the order that inherits and the nearest of which they are.
fn cause_of(inherits: Order, nearest: Order) -> Cause
    ensures value { result ≡ cause_by (order_number inherits) (order_number nearest) }
{
    if nearest == Order::Nobody {
        Cause::NotOfFamily
    } else if inherits < nearest {
        Cause::NearerOrder
    } else {
        Cause::LivingForebear
    }
}

// Why somebody has no share, if no way of the relatives ends at them.
pub fn why_not(
    heap: Global,
    family: &[Person],
    decedent: usize,
    who: usize,
) -> Result<Cause, AllocError>
    ensures holds { IfOk result (λ k. ((rk : ℕ → ℕ) → Ranked (family_of family.now) rk → decedent < length family.now → NoWay (family_of family.now) decedent who → CauseHolds (family_of family.now) decedent who k)) }
{
    if who == decedent {
        return Ok(Cause::IsDecedent);
    }
    let Some(person) = family.get(who) else {
        return Ok(Cause::NotThere);
    };
    if !person.lives {
        return Ok(Cause::Dead);
    }
    let lives = ways::living_lines(heap, family, decedent)?;
    let inherits = nearest_order(heap, family, &lives, decedent)?;
    let above = lines_to(heap, family, who)?;
    let nearest = nearest_order(heap, family, &above, decedent)?;
    Ok(cause_of(inherits, nearest))
}
