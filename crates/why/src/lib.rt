// Why somebody has a share of an estate: every part that comes to them, with the persons of its line, and the sum.
#![tactic(auto)]

ghost use Rattle.std.specs.Prelude.{◌≡◌, ◌<◌, ◌++◌, map, length, IfOk, OnOk, Some};
ghost use Rattle.ways.specs.Laws.{way_pieces};
ghost use Rattle.ways.specs.Rows.{family_of, law_ways};
ghost use Rattle.ways.specs.Ways.{counted};
ghost use Rattle.theory.specs.Families.{WellFormed};
ghost use Rattle.reasons.specs.Estates.{lead_ways, DividedByWays};
ghost use Rattle.why.specs.Answers.{ShareRight, AnswerRight};
ghost use Rattle.why.specs.Explained.{lowest_terms, fraction_text, explanation, explanations, parts_to, ways_held};

use kinship::Cause;
use people::Person;
use reasons::{Estate, Refusal};
use shares::Part;
use std::alloc::{AllocError, Global};
use std::fmt;
use ways::Way;

// Up by down of an estate.
#[derive(Clone, Copy, Debug, PartialEq, Eq, Hash)]
pub struct Fraction {
    pub up: u64,
    pub down: u64,
}

impl Fraction {
    // In lowest terms; nothing of nothing is 0 by 0.
    pub fn lowest(up: u64, down: u64) -> Self
        ensures value { result ≡ lowest_terms up down }
    {
        let share = shares::reduce(0, up, down);
        Self {
            up: share.up,
            down: share.down,
        }
    }
}

impl fmt::Display for Fraction {
    ghost output = { λ fraction. Some (fraction_text fraction) };

    fn fmt<W: fmt::Write>(&self, f: &mut fmt::Formatter<W>) -> fmt::Result {
        let Fraction { up, down } = *self;
        write!(f, "{up}/{down}")
    }
}

// A part of an estate, in lowest terms, and the persons of the line by which it came; nobody for a part that a spouse has as such.
#[derive(Drop)]
pub struct Explanation {
    pub line: Vec<usize>,
    pub part: Fraction,
}

// All parts that come to an heir, in order, and what they come to together.
#[derive(Drop)]
pub struct Reasons {
    pub parts: Vec<Explanation>,
    pub sum: Fraction,
}

// Why somebody has a share, or none.
#[derive(Drop)]
pub enum Answer {
    Heir(Reasons),
    NoShare(Cause),
}

// One way: so many times one by so many, by a line.
fn explain(heap: Global, line: &[usize], up: u32, by: u32) -> Result<Explanation, AllocError>
    ensures value { IfOk result (λ e. explanation e ≡ record { line = line.entry.now; part = lowest_terms up by }) }
{
    let line = Vec::from_slice(heap, line)?;
    Ok(Explanation {
        line,
        part: Fraction::lowest(u64::from(up), u64::from(by)),
    })
}

// Puts the part that a spouse has, if it is this heir's, behind others.
fn put_spouse(
    found: &mut Vec<Explanation>,
    spouse: Option<Part>,
    heir: usize,
) -> Result<(), AllocError>
    ensures value { OnOk result (explanations found.new.items ≡ explanations found.old.items ++ parts_to heir (map (counted 1) (lead_ways spouse))) }
{
    if let Some(part) = spouse.filter(|part| part.who as usize == heir) {
        let heap = *found.allocator();
        found.push(explain(heap, &[], 1, part.by)?)?;
    }
    Ok(())
}

// Puts those ways that end at this heir behind others.
fn put_ways(
    found: &mut Vec<Explanation>,
    ways: &[Way],
    up: u32,
    heir: usize,
) -> Result<(), AllocError>
    ensures value { OnOk result (explanations found.new.items ≡ explanations found.old.items ++ parts_to heir (map (counted up) (law_ways ways.now))) }
{
    let heap = *found.allocator();
    for way in ways {
        if way.who == heir {
            found.push(explain(heap, &way.line, up, way.by)?)?;
        }
    }
    Ok(())
}

// The parts of an estate that come to somebody, in order, each with the persons of its line.
pub fn explanations_of(
    heap: Global,
    estate: &Estate,
    heir: usize,
) -> Result<Vec<Explanation>, AllocError>
    ensures value { IfOk result (λ v. explanations v.items ≡ parts_to heir (ways_held estate.now)) }
{
    let mut found = Vec::new(heap);
    put_spouse(&mut found, estate.spouse, heir)?;
    put_ways(&mut found, &estate.ways, estate.up, heir)?;
    Ok(found)
}

// How many pieces this heir has by a spouse's part.
fn spouse_pieces(spouse: Option<Part>, whole: u32, heir: usize) -> u64
    ensures value { result ≡ way_pieces whole (map (counted 1) (lead_ways spouse)) heir }
{
    spouse
        .filter(|part| part.who as usize == heir)
        .map_or(0, |part| shares::amount(1, whole, part.by))
}

// How many pieces somebody has of an estate, by all their ways; what doesn't fit is cut off, which no estate comes to.
pub fn pieces_of(estate: &Estate, heir: usize) -> u64
    ensures value { way_pieces estate.now.whole (ways_held estate.now) heir < 18446744073709551616 → result ≡ way_pieces estate.now.whole (ways_held estate.now) heir }
{
    let &Estate { up, whole, .. } = estate;
    let spouse = spouse_pieces(estate.spouse, whole, heir);
    estate
        .ways
        .iter()
        .filter(|way| way.who == heir)
        .map(|way| shares::amount(up, whole, way.by))
        .fold(spouse, |sum, pieces| sum.saturating_add(pieces))
}

// All parts of an estate that come to somebody, and what they come to.
pub fn explain_share(heap: Global, estate: &Estate, heir: usize) -> Result<Reasons, AllocError>
    ensures parts { IfOk result (λ x. explanations x.parts.items ≡ parts_to heir (ways_held estate.now)) }
    ensures sum { IfOk result (λ x. (way_pieces estate.now.whole (ways_held estate.now) heir < 18446744073709551616 → x.sum ≡ lowest_terms (way_pieces estate.now.whole (ways_held estate.now) heir) estate.now.whole)) }
{
    let parts = explanations_of(heap, estate, heir)?;
    let sum = Fraction::lowest(pieces_of(estate, heir), u64::from(estate.whole));
    Ok(Reasons { parts, sum })
}

// Why somebody has a share of an estate that is divided so, or why they have none.
fn share_or_cause(
    heap: Global,
    family: &[Person],
    decedent: usize,
    estate: &Estate,
    who: usize,
) -> Result<Answer, AllocError>
    ensures right { IfOk result (λ y. (WellFormed (family_of family.now) → decedent < length family.now → DividedByWays (family_of family.now) decedent estate.now → ShareRight (family_of family.now) decedent who y)) }
{
    let reasons = explain_share(heap, estate, who)?;
    if reasons.parts.is_empty() {
        let cause = kinship::why_not(heap, family, decedent, who)?;
        return Ok(Answer::NoShare(cause));
    }
    Ok(Answer::Heir(reasons))
}

// Why somebody has a share of somebody's estate, as if they had died now: every part with its line, and the sum; or why they have none.
pub fn why(heap: Global, family: &[Person], decedent: usize, who: usize) -> Result<Answer, Refusal>
    ensures right { WellFormed (family_of family.now) → AnswerRight (family_of family.now) decedent who result }
{
    let estate = reasons::divide(heap, family, decedent)?;
    Ok(share_or_cause(heap, family, decedent, &estate, who)?)
}
