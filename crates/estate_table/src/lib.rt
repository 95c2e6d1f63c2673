// The table of an estate: all heirs with their shares, and under each the lines by which the parts came.
#![tactic(auto)]

ghost use Rattle.std.specs.Prelude.{◌≡◌, ℕ, ◌++◌, length, string_bytes, OnOk, IsOkUnless, ◌==◌};
ghost use Rattle.law.specs.Family.{Family};
ghost use Rattle.theory.specs.Families.{WellFormed};
ghost use Rattle.ways.specs.Rows.{family_of};
ghost use Rattle.reasons.specs.Estates.{DividedByWays};
ghost use Rattle.why.specs.Explained.{explanations, ways_held};
ghost use Rattle.reason_lines.specs.Lines.{names_of};
ghost use Rattle.estate_table.specs.Tables.{heir_lines, heirs_lines, end_line, table_text, table_said, SharesAreOne};

use people::Person;
use reason_lines::Named;
use reasons::{Estate, Refusal};
use std::alloc::AllocError;
use why::Reasons;

// Appends somebody's name and share, and under them the lines of their parts; nothing for who has none.
fn put_heir(
    text: &mut String,
    names: &[&str],
    who: usize,
    reasons: &Reasons,
) -> Result<(), AllocError>
    ensures lines { OnOk result (string_bytes text.new ≡ string_bytes text.old ++ heir_lines (names_of names.now) who reasons.now.sum (explanations reasons.now.parts.items)) }
{
    let Reasons { parts, sum } = reasons;
    if parts.is_empty() {
        return Ok(());
    }
    writeln!(text, "{} {sum}", Named { names, who })?;
    reason_lines::put_parts(text, names, parts, "  ")
}

// Appends all heirs among so many persons, by number.
fn put_heirs(
    text: &mut String,
    names: &[&str],
    estate: &Estate,
    count: usize,
) -> Result<(), AllocError>
    ensures lines { OnOk result (((f : Family) (d : ℕ) → WellFormed f → DividedByWays f d estate.now → string_bytes text.new ≡ string_bytes text.old ++ heirs_lines (names_of names.now) f d count)) }
{
    for who in 0..count {
        let reasons = why::explain_share(*text.allocator(), estate, who)?;
        put_heir(text, names, who, &reasons)?;
    }
    Ok(())
}

// Whether there are no ways.
fn no_ways(estate: &Estate) -> bool
    ensures value { result ≡ (length (ways_held estate.now) == 0) }
{
    estate.spouse.is_none() && estate.ways.is_empty()
}

// Appends the last line: that there are no heirs, or that all shares together are one.
fn put_end(text: &mut String, estate: &Estate) -> Result<(), AllocError>
    ensures lines { OnOk result (string_bytes text.new ≡ string_bytes text.old ++ end_line (length (ways_held estate.now))) }
{
    text.push_str(if no_ways(estate) {
        "no heirs\n"
    } else {
        "all shares together are 1/1\n"
    })
}

// Appends the table of an estate that is divided so, in a family of so many persons.
fn put_table(
    text: &mut String,
    names: &[&str],
    estate: &Estate,
    count: usize,
) -> Result<(), AllocError>
    ensures lines { OnOk result (((f : Family) (d : ℕ) → WellFormed f → DividedByWays f d estate.now → length f ≡ count → string_bytes text.new ≡ string_bytes text.old ++ table_text (names_of names.now) f d)) }
{
    put_heirs(text, names, estate, count)?;
    put_end(text, estate)
}

// Appends the table of somebody's estate, as if they had died now, or its refusal. Fails only where memory runs out.
pub fn table_lines(
    text: &mut String,
    names: &[&str],
    family: &[Person],
    decedent: usize,
) -> Result<(), Refusal>
    ensures lines { OnOk result ((WellFormed (family_of family.now) → string_bytes text.new ≡ string_bytes text.old ++ table_said (names_of names.now) (family_of family.now) decedent)) }
    ensures fails { IsOkUnless result Refusal.NoMemory }
{
    match reasons::divide(*text.allocator(), family, decedent) {
        Ok(estate) => Ok(put_table(text, names, &estate, family.len())?),
        Err(refusal) => reason_lines::put_refusal(text, refusal),
    }
}

// Where anybody inherits, all shares together are one.
pub fn shares_are_one()
    ensures holds { SharesAreOne }
{}
