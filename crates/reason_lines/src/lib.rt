// The lines that say why somebody has a share of an estate, by names or by numbers.
#![tactic(auto)]

ghost use Rattle.std.specs.Prelude.{◌≡◌, ◌++◌, string_bytes, OnOk, IsOkUnless, Some, Err, Result};
ghost use Rattle.std.specs.List.{flat_map};
ghost use Rattle.theory.specs.Families.{WellFormed};
ghost use Rattle.ways.specs.Rows.{family_of};
ghost use Rattle.why.specs.Answers.{AnswerRight};
ghost use Rattle.why.specs.Explained.{explanation, explanations};
ghost use Rattle.reason_lines.specs.Lines.{names_of, person_text, line_text, part_line, share_lines, refusal_line, answer_lines};

use people::Person;
use reasons::Refusal;
use std::alloc::AllocError;
use std::fmt;
use why::{Answer, Explanation, Reasons};

// Somebody among persons with names: by name, or by number who has none.
#[derive(Clone, Copy)]
pub struct Named<'n> {
    pub names: &'n [&'n str],
    pub who: usize,
}

impl fmt::Display for Named<'_> {
    ghost output = { λ x. Some (person_text (names_of x.names.now) x.who) };

    fn fmt<W: fmt::Write>(&self, f: &mut fmt::Formatter<W>) -> fmt::Result {
        let Named { names, who } = *self;
        match names.get(who) {
            Some(name) => f.write_str(name),
            None => write!(f, "{who}"),
        }
    }
}

// How a part came: as spouse, or by the persons of a line.
#[derive(Clone, Copy)]
struct Line<'n> {
    names: &'n [&'n str],
    persons: &'n [usize],
}

impl fmt::Display for Line<'_> {
    ghost output = { λ x. Some (line_text (names_of x.names.now) x.persons.now) };

    fn fmt<W: fmt::Write>(&self, f: &mut fmt::Formatter<W>) -> fmt::Result {
        let Line { names, persons } = *self;
        let Some((first, more)) = persons.split_first() else {
            return f.write_str(" as spouse");
        };
        write!(f, " by {}", Named { names, who: *first })?;
        for who in more {
            write!(f, ", {}", Named { names, who: *who })?;
        }
        Ok(())
    }
}

// Appends the line of a part, behind an indent.
fn put_part(
    text: &mut String,
    names: &[&str],
    part: &Explanation,
    indent: &str,
) -> Result<(), AllocError>
    ensures lines { OnOk result (string_bytes text.new ≡ string_bytes text.old ++ (indent.now ++ part_line (names_of names.now) (explanation part.now))) }
{
    let line = Line {
        names,
        persons: &part.line,
    };
    writeln!(text, "{indent}{}{line}", part.part)
}

// Appends the lines of some parts, each behind an indent.
pub fn put_parts(
    text: &mut String,
    names: &[&str],
    parts: &[Explanation],
    indent: &str,
) -> Result<(), AllocError>
    ensures lines { OnOk result (string_bytes text.new ≡ string_bytes text.old ++ flat_map (λ x. indent.now ++ part_line (names_of names.now) x) (explanations parts.now)) }
{
    for part in parts {
        put_part(text, names, part, indent)?;
    }
    Ok(())
}

// Appends the lines of all parts of an heir and of the sum, or the line of the cause.
pub fn put_answer(text: &mut String, names: &[&str], answer: &Answer) -> Result<(), AllocError>
    ensures lines { OnOk result (string_bytes text.new ≡ string_bytes text.old ++ share_lines (names_of names.now) answer.now) }
{
    match answer {
        Answer::Heir(Reasons { parts, sum }) => {
            put_parts(text, names, parts, "")?;
            writeln!(text, "{sum} in all")
        }
        Answer::NoShare(cause) => writeln!(text, "no share: {cause}"),
    }
}

// Appends the line of a refusal. Lack of memory has none, and is handed on.
pub fn put_refusal(text: &mut String, refusal: Refusal) -> Result<(), Refusal>
    ensures lines { OnOk result (string_bytes text.new ≡ string_bytes text.old ++ refusal_line refusal) }
    ensures memory { OnOk result (¬ (refusal ≡ Refusal.NoMemory)) }
    ensures fails { IsOkUnless result Refusal.NoMemory }
{
    match refusal {
        Refusal::NotThere => text.push_str("refused 4 at 0\n")?,
        Refusal::BeyondLimit => text.push_str("refused 6 at 0\n")?,
        Refusal::NoMemory => return Err(refusal),
    }
    Ok(())
}

// Appends the lines that say why somebody has a share of somebody's estate, or why not: those of a right answer. Fails only where memory runs out.
pub fn why_lines(
    text: &mut String,
    names: &[&str],
    family: &[Person],
    decedent: usize,
    who: usize,
) -> Result<(), Refusal>
    ensures lines { OnOk result (((a : Result Answer Refusal) × (¬ (a ≡ Err Refusal.NoMemory)) × (string_bytes text.new ≡ string_bytes text.old ++ answer_lines (names_of names.now) a) × (WellFormed (family_of family.now) → AnswerRight (family_of family.now) decedent who a))) }
    ensures fails { IsOkUnless result Refusal.NoMemory }
{
    match why::why(*text.allocator(), family, decedent, who) {
        Ok(answer) => Ok(put_answer(text, names, &answer)?),
        Err(refusal) => put_refusal(text, refusal),
    }
}
