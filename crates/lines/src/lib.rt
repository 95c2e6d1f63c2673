// One line of a family as text: a person's name, parents, death and spouse.
#![tactic(auto)]

ghost use Rattle.std.specs.Prelude.{◌≡◌, [], ◌∷◌, ◌++◌, Some, string_bytes, MatchOption, OnOk};
ghost use Rattle.std.specs.Option.{option_map};
ghost use Rattle.std.specs.Result.{result_ok};
ghost use Rattle.lines.specs.Words.{StandsNowhere, StandsFirst, cut as law_cut, halves, split_off, split};
ghost use Rattle.lines.specs.Names.{name_byte, name_bytes, starts_character, characters as law_characters, no_space_at_ends, and_here, has_and, and_first, well_formed, text_of, name_in as law_name_in};
ghost use Rattle.lines.specs.Grammar.{said_by, line_text, read_line as law_read_line, spouse_in, died_in, mother_in, parents, parents_in, parents_text, unreadable_words, OneForm};

use std::alloc::AllocError;
use std::error::Error;
use std::fmt;
use std::str::from_utf8;

// What a line says of a person; a parent or spouse who is not named is not known or not there.
#[derive(Clone, Copy)]
pub struct Entry<'a> {
    pub name: &'a str,
    pub mother: Option<&'a str>,
    pub father: Option<&'a str>,
    pub died: bool,
    pub spouse: Option<&'a str>,
}

// The parents that a line names.
#[derive(Clone, Copy)]
struct Parents<'a> {
    mother: Option<&'a str>,
    father: Option<&'a str>,
}

// Bytes that are no name, or no line.
#[derive(Clone, Copy, PartialEq, Eq, Debug)]
pub struct Unreadable;

impl fmt::Display for Unreadable {
    ghost output = { λ _. Some unreadable_words };

    fn fmt<W: fmt::Write>(&self, f: &mut fmt::Formatter<W>) -> fmt::Result {
        write!(f, "it can't be read")
    }
}

impl Error for Unreadable {}

const LONGEST_NAME: usize = 64;

// What stands in the place of a mother who is not known.
const UNKNOWN: &[u8] = b"unknown";

// The first place where a word stands.
fn place_of(text: &[u8], word: &[u8]) -> Option<usize>
    ensures cases { MatchOption result (StandsNowhere word.now text.now) (λ at. StandsFirst word.now text.now at) }
{
    (0..text.len()).find(|at| text[*at..].starts_with(word))
}

// What is before and behind the first place where a word stands.
pub fn cut<'a>(text: &'a [u8], word: &[u8]) -> Option<(&'a [u8], &'a [u8])>
    ensures value { option_map halves result ≡ law_cut word.now text.now }
{
    let at = place_of(text, word)?;
    Some((&text[..at], &text[at + word.len()..]))
}

// What is before a word, or all where it stands nowhere, and what is behind it.
fn split_off<'a>(text: &'a [u8], word: &[u8]) -> (&'a [u8], Option<&'a [u8]>)
    ensures value { split result ≡ split_off word.now text.now }
{
    match cut(text, word) {
        Some((front, rest)) => (front, Some(rest)),
        None => (text, None),
    }
}

// Whether all bytes may stand in a name.
fn all_name_bytes(bytes: &[u8]) -> bool
    ensures value { result ≡ name_bytes bytes.now }
{
    bytes.iter().all(|byte| is_name_byte(*byte))
}

fn is_name_byte(byte: u8) -> bool
    ensures value { result ≡ name_byte byte }
{
    matches!(byte, b'A'..=b'Z' | b'a'..=b'z' | 128..=255 | b' ' | b'-')
}

// Bytes from 128 to 191 carry a character on, and all others begin one.
fn starts_character(byte: u8) -> bool
    ensures value { result ≡ starts_character byte }
{
    !matches!(byte, 128..192)
}

// How many characters the bytes spell.
fn characters(bytes: &[u8]) -> usize
    ensures value { result ≡ law_characters bytes.now }
{
    bytes.iter().filter(|byte| starts_character(**byte)).count()
}

fn has_no_space_at_ends(bytes: &[u8]) -> bool
    ensures value { result ≡ no_space_at_ends bytes.now }
{
    !matches!(bytes, [] | [b' ', ..] | [.., b' '])
}

// Whether the word and is the first.
fn begins_with_and(bytes: &[u8]) -> bool
    ensures value { result ≡ and_first bytes.now }
{
    matches!(bytes, b"and" | [b'a', b'n', b'd', b' ', ..])
}

// Whether the word and stands here, behind a space.
fn is_and(bytes: &[u8]) -> bool
    ensures value { result ≡ and_here bytes.now }
{
    matches!(bytes, [b' ', rest @ ..] if begins_with_and(rest))
}

fn holds_and(bytes: &[u8]) -> bool
    ensures value { result ≡ has_and bytes.now }
{
    (0..bytes.len()).any(|at| is_and(&bytes[at..]))
}

// Whether bytes are a name, if they are text.
fn is_well_formed(bytes: &[u8]) -> bool
    ensures value { result ≡ well_formed bytes.now }
{
    all_name_bytes(bytes)
        && has_no_space_at_ends(bytes)
        && characters(bytes) <= LONGEST_NAME
        && !begins_with_and(bytes)
        && !holds_and(bytes)
        && bytes != UNKNOWN
}

// The name that bytes are, if they are one.
pub fn name_in(bytes: &[u8]) -> Result<&str, Unreadable>
    ensures value { option_map (λ x. x.now) (result_ok result) ≡ law_name_in bytes.now }
{
    if is_well_formed(bytes) {
        from_utf8(bytes).map_err(|_| Unreadable)
    } else {
        Err(Unreadable)
    }
}

// A spouse, if one is named.
fn spouse_of(said: Option<&[u8]>) -> Result<Option<&str>, Unreadable>
    ensures value { option_map (option_map (λ x. x.now)) (result_ok result) ≡ spouse_in (option_map (λ x. x.now) said.entry) }
{
    said.map(name_in).transpose()
}

// Whether it is said that somebody died; nothing more may be said.
fn death_of(said: Option<&[u8]>) -> Result<bool, Unreadable>
    ensures value { result_ok result ≡ died_in (option_map (λ x. x.now) said.entry) }
{
    match said {
        Some([]) => Ok(true),
        Some(_) => Err(Unreadable),
        None => Ok(false),
    }
}

// A mother beside a father, who may be unknown.
fn mother_of(bytes: &[u8]) -> Result<Option<&str>, Unreadable>
    ensures value { option_map (option_map (λ x. x.now)) (result_ok result) ≡ mother_in bytes.now }
{
    if bytes == UNKNOWN {
        Ok(None)
    } else {
        name_in(bytes).map(Some)
    }
}

// The parents that are named.
fn parents_of(said: Option<&[u8]>) -> Result<Parents<'_>, Unreadable>
    ensures value { option_map parents (result_ok result) ≡ parents_in (option_map (λ x. x.now) said.entry) }
{
    let Some(bytes) = said else {
        return Ok(Parents {
            mother: None,
            father: None,
        });
    };
    match cut(bytes, b" and ") {
        None => Ok(Parents {
            mother: Some(name_in(bytes)?),
            father: None,
        }),
        Some((mother, father)) => Ok(Parents {
            mother: mother_of(mother)?,
            father: Some(name_in(father)?),
        }),
    }
}

// What a line says, given without its end.
pub fn read_line(line: &[u8]) -> Result<Entry<'_>, Unreadable>
    ensures value { option_map said_by (result_ok result) ≡ law_read_line line.now }
{
    let (before_spouse, spouse) = split_off(line, b", spouse of ");
    let (before_death, death) = split_off(before_spouse, b", died");
    let (name, parents) = split_off(before_death, b", of ");
    let name = name_in(name)?;
    let Parents { mother, father } = parents_of(parents)?;
    let died = death_of(death)?;
    let spouse = spouse_of(spouse)?;
    Ok(Entry {
        name,
        mother,
        father,
        died,
        spouse,
    })
}

// What is printed of the parents.
impl fmt::Display for Parents<'_> {
    ghost output = { λ p. Some (parents_text (option_map (λ x. x.now) p.mother) (option_map (λ x. x.now) p.father)) };

    fn fmt<W: fmt::Write>(&self, f: &mut fmt::Formatter<W>) -> fmt::Result {
        match (self.mother, self.father) {
            (None, None) => Ok(()),
            (Some(mother), None) => write!(f, ", of {mother}"),
            (None, Some(father)) => write!(f, ", of unknown and {father}"),
            (Some(mother), Some(father)) => write!(f, ", of {mother} and {father}"),
        }
    }
}

// The text of a line, without its end.
impl fmt::Display for Entry<'_> {
    ghost output = { λ e. Some (line_text (said_by e)) };

    fn fmt<W: fmt::Write>(&self, f: &mut fmt::Formatter<W>) -> fmt::Result {
        let Entry {
            name,
            mother,
            father,
            died,
            spouse,
        } = *self;
        let parents = Parents { mother, father };
        let death = if died { ", died" } else { "" };
        write!(f, "{name}{parents}{death}")?;
        match spouse {
            Some(spouse) => write!(f, ", spouse of {spouse}"),
            None => Ok(()),
        }
    }
}

// Appends the line of an entry, with its end.
pub fn put_line(text: &mut String, entry: Entry) -> Result<(), AllocError>
    ensures lines { OnOk result (string_bytes text.new ≡ string_bytes text.old ++ (line_text (said_by entry.entry) ++ (10 ∷ []))) }
{
    writeln!(text, "{entry}")
}

// A row of bytes is a line exactly if it is the text of what it says.
pub fn lines_have_one_form()
    ensures holds { OneForm }
{}
