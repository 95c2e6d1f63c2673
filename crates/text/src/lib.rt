// Families as text: a line for each person.
#![tactic(auto)]

ghost use Rattle.std.specs.Prelude.{◌≡◌, ℕ, ◌<◌, ◌≤◌, List, [], ◌++◌, length, IfSome, IfOk, Some, Ok, string_bytes, OnOk};
ghost use Rattle.std.specs.Option.{option_map};
ghost use Rattle.people.specs.Persons.{law_person};
ghost use Rattle.lines.specs.Grammar.{said_by};
ghost use Rattle.text.specs.declared.Reason.TheVariants.{Unreadable as unreadable};
ghost use Rattle.text.specs.declared.Failure.TheVariants.{Line, NoMemory};
ghost use Rattle.text.specs.Households.{names_in, persons_of, household, Valid};
ghost use Rattle.text.specs.Reading.{said_in, names_of, place_of as law_place_of, next_line as law_next_line, parent_in, spouse_of as law_spouse_of, person_of as law_person_of, persons_in, answered, agreed, lines_in, persons_of as law_persons_of, read_family};
ghost use Rattle.text.specs.Printing.{name_at as law_name_at, line_for, lines_for, text_lines, family_text, ReadsBack, ReadAreValid, PrintedAgain};
ghost use Rattle.text.specs.Building.{Built, BuiltByCalls};
ghost use Rattle.text.specs.Messages.{reason_words, fault_words, failure_words, line_at as law_line_at};
ghost use Rattle.text.specs.Outcomes.{FirstLine, next_said, person_said, answer_said, agree_said, with_line as law_with_line, Told};

use lines::{Entry, Unreadable};
use people::Person;
use std::alloc::{AllocError, AllocFailed, Global};
use std::error::Error;
use std::fmt;

// Why a line is refused.
#[derive(Clone, Copy, PartialEq, Eq, Debug)]
pub enum Reason {
    // it can't be read
    Unreadable,
    // it is the last, and has no newline at its end
    NoNewline,
    // there are more than 64 persons
    TooMany,
    // an earlier line has the name
    NameTwice,
    // no line has the parent's name
    ParentNotThere,
    // the parent's line comes later
    LaterParent,
    // somebody is their own parent
    OwnParent,
    // the mother is the father
    SameParents,
    // no line has the spouse's name
    SpouseNotThere,
    // somebody is their own spouse
    OwnSpouse,
    // the spouse has another spouse
    SecondSpouse,
}

impl Reason {
    // The reason in words.
    pub fn words(self) -> &'static str
        ensures value { result.now ≡ reason_words self }
    {
        match self {
            Reason::Unreadable => "the line can't be read",
            Reason::NoNewline => "the line has no newline at its end",
            Reason::TooMany => "there are more than 64 persons",
            Reason::NameTwice => "an earlier line has this name",
            Reason::ParentNotThere => "a parent is not there",
            Reason::LaterParent => "a parent stands in a later line",
            Reason::OwnParent => "somebody is their own parent",
            Reason::SameParents => "the mother is the father",
            Reason::SpouseNotThere => "the spouse is not there",
            Reason::OwnSpouse => "somebody is their own spouse",
            Reason::SecondSpouse => "the spouse has another spouse",
        }
    }
}

impl fmt::Display for Reason {
    ghost output = { λ r. Some (reason_words r) };

    fn fmt<W: fmt::Write>(&self, f: &mut fmt::Formatter<W>) -> fmt::Result {
        write!(f, "{}", self.words())
    }
}

impl From<Unreadable> for Reason {
    ghost from_gives = { λ _ r. r ≡ unreadable };

    fn from(_: Unreadable) -> Reason {
        Reason::Unreadable
    }
}

// A line that is refused, by its number from 0.
#[derive(Clone, Copy, PartialEq, Eq, Debug)]
pub struct Fault {
    pub line: usize,
    pub reason: Reason,
}

// The line by its number, and why it is refused.
impl fmt::Display for Fault {
    ghost output = { λ e. Some (fault_words e) };

    fn fmt<W: fmt::Write>(&self, f: &mut fmt::Formatter<W>) -> fmt::Result {
        let Fault { line, reason } = *self;
        write!(f, "refused 1 at {line}: {reason}")
    }
}

// Why no family is read.
#[derive(Clone, Copy, PartialEq, Eq, Debug)]
pub enum Failure {
    Line(Fault),
    NoMemory,
}

impl fmt::Display for Failure {
    ghost output = { λ e. Some (failure_words e) };

    fn fmt<W: fmt::Write>(&self, f: &mut fmt::Formatter<W>) -> fmt::Result {
        match self {
            Failure::Line(fault) => write!(f, "{fault}"),
            Failure::NoMemory => write!(f, "not enough memory"),
        }
    }
}

impl Error for Failure {}

impl From<Fault> for Failure {
    ghost from_gives = { λ e r. r ≡ Line e };

    fn from(fault: Fault) -> Failure {
        Failure::Line(fault)
    }
}

impl From<AllocError> for Failure {
    ghost from_gives = { λ _ r. r ≡ NoMemory };

    fn from(_: AllocError) -> Failure {
        Failure::NoMemory
    }
}

impl<T: Drop> From<AllocFailed<T>> for Failure {
    ghost from_gives = { λ _ r. r ≡ NoMemory };

    fn from(_: AllocFailed<T>) -> Failure {
        Failure::NoMemory
    }
}

// A person and their name.
#[derive(Clone, Copy)]
pub struct Member<'a> {
    pub name: &'a str,
    pub person: Person,
}

// A family, by number.
#[derive(Drop)]
pub struct Family<'a> {
    pub members: Vec<Member<'a>>,
}

const MOST_PERSONS: usize = 64;

// What a line gave; where it is refused, its number beside the reason.
fn with_line<T>(line: usize, given: Result<T, Reason>) -> Result<T, Fault>
    ensures value { result ≡ law_with_line line given }
{
    given.map_err(|reason| Fault { line, reason })
}

// The number of whoever has this name.
fn place_of(entries: &[Entry], name: &str) -> Option<usize>
    ensures value { result ≡ law_place_of name.now (names_of (said_in entries.now)) }
    ensures within { IfSome result (λ p. p < length entries.now) }
{
    entries.iter().position(|entry| entry.name == name)
}

// What a line says, given with its end, behind those that were read.
fn read_entry<'a>(entries: &[Entry<'a>], line: &'a [u8]) -> Result<Entry<'a>, Reason>
    requires few { length entries.now < 64 }
    ensures value { (bs behind : List ℕ) → FirstLine bs line.now behind → next_said behind result ≡ law_next_line (said_in entries.now) bs }
{
    let line = line.strip_suffix(b"\n").ok_or(Reason::NoNewline)?;
    let entry = lines::read_line(line)?;
    if place_of(entries, entry.name).is_some() {
        return Err(Reason::NameTwice);
    }
    Ok(entry)
}

// All lines of a text. What stands behind the 64th is refused without being read.
fn read_entries<'a>(heap: Global, input: &'a [u8]) -> Result<Vec<Entry<'a>>, Failure>
    ensures value { Told (λ v. said_in v.items) result (lines_in 65 input.now []) }
    ensures few { IfOk result (λ v. length v.items ≤ 64) }
{
    let mut entries = Vec::new(heap);
    let mut read = 0;
    let lines = input.split_inclusive(|byte| *byte == b'\n');
    for line in lines.take(MOST_PERSONS) {
        let number = entries.len();
        let entry = with_line(number, read_entry(entries.as_slice(), line))?;
        entries.push(entry)?;
        read += line.len();
    }
    if read < input.len() {
        return Err(Failure::Line(Fault {
            line: MOST_PERSONS,
            reason: Reason::TooMany,
        }));
    }
    Ok(entries)
}

// A line, by its number, among all lines of a text.
#[derive(Clone, Copy)]
struct LineAt<'e, 'a> {
    entries: &'e [Entry<'a>],
    number: usize,
    ghost few: { length entries.now ≤ 64 },
}

impl LineAt<'_, '_> {
    // A parent's number and one more, or 0 where none is named.
    fn parent(self, name: Option<&str>) -> Result<u32, Reason>
        ensures value { result ≡ parent_in (names_of (said_in self.entry.entries.now)) self.entry.number (option_map (λ x. x.now) name.entry) }
    {
        let Some(name) = name else {
            return Ok(0);
        };
        let place = place_of(self.entries, name).ok_or(Reason::ParentNotThere)?;
        if place < self.number {
            Ok(place as u32 + 1)
        } else if place == self.number {
            Err(Reason::OwnParent)
        } else {
            Err(Reason::LaterParent)
        }
    }

    // A spouse's number and one more, or 0 where none is named.
    fn spouse(self, name: Option<&str>) -> Result<u32, Reason>
        ensures value { result ≡ law_spouse_of (names_of (said_in self.entry.entries.now)) self.entry.number (option_map (λ x. x.now) name.entry) }
    {
        let Some(name) = name else {
            return Ok(0);
        };
        let place = place_of(self.entries, name).ok_or(Reason::SpouseNotThere)?;
        if place == self.number {
            Err(Reason::OwnSpouse)
        } else {
            Ok(place as u32 + 1)
        }
    }

    // The person of the line, with the spouse that it names.
    fn person(self, entry: Entry) -> Result<Person, Reason>
        ensures value { person_said result ≡ law_person_of (names_of (said_in self.entry.entries.now)) self.entry.number (said_by entry.entry) }
    {
        let mother = self.parent(entry.mother)?;
        let father = self.parent(entry.father)?;
        if mother != 0 && mother == father {
            return Err(Reason::SameParents);
        }
        let spouse = self.spouse(entry.spouse)?;
        Ok(Person {
            mother,
            father,
            lives: !entry.died,
            spouse,
        })
    }
}

// The persons of all lines, with their names.
fn read_members<'a>(heap: Global, entries: &[Entry<'a>]) -> Result<Vec<Member<'a>>, Failure>
    requires few { length entries.now ≤ 64 }
    ensures value { Told (λ v. persons_of v.items) result (persons_in (names_of (said_in entries.now)) (said_in entries.now) []) }
    ensures names { IfOk result (λ v. names_in v.items ≡ names_of (said_in entries.now)) }
    ensures few { IfOk result (λ v. length v.items ≤ 64) }
{
    let mut members = Vec::new(heap);
    for (number, entry) in entries.iter().enumerate() {
        let line = LineAt { entries, number };
        let person = with_line(number, line.person(*entry))?;
        members.push(Member {
            name: entry.name,
            person,
        })?;
    }
    Ok(members)
}

// Has whoever somebody names as a spouse answer by naming them, unless they name another.
fn answer(members: &mut [Member], index: usize) -> Result<(), Reason>
    requires there { index < length members.old }
    requires few { length members.old ≤ 64 }
    ensures left { answer_said result (persons_of members.new) ≡ answered (persons_of members.old) index }
    ensures names { names_in members.new ≡ names_in members.old }
{
    let Some(place) = members[index].person.spouse.checked_sub(1) else {
        return Ok(());
    };
    let place = place as usize;
    if place >= members.len() {
        return Ok(());
    }
    let me = index as u32 + 1;
    let theirs = members[place].person.spouse;
    if theirs == 0 {
        members[place].person.spouse = me;
        return Ok(());
    }
    if theirs == me {
        Ok(())
    } else {
        Err(Reason::SecondSpouse)
    }
}

// Has all who are named as spouses answer. The loop is over places, since each answer may be written at another place.
fn agree(members: &mut [Member]) -> Result<(), Fault>
    requires few { length members.old ≤ 64 }
    ensures left { agree_said result (persons_of members.new) ≡ agreed (length members.old) 0 (persons_of members.old) }
    ensures names { names_in members.new ≡ names_in members.old }
{
    for line in 0..members.len() {
        with_line(line, answer(members, line))?;
    }
    Ok(())
}

// The family that lines are, or the line that is refused.
fn family_of<'a>(heap: Global, entries: &[Entry<'a>]) -> Result<Family<'a>, Failure>
    requires few { length entries.now ≤ 64 }
    ensures value { Told household result (law_persons_of (said_in entries.now)) }
{
    let mut members = read_members(heap, entries)?;
    agree(members.as_mut_slice())?;
    Ok(Family { members })
}

// The family that a text is, or the line that is refused. Only want of memory is another error. A family that is read is valid, and is what its calls build.
pub fn read<'a>(heap: Global, input: &'a [u8]) -> Result<Family<'a>, Failure>
    ensures value { Told household result (read_family input.now) }
    ensures valid { IfOk result (λ f. Valid (household f)) }
    ensures built { IfOk result (λ f. BuiltByCalls (household f).family) }
{
    let entries = read_entries(heap, input)?;
    family_of(heap, entries.as_slice())
}

// The name of whoever is written as 0 or one more than their number.
fn name_at<'a>(members: &[Member<'a>], number: u32) -> Option<&'a str>
    ensures value { option_map (λ x. x.now) result ≡ law_name_at (names_in members.now) number }
{
    let place = number.checked_sub(1)?;
    let member = members.get(place as usize)?;
    Some(member.name)
}

// What is printed of a person.
fn entry_for<'a>(members: &[Member<'a>], member: Member<'a>) -> Entry<'a>
    ensures value { said_by result ≡ line_for (names_in members.now) member.entry.name.now (law_person member.entry.person) }
{
    let Member { name, person } = member;
    Entry {
        name,
        mother: name_at(members, person.mother),
        father: name_at(members, person.father),
        died: !person.lives,
        spouse: name_at(members, person.spouse),
    }
}

// Appends the lines of all persons.
fn put_family(text: &mut String, members: &[Member]) -> Result<(), AllocError>
    ensures lines { OnOk result (string_bytes text.new ≡ string_bytes text.old ++ text_lines (lines_for (names_in members.now) (names_in members.now) (persons_of members.now))) }
{
    for member in members {
        lines::put_line(text, entry_for(members, *member))?;
    }
    Ok(())
}

// The text of a family. Only want of memory is an error. If the family is valid, its text is read as this family.
pub fn print(heap: Global, family: &Family) -> Result<String, AllocError>
    ensures lines { IfOk result (λ s. string_bytes s ≡ family_text (household family.now)) }
    ensures back { Valid (household family.now) → IfOk result (λ s. read_family (string_bytes s) ≡ Ok (household family.now)) }
{
    let mut text = String::new(heap);
    put_family(&mut text, family.members.as_slice())?;
    Ok(text)
}

// Every valid family is what its calls build: births, then weddings, then deaths, none of them refused.
pub fn families_are_built()
    ensures holds { Built }
{}

// The line with a number, from 0, without its end; nothing past the last.
pub fn line_at(input: &[u8], number: usize) -> &[u8]
    ensures value { result.now ≡ law_line_at number input.now }
{
    input
        .split(|byte| *byte == b'\n')
        .nth(number)
        .unwrap_or(&[])
}

// Reading what was printed of a valid family gives the same family and names; only valid families are read; and what is printed is one form.
pub fn families_read_back()
    ensures back { ReadsBack }
    ensures valid { ReadAreValid }
    ensures again { PrintedAgain }
{}
