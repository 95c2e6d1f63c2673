// Who would inherit what, of a family in a text.
#![tactic(auto)]

ghost use Rattle.std.specs.Prelude.{◌≡◌, ◌<◌, ◌≤◌, [], ◌++◌, length, IfSome, Some, string_bytes, OnOk, slice_index_or};
ghost use Rattle.std.specs.List.{AllByRecursion};
ghost use Rattle.law.specs.Calls.{born, estate_of};
ghost use Rattle.law.specs.Promise.{left_by, all_calls};
ghost use Rattle.theory.specs.Answers.{answer_to};
ghost use Rattle.rows.specs.Written.{written};
ghost use Rattle.wire.specs.Bytes.{is_word, call_of, call_values, answer_bytes};
ghost use Rattle.service.specs.Desks.{desk, next, says};
ghost use Rattle.register.specs.Stores.{bytes_in};
ghost use Rattle.report.specs.Lines.{memory_of};
ghost use Rattle.text.specs.Households.{names_in, persons_of, household, Valid};
ghost use Rattle.text.specs.Reading.{place_of as law_place_of};
ghost use Rattle.text.specs.Building.{births, weddings, deaths, calls_of, family_limits};
ghost use Rattle.clerk.specs.Estates.{name_in, named_text, failure_of, failure_words, estate_in, estate_text, LinesSaid, AnsweredRightly};
ghost use Rattle.clerk.specs.declared.Failure.TheVariants.{NoMemory};

use register::session::Register;
use register::store::Store;
use report::{BYTES, Naming, PERSONS, WORDS};
use service::stage::AllCalls;
use std::alloc::{AllocError, Global};
use std::error::Error;
use std::fmt;
use text::{Family, Fault, Member};
use wire::Request;

// Why nothing is said of an estate.
#[derive(Clone, Copy, PartialEq, Eq, Debug)]
pub enum Failure {
    // a line of the text is refused
    Line(Fault),
    // nobody has the name
    NotThere,
    NoMemory,
}

impl fmt::Display for Failure {
    ghost output = { λ e. Some (failure_words e) };

    fn fmt<W: fmt::Write>(&self, f: &mut fmt::Formatter<W>) -> fmt::Result {
        match self {
            Failure::Line(fault) => write!(f, "{fault}"),
            Failure::NotThere => write!(f, "nobody has this name"),
            Failure::NoMemory => write!(f, "not enough memory"),
        }
    }
}

impl Error for Failure {}

impl From<text::Failure> for Failure {
    ghost from_gives = { λ e r. r ≡ failure_of e };

    fn from(failure: text::Failure) -> Failure {
        match failure {
            text::Failure::Line(fault) => Failure::Line(fault),
            text::Failure::NoMemory => Failure::NoMemory,
        }
    }
}

impl From<AllocError> for Failure {
    ghost from_gives = { λ _ r. r ≡ NoMemory };

    fn from(_: AllocError) -> Failure {
        Failure::NoMemory
    }
}

// Makes a call on a register, and says how many bytes the answer has.
fn make(register: &mut Register<AllCalls>, request: Request) -> usize
    requires fits { AllByRecursion is_word (call_values (call_of request)) }
    ensures left { memory_of register.new ≡ next all_calls (memory_of register.old) (call_of request) }
    ensures said { bytes_in register.new.store.now ≡ written 0 (answer_bytes (says all_calls (memory_of register.old) (call_of request))) (bytes_in register.old.store.now) }
    ensures long { result ≡ length (answer_bytes (says all_calls (memory_of register.old) (call_of request))) }
    ensures words { register.new.store.now.memory.ghost_name ≡ register.old.store.now.memory.ghost_name }
    ensures bytes { register.new.store.now.answer.ghost_name ≡ register.old.store.now.answer.ghost_name }
{
    let mut row = [0; 9];
    match wire::put_call(request, &mut row) {
        Some(size) => register.call(&row[0..size]),
        None => unreachable!(),
    }
}

// Has somebody be born.
fn bear(register: &mut Register<AllCalls>, mother: u32, father: u32)
    ensures left { memory_of register.new ≡ next all_calls (memory_of register.old) (born mother father) }
    ensures words { register.new.store.now.memory.ghost_name ≡ register.old.store.now.memory.ghost_name }
    ensures bytes { register.new.store.now.answer.ghost_name ≡ register.old.store.now.answer.ghost_name }
{
    let _ = make(register, Request::Born(mother, father));
}

// Has everybody be born.
fn make_births(register: &mut Register<AllCalls>, members: &[Member])
    ensures left { memory_of register.new ≡ left_by (desk all_calls []) (memory_of register.old) (births (persons_of members.now)) }
    ensures words { register.new.store.now.memory.ghost_name ≡ register.old.store.now.memory.ghost_name }
    ensures bytes { register.new.store.now.answer.ghost_name ≡ register.old.store.now.answer.ghost_name }
{
    for member in members {
        bear(register, member.person.mother, member.person.father);
    }
}

// Has spouses wed.
fn make_weddings(register: &mut Register<AllCalls>, members: &[Member])
    requires few { length members.now ≤ 64 }
    ensures left { memory_of register.new ≡ left_by (desk all_calls []) (memory_of register.old) (weddings 0 (persons_of members.now)) }
    ensures words { register.new.store.now.memory.ghost_name ≡ register.old.store.now.memory.ghost_name }
    ensures bytes { register.new.store.now.answer.ghost_name ≡ register.old.store.now.answer.ghost_name }
{
    for (place, member) in members.iter().enumerate() {
        let spouse = member.person.spouse;
        if place + 1 < spouse as usize {
            let _ = make(register, Request::Wed(place as u32, spouse - 1));
        }
    }
}

// Has the dead die.
fn make_deaths(register: &mut Register<AllCalls>, members: &[Member])
    requires few { length members.now ≤ 64 }
    ensures left { memory_of register.new ≡ left_by (desk all_calls []) (memory_of register.old) (deaths 0 (persons_of members.now)) }
    ensures words { register.new.store.now.memory.ghost_name ≡ register.old.store.now.memory.ghost_name }
    ensures bytes { register.new.store.now.answer.ghost_name ≡ register.old.store.now.answer.ghost_name }
{
    for (place, member) in members.iter().enumerate() {
        if !member.person.lives {
            let _ = make(register, Request::Dies(place as u32));
        }
    }
}

// Has a family come about: births, weddings and deaths.
fn make_family(register: &mut Register<AllCalls>, members: &[Member])
    requires few { length members.now ≤ 64 }
    ensures left { memory_of register.new ≡ left_by (desk all_calls []) (memory_of register.old) (calls_of (persons_of members.now)) }
    ensures words { register.new.store.now.memory.ghost_name ≡ register.old.store.now.memory.ghost_name }
    ensures bytes { register.new.store.now.answer.ghost_name ≡ register.old.store.now.answer.ghost_name }
{
    make_births(register, members);
    make_weddings(register, members);
    make_deaths(register, members);
}

// The name of a person.
fn name_of<'a>(members: &[Member<'a>], who: u32) -> &'a str
    ensures value { result.now ≡ name_in (names_in members.now) who }
{
    members.get(who as usize).map_or("", |member| member.name)
}

// Heirs by their names in a family.
#[derive(Clone, Copy)]
struct Names<'m, 'a> {
    members: &'m [Member<'a>],
}

impl Naming for Names<'_, '_> {
    ghost named = { λ n who. name_in (names_in n.members.now) who };

    fn put_name(&self, text: &mut String, who: u32) -> Result<(), AllocError> {
        let name = name_of(self.members, who);
        text.push_str(name)
    }
}

// Asks for the estate of somebody, and appends its lines.
fn ask(
    text: &mut String,
    register: &mut Register<AllCalls>,
    members: &[Member],
    who: u32,
) -> Result<(), AllocError>
    ensures lines { OnOk result (string_bytes text.new ≡ string_bytes text.old ++ named_text (names_in members.now) (says all_calls (memory_of register.old) (estate_of who))) }
{
    let size = make(register, Request::EstateOf(who));
    let bytes = register.bytes();
    report::put_named(text, &Names { members }, &bytes[0..size])
}

// Appends the lines of the estate of somebody, by a register in which the family comes about and which is opened in what is lent.
fn put_estate_of(
    text: &mut String,
    words: &mut [u32],
    bytes: &mut [u8],
    family: &Family,
    who: u32,
) -> Result<(), AllocError>
    requires words { length words.old ≡ 25600 }
    requires bytes { length bytes.old ≡ 49160 }
    requires valid { Valid (household family.now) }
    ensures lines { OnOk result (string_bytes text.new ≡ string_bytes text.old ++ named_text (household family.now).names (answer_to family_limits (household family.now).family (estate_of who))) }
{
    let mut store = Store::new(words, bytes);
    match Register::<AllCalls>::open(&mut store, PERSONS) {
        Ok(mut register) => {
            let members = family.members.as_slice();
            make_family(&mut register, members);
            ask(text, &mut register, members, who)
        }
        Err(_) => unreachable!(),
    }
}

// The number of whoever has this name.
pub fn find(members: &[Member], name: &str) -> Option<usize>
    ensures value { result ≡ law_place_of name.now (names_in members.now) }
    ensures within { IfSome result (λ p. p < length members.now) }
{
    members.iter().position(|member| member.name == name)
}

// The lines of the estate of somebody in a family, by their name.
fn estate_of(heap: Global, family: &Family, name: &str) -> Result<String, Failure>
    requires valid { Valid (household family.now) }
    ensures lines { LinesSaid result (estate_in (household family.now) (law_place_of name.now (household family.now).names)) }
{
    let who = find(family.members.as_slice(), name).ok_or(Failure::NotThere)?;
    let mut words = vec![in heap; 0u32; WORDS]?;
    let mut bytes = vec![in heap; 0u8; BYTES]?;
    let mut text = String::new(heap);
    put_estate_of(
        &mut text,
        words.as_mut_slice(),
        bytes.as_mut_slice(),
        family,
        who as u32,
    )?;
    Ok(text)
}

// The lines of the estate of somebody, by their name, of the family that a text is; or why there are none. Only want of memory is another error.
pub fn estate(heap: Global, input: &[u8], name: &str) -> Result<String, Failure>
    ensures lines { LinesSaid result (estate_text input.now name.now) }
    ensures right { AnsweredRightly input.now name.now }
{
    let family = text::read(heap, input)?;
    estate_of(heap, &family, name)
}
