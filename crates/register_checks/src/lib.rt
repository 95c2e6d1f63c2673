// Checks of a register at any stage, by calls and answers, by their bytes, and by the words of its memory: each says whether all was as expected.
#![tactic(auto)]

use register::session::Register;
use register::store::Store;
use service::refusal::Refusal;
use service::stage::Stage;
use std::alloc::{AllocError, Global};
use wire::{Reading, Request};

// What is lent to a register for 64 persons.
pub const WORDS: usize = 25600;

pub const BYTES: usize = 49160;

// What is lent to a register for 4,096 persons.
pub const MOST_WORDS: usize = 90112;

pub const MOST_BYTES: usize = 81928;

// A call and its answer.
pub type Step = (Request, Reading);

// The bytes of the answer to a row of bytes.
fn answer_to<'r, S: Stage>(register: &'r mut Register<S>, row: &[u8]) -> Option<&'r [u8]> {
    let size = register.call(row);
    register.bytes().get(0..size)
}

// The bytes of the answer to a call.
pub fn ask<'r, S: Stage>(register: &'r mut Register<S>, request: Request) -> Option<&'r [u8]> {
    let mut row = [0; 9];
    let size = wire::put_call(request, &mut row)?;
    answer_to(register, row.get(0..size)?)
}

// Whether a call is answered so.
pub fn is_answered<S: Stage>(register: &mut Register<S>, step: Step) -> bool {
    let (request, answer) = step;
    ask(register, request).and_then(wire::read_answer) == Some(answer)
}

// Whether calls are answered so, one after the other.
pub fn are_answered<S: Stage>(register: &mut Register<S>, steps: &[Step]) -> bool {
    steps.iter().all(|step| is_answered(register, *step))
}

// Whether a new register in these words and bytes answers calls so.
fn answers_in<S: Stage>(words: &mut [u32], bytes: &mut [u8], limit: u32, steps: &[Step]) -> bool {
    let mut store = Store::new(words, bytes);
    let Ok(mut register) = Register::<S>::open(&mut store, limit) else {
        return false;
    };
    are_answered(&mut register, steps)
}

// The same in memory for 64 persons.
pub fn answers<S: Stage>(heap: Global, limit: u32, steps: &[Step]) -> Result<bool, AllocError> {
    let mut words = vec![in heap; 7u32; WORDS]?;
    let mut bytes = vec![in heap; 7u8; BYTES]?;
    Ok(answers_in::<S>(&mut words, &mut bytes, limit, steps))
}

// Whether somebody is born, whose mother is 0 or one more than a number.
pub fn is_born<S: Stage>(register: &mut Register<S>, mother: u32, who: u32) -> bool {
    is_answered(register, (Request::Born(mother, 0), Reading::Number(who)))
}

// Whether somebody dies.
pub fn dies<S: Stage>(register: &mut Register<S>, who: u32) -> bool {
    is_answered(register, (Request::Dies(who), Reading::Number(who)))
}

pub fn births<S: Stage>(heap: Global) -> Result<bool, AllocError> {
    let steps = [
        (Request::Born(0, 0), Reading::Number(0)),
        (Request::Born(1, 0), Reading::Number(1)),
        (Request::Born(0, 1), Reading::Number(2)),
        (Request::Born(3, 2), Reading::Number(3)),
        (Request::Dies(3), Reading::Number(3)),
        (Request::Born(2, 4), Reading::Number(4)),
    ];
    answers::<S>(heap, 64, &steps)
}

pub fn persons_who_are_not_there<S: Stage>(heap: Global) -> Result<bool, AllocError> {
    let steps = [
        (Request::Born(1, 0), Reading::Refused(4, 0)),
        (Request::Born(0, 1), Reading::Refused(4, 0)),
        (Request::Dies(0), Reading::Refused(4, 0)),
        (Request::Born(0, 0), Reading::Number(0)),
        (Request::Born(2, 0), Reading::Refused(4, 0)),
        (Request::Born(1, 2), Reading::Refused(4, 0)),
        (Request::Born(1, 1), Reading::Refused(4, 0)),
        (Request::Born(4294967295, 0), Reading::Refused(4, 0)),
        (Request::Born(1, 4294967295), Reading::Refused(4, 0)),
        (
            Request::Born(4294967295, 4294967295),
            Reading::Refused(4, 0),
        ),
        (Request::Born(257, 0), Reading::Refused(4, 0)),
        (Request::Dies(1), Reading::Refused(4, 0)),
        (Request::Dies(256), Reading::Refused(4, 0)),
        (Request::Dies(4294967295), Reading::Refused(4, 0)),
        (Request::Born(1, 0), Reading::Number(1)),
    ];
    answers::<S>(heap, 64, &steps)
}

pub fn dying_twice<S: Stage>(heap: Global) -> Result<bool, AllocError> {
    let steps = [
        (Request::Born(0, 0), Reading::Number(0)),
        (Request::Born(1, 0), Reading::Number(1)),
        (Request::Dies(0), Reading::Number(0)),
        (Request::Dies(0), Reading::Refused(5, 0)),
        (Request::Dies(1), Reading::Number(1)),
        (Request::Dies(0), Reading::Refused(5, 0)),
    ];
    answers::<S>(heap, 64, &steps)
}

// In a full register a parent who is not there is still refused by 4.
pub fn births_beyond_the_limit<S: Stage>(heap: Global) -> Result<bool, AllocError> {
    let at_two = [
        (Request::Born(0, 0), Reading::Number(0)),
        (Request::Born(1, 0), Reading::Number(1)),
        (Request::Born(1, 2), Reading::Refused(6, 0)),
        (Request::Born(0, 3), Reading::Refused(4, 0)),
        (Request::Born(2, 2), Reading::Refused(4, 0)),
        (Request::Dies(1), Reading::Number(1)),
        (Request::Born(0, 0), Reading::Refused(6, 0)),
    ];
    let at_none = [
        (Request::Born(0, 0), Reading::Refused(6, 0)),
        (Request::Born(1, 0), Reading::Refused(4, 0)),
    ];
    Ok(answers::<S>(heap, 2, &at_two)? && answers::<S>(heap, 0, &at_none)?)
}

// Whether rows of these lengths that begin with this byte are refused by 1 at this place, or at their length where there is none.
fn are_unreadable<S: Stage>(
    register: &mut Register<S>,
    kind: u8,
    from: usize,
    to: usize,
    at: Option<u32>,
) -> bool {
    let mut row = [0; 40];
    row[0] = kind;
    (from..to.min(41)).all(|length| {
        answer_to(register, &row[0..length]).and_then(wire::read_answer)
            == Some(Reading::Refused(1, at.unwrap_or(length as u32)))
    })
}

// Whether rows of a kind are unreadable that are too short or too long for it.
fn refuses_lengths<S: Stage>(register: &mut Register<S>, kind: u8, size: u32) -> bool {
    are_unreadable(register, kind, 0, 1, Some(0))
        && are_unreadable(register, kind, 1, size as usize, None)
        && are_unreadable(register, kind, size as usize + 1, 41, Some(size))
}

fn refuses_rows<S: Stage>(register: &mut Register<S>) -> bool {
    let kinds = [(0, 9), (1, 9), (2, 5), (3, 5), (4, 5)];
    kinds
        .iter()
        .all(|(kind, size)| refuses_lengths(register, *kind, *size))
        && are_unreadable(register, 5, 0, 41, Some(0))
        && are_unreadable(register, 255, 0, 41, Some(0))
}

fn refuses_unreadable_rows<S: Stage>(words: &mut [u32], bytes: &mut [u8]) -> bool {
    let mut store = Store::new(words, bytes);
    let Ok(mut register) = Register::<S>::open(&mut store, 64) else {
        return false;
    };
    refuses_rows(&mut register)
}

// An empty row, rows of every kind that are too short or too long, and rows of two kinds that are unknown.
pub fn rows_that_are_no_calls<S: Stage>(heap: Global) -> Result<bool, AllocError> {
    let mut words = vec![in heap; 7u32; WORDS]?;
    let mut bytes = vec![in heap; 7u8; BYTES]?;
    Ok(refuses_unreadable_rows::<S>(&mut words, &mut bytes))
}

// Whether opening is refused, and by what.
fn opening<S: Stage>(words: &mut [u32], bytes: &mut [u8], limit: u32) -> Option<Refusal> {
    let mut store = Store::new(words, bytes);
    match Register::<S>::open(&mut store, limit) {
        Ok(_) => None,
        Err((refusal, _)) => Some(refusal),
    }
}

// Whether so many words and bytes are refused, by 3 and at this place, and stay as they were.
fn is_refused<S: Stage>(
    heap: Global,
    lent: (usize, usize),
    limit: u32,
    place: u32,
) -> Result<bool, AllocError> {
    let mut words = vec![in heap; 7u32; lent.0]?;
    let mut bytes = vec![in heap; 7u8; lent.1]?;
    let refused = opening::<S>(&mut words, &mut bytes, limit).is_some_and(|refusal| refusal.number()
        == 3
        && refusal.place() == place);
    Ok(refused && words.iter().all(|word| *word == 7) && bytes.iter().all(|byte| *byte == 7))
}

pub fn openings_that_are_refused<S: Stage>(heap: Global) -> Result<bool, AllocError> {
    Ok(
        is_refused::<S>(heap, (90128, 81948), 4097, 0)?
            && is_refused::<S>(heap, (0, 0), 4294967295, 0)?
            && is_refused::<S>(heap, (WORDS - 1, BYTES), 64, 1)?
            && is_refused::<S>(heap, (WORDS, BYTES - 1), 64, 1)?
            && is_refused::<S>(heap, (MOST_WORDS, MOST_BYTES - 1), 4096, 1)?,
    )
}

// Whether so many persons are born, each the child of the one before.
pub fn are_chain<S: Stage>(register: &mut Register<S>, persons: u32) -> bool {
    (0..persons).all(|who| is_born(register, who, who))
}

// Whether all from a person on to before another die, the first first.
pub fn die<S: Stage>(register: &mut Register<S>, from: u32, end: u32) -> bool {
    (from..end).all(|who| dies(register, who))
}

// Whether so many persons die, the last first.
fn die_last_first<S: Stage>(register: &mut Register<S>, persons: u32) -> bool {
    (0..persons).rev().all(|who| dies(register, who))
}

// Whether a chain of so many persons, each the mother of the next, all die, the last first or the first first, and a child of the last is born.
fn ends_chain<S: Stage>(
    words: &mut [u32],
    bytes: &mut [u8],
    persons: u32,
    last_first: bool,
) -> bool {
    let mut store = Store::new(words, bytes);
    let Ok(mut register) = Register::<S>::open(&mut store, persons.saturating_add(1)) else {
        return false;
    };
    are_chain(&mut register, persons)
        && if last_first {
            die_last_first(&mut register, persons)
        } else {
            die(&mut register, 0, persons)
        }
        && is_born(&mut register, persons, persons)
}

// Whether the words from a place on are these.
fn has_words(words: &[u32], at: usize, expected: &[u32]) -> bool {
    words
        .get(at..)
        .is_some_and(|rest| rest.starts_with(expected))
}

// The words of the bits of 64 persons and one more: all lines live again.
pub fn a_dead_chain_lives_again<S: Stage>(heap: Global) -> Result<bool, AllocError> {
    let mut words = vec![in heap; 7u32; WORDS + 16]?;
    let mut bytes = vec![in heap; 7u8; BYTES]?;
    Ok(
        ends_chain::<S>(&mut words, &mut bytes, 64, true)
            && has_words(&words, 522, &[4294967295, 4294967295, 1]),
    )
}

// Exactly what is asked for, and all lines of a chain of 4,095, which live again.
pub fn as_many_persons_as_there_may_be<S: Stage>(heap: Global) -> Result<bool, AllocError> {
    let mut words = vec![in heap; 7u32; MOST_WORDS]?;
    let mut bytes = vec![in heap; 7u8; MOST_BYTES]?;
    Ok(
        ends_chain::<S>(&mut words, &mut bytes, 4095, false)
            && has_words(&words, 32770, &[4294967295; 128]),
    )
}

// Whether person 0 and 60 children of 0 are born.
fn are_children<S: Stage>(register: &mut Register<S>) -> bool {
    (0..61u32).all(|who| is_born(register, who.min(1), who))
}

// Whether person 0 has 60 children, and so many persons die, the oldest first.
fn ends_children<S: Stage>(words: &mut [u32], bytes: &mut [u8], dead: u32) -> bool {
    let mut store = Store::new(words, bytes);
    let Ok(mut register) = Register::<S>::open(&mut store, 64) else {
        return false;
    };
    are_children(&mut register) && die(&mut register, 0, dead)
}

// The links of the parent and of the first and last children, and the bits: the parent's line lives as long as the last child.
pub fn a_parent_of_60<S: Stage>(heap: Global) -> Result<bool, AllocError> {
    let mut words = vec![in heap; 7u32; WORDS]?;
    let mut bytes = vec![in heap; 7u8; BYTES]?;
    let last_lives = ends_children::<S>(&mut words, &mut bytes, 60)
        && has_words(&words, 258, &[2, 61, 0, 0, 0, 0, 3, 0, 0, 0, 4, 0])
        && has_words(&words, 494, &[0, 0, 61, 0, 0, 0, 0, 0])
        && has_words(&words, 514, &[1, 268435456]);
    Ok(
        last_lives
            && ends_children::<S>(&mut words, &mut bytes, 61)
            && has_words(&words, 514, &[0, 0]),
    )
}

// Two siblings, 2 and 3, with a child each, 4 and 5, who have a child, 6, who outlives all others, or dies before 4.
pub fn a_child_of_cousins<S: Stage>(heap: Global) -> Result<bool, AllocError> {
    let mut words = vec![in heap; 7u32; WORDS]?;
    let mut bytes = vec![in heap; 7u8; BYTES]?;
    let mut steps = [
        (Request::Born(0, 0), Reading::Number(0)),
        (Request::Born(0, 0), Reading::Number(1)),
        (Request::Born(1, 2), Reading::Number(2)),
        (Request::Born(1, 2), Reading::Number(3)),
        (Request::Born(3, 0), Reading::Number(4)),
        (Request::Born(0, 4), Reading::Number(5)),
        (Request::Born(5, 6), Reading::Number(6)),
        (Request::Dies(5), Reading::Number(5)),
        (Request::Dies(0), Reading::Number(0)),
        (Request::Dies(3), Reading::Number(3)),
        (Request::Dies(2), Reading::Number(2)),
        (Request::Dies(1), Reading::Number(1)),
        (Request::Dies(4), Reading::Number(4)),
    ];
    let outlives = answers_in::<S>(&mut words, &mut bytes, 64, &steps)
        && has_words(
            &words,
            258,
            &[3, 4, 0, 0, 3, 4, 0, 0, 5, 5, 4, 4, 6, 6, 0, 0],
        )
        && has_words(&words, 274, &[7, 7, 0, 0, 7, 7, 0, 0, 0, 0, 0, 0])
        && has_words(&words, 514, &[127, 0]);
    steps[12] = (Request::Dies(6), Reading::Number(6));
    Ok(
        outlives
            && answers_in::<S>(&mut words, &mut bytes, 64, &steps)
            && has_words(&words, 514, &[23, 0]),
    )
}

// The words of a register for 3 persons, and those behind it.
pub fn the_words_of_memory<S: Stage>(heap: Global) -> Result<bool, AllocError> {
    let mut words = vec![in heap; 7u32; 24626]?;
    let mut bytes = vec![in heap; 7u8; BYTES]?;
    let steps = [
        (Request::Born(0, 0), Reading::Number(0)),
        (Request::Born(1, 0), Reading::Number(1)),
        (Request::Dies(0), Reading::Number(0)),
        (Request::Born(2, 1), Reading::Number(2)),
        (Request::Dies(2), Reading::Number(2)),
        (Request::Born(0, 0), Reading::Refused(6, 0)),
    ];
    Ok(
        answers_in::<S>(&mut words, &mut bytes, 3, &steps)
            && has_words(&words, 0, &[3, 3, 0, 0, 0, 0, 1, 0, 1, 0, 2, 1, 0, 0])
            && has_words(&words, 14, &[2, 3, 0, 0, 3, 3, 3, 0, 0, 0, 0, 0, 3, 0])
            && has_words(&words, 24623, &[0, 7, 7]),
    )
}

// Whether a row of bytes is answered by these bytes.
fn says<S: Stage>(register: &mut Register<S>, row: &[u8], answer: &[u8]) -> bool {
    answer_to(register, row) == Some(answer)
}

fn says_bytes<S: Stage>(words: &mut [u32], bytes: &mut [u8]) -> bool {
    let mut store = Store::new(words, bytes);
    let Ok(mut register) = Register::<S>::open(&mut store, 1) else {
        return false;
    };
    says(
        &mut register,
        &[3, 0, 0, 0, 0],
        &[0, 4, 0, 0, 0, 0, 0, 0, 0],
    ) && says(
        &mut register,
        &[0, 0, 0, 0, 0, 0, 0, 0, 0],
        &[1, 0, 0, 0, 0],
    ) && says(
        &mut register,
        &[0, 1, 0, 0, 0, 0, 0, 0, 0],
        &[0, 6, 0, 0, 0, 0, 0, 0, 0],
    ) && says(
        &mut register,
        &[0, 0, 0, 0, 0, 1, 1, 0, 0],
        &[0, 4, 0, 0, 0, 0, 0, 0, 0],
    ) && says(&mut register, &[3, 0, 0, 0], &[0, 1, 0, 0, 0, 4, 0, 0, 0])
        && says(&mut register, &[3, 0, 0, 0, 0], &[1, 0, 0, 0, 0])
}

// Calls and answers by their bytes: a birth, a death, and refusals.
pub fn the_bytes_of_calls<S: Stage>(heap: Global) -> Result<bool, AllocError> {
    let mut words = vec![in heap; 7u32; WORDS]?;
    let mut bytes = vec![in heap; 7u8; BYTES]?;
    Ok(says_bytes::<S>(&mut words, &mut bytes))
}
