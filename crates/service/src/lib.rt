// What each call does with the words of a register and the bytes of an answer: it is taken by the rules, or turned away with nothing changed.
#![tactic(auto)]

ghost use Rattle.std.specs.Prelude.{◌≡◌, ℕ, ◌+◌, ◌*◌, ◌<◌, ◌≤◌, true, false, List, length, MatchOption, nat_lt};
ghost use Rattle.law.specs.Family.{Family, person};
ghost use Rattle.law.specs.Calls.{born, wed as law_wed, parted, dies, estate_of, dead, with_spouse};
ghost use Rattle.law.specs.Promise.{all_calls};
ghost use Rattle.wire.specs.Bytes.{call_of, read};
ghost use Rattle.people.specs.Layout.{Sound, Roomy, Valid, image, limit_in, count_in};
ghost use Rattle.people.specs.Persons.{law_person};
ghost use Rattle.succession.specs.Settling.{DeadThere, EstateSettled};
ghost use Rattle.service.specs.Desks.{bytes_asked};
ghost use Rattle.service.specs.Marriages.{may_wed};
ghost use Rattle.service.specs.Refusals.{outcome, refusal_number, refusal_place};
ghost use Rattle.service.specs.Service.{Served, Replied, Put, Opened};

pub mod method;
pub mod refusal;
pub mod stage;

use method::Method;
use people::Person;
use refusal::Refusal;
use stage::Stage;
use wire::Request;

// How many bytes a register asks for: for each person and more, and at least.
const BYTES_EACH: usize = 20;

const BYTES_MORE: usize = 8;

const BYTES_LEAST: usize = 49160;

impl Refusal {
    // The number by which a refusal is told.
    pub fn number(self) -> u32
        ensures { result ≡ refusal_number self }
    {
        match self {
            Refusal::Unreadable(_) => 1,
            Refusal::NotTaken => 2,
            Refusal::TooManyPersons | Refusal::TooSmall => 3,
            Refusal::NotThere => 4,
            Refusal::NotAllowed => 5,
            Refusal::BeyondLimit => 6,
        }
    }

    // The place that is told with it.
    pub fn place(self) -> u32
        ensures { result ≡ refusal_place self }
    {
        match self {
            Refusal::Unreadable(place) => place,
            Refusal::TooSmall => 1,
            _ => 0,
        }
    }
}

// The number of the next person, if the limit allows one more.
fn below(count: u32, limit: u32) -> Option<u32>
    ensures cases { MatchOption result (nat_lt count limit ≡ false) (λ k. (nat_lt count limit ≡ true) × (k ≡ count)) }
{
    (count < limit).then_some(count)
}

// Somebody, if they live.
fn if_living(someone: Person) -> Option<Person>
    ensures cases { MatchOption result (someone.lives ≡ false) (λ q. (someone.lives ≡ true) × (q ≡ someone)) }
{
    someone.lives.then_some(someone)
}

// Somebody, dead.
fn buried(someone: Person) -> Person
    ensures value { law_person result ≡ dead (law_person someone) }
{
    Person {
        lives: false,
        ..someone
    }
}

// Somebody with another spouse, who is given as 0 or one more than a number.
fn married(someone: Person, spouse: u32) -> Person
    ensures value { law_person result ≡ with_spouse (law_person someone) spouse }
{
    Person { spouse, ..someone }
}

// Two who wed, as they are then.
#[derive(Clone, Copy)]
struct Couple {
    one: Person,
    other: Person,
}

// Two persons as each other's spouse, given their numbers, if they may wed.
fn wedded(one: u32, first: Person, other: u32, second: Person) -> Option<Couple>
    requires one { one < 4294967295 }
    requires other { other < 4294967295 }
    ensures cases { MatchOption result (may_wed one (law_person first) other (law_person second) ≡ false)
        (λ c. (may_wed one (law_person first) other (law_person second) ≡ true) × (law_person c.one ≡ with_spouse (law_person first) (other + 1)) × (law_person c.other ≡ with_spouse (law_person second) (one + 1))) }
{
    if one == other || !first.lives || !second.lives {
        return None;
    }
    if first.spouse != 0 || second.spouse != 0 {
        return None;
    }
    Some(Couple {
        one: married(first, other + 1),
        other: married(second, one + 1),
    })
}

// A birth: the new person's number.
fn bear(memory: &mut [u32], mother: u32, father: u32) -> Result<u32, Refusal>
    requires room { Roomy memory.old }
    ensures served { Sound memory.old → Served all_calls memory.old memory.new (born mother father) (outcome result) }
{
    let Some(child) = people::newborn(memory[1], mother, father) else {
        return Err(Refusal::NotThere);
    };
    let Some(number) = below(memory[1], memory[0]) else {
        return Err(Refusal::BeyondLimit);
    };
    people::add(memory, child);
    living::begins(memory, number);
    Ok(number)
}

// A wedding: the first of the two.
fn wed(memory: &mut [u32], one: u32, other: u32) -> Result<u32, Refusal>
    requires room { Roomy memory.old }
    ensures served { Sound memory.old → Served all_calls memory.old memory.new (law_wed one other) (outcome result) }
{
    let Some(first) = people::find(memory, one) else {
        return Err(Refusal::NotThere);
    };
    let Some(second) = people::find(memory, other) else {
        return Err(Refusal::NotThere);
    };
    let Some(couple) = wedded(one, first, other, second) else {
        return Err(Refusal::NotAllowed);
    };
    people::put(memory, one, couple.one);
    people::put(memory, other, couple.other);
    Ok(one)
}

// A parting, of the living or the dead: the former spouse.
fn part(memory: &mut [u32], who: u32) -> Result<u32, Refusal>
    requires room { Roomy memory.old }
    ensures served { Sound memory.old → Served all_calls memory.old memory.new (parted who) (outcome result) }
{
    let Some(someone) = people::find(memory, who) else {
        return Err(Refusal::NotThere);
    };
    let Some(spouse) = people::somebody(memory[0], someone.spouse) else {
        return Err(Refusal::NotAllowed);
    };
    let other = people::read(memory, spouse);
    people::put(memory, who, married(someone, 0));
    people::put(memory, spouse, married(other, 0));
    Ok(spouse)
}

// A death: who died.
fn bury(memory: &mut [u32], who: u32) -> Result<u32, Refusal>
    requires room { Roomy memory.old }
    ensures served { Sound memory.old → Served all_calls memory.old memory.new (dies who) (outcome result) }
{
    let Some(someone) = people::find(memory, who) else {
        return Err(Refusal::NotThere);
    };
    let Some(living) = if_living(someone) else {
        return Err(Refusal::NotAllowed);
    };
    people::put(memory, who, buried(living));
    living::ends(memory, who);
    Ok(who)
}

// The shares of the estate of somebody who lives, as if they had died now, written as the answer: how many there are; none where the estate is beyond the limits.
// They are marked dead for it and then living again.
fn settle_living<M: Method>(
    memory: &mut [u32],
    answer: &mut [u8],
    who: u32,
    someone: Person,
) -> Option<u32>
    requires room { Roomy memory.old }
    requires there { who < limit_in memory.old }
    requires bytes { 8 + 20 * limit_in memory.old ≤ length answer.old }
    ensures settled { (n : ℕ) (f : Family) (rest : List ℕ) → memory.old ≡ image n f rest → Valid f → length f ≤ n → who < length f → law_person someone ≡ person f who → someone.lives ≡ true
        → EstateSettled n f rest who memory.new answer.old answer.new result }
{
    people::put(memory, who, buried(someone));
    living::ends(memory, who);
    let count = M::settle(memory, answer, who);
    people::put(memory, who, someone);
    living::begins(memory, who);
    count
}

// The shares of the estate of somebody, living or dead: how many there are; none where the estate is beyond the limits.
fn settle_any<M: Method>(
    memory: &mut [u32],
    answer: &mut [u8],
    who: u32,
    someone: Person,
) -> Option<u32>
    requires room { Roomy memory.old }
    requires there { who < limit_in memory.old }
    requires bytes { 8 + 20 * limit_in memory.old ≤ length answer.old }
    ensures settled { (n : ℕ) (f : Family) (rest : List ℕ) → memory.old ≡ image n f rest → Valid f → length f ≤ n → who < length f → law_person someone ≡ person f who
        → EstateSettled n f rest who memory.new answer.old answer.new result }
{
    if someone.lives {
        settle_living::<M>(memory, answer, who, someone)
    } else {
        M::settle(memory, answer, who)
    }
}

// An estate: how many bytes its shares have, as the answer.
fn settle<M: Method>(memory: &mut [u32], answer: &mut [u8], who: u32) -> Result<usize, Refusal>
    requires room { Roomy memory.old }
    requires bytes { bytes_asked (limit_in memory.old) ≤ length answer.old }
    ensures replied { Sound memory.old → Replied all_calls memory.old memory.new (estate_of who) answer.old answer.new result }
{
    let Some(someone) = people::find(memory, who) else {
        return Err(Refusal::NotThere);
    };
    let Some(heirs) = settle_any::<M>(memory, answer, who, someone) else {
        return Err(Refusal::BeyondLimit);
    };
    Ok(5 + 20 * heirs as usize)
}

// Writes the number that a call is answered by: how many bytes that is.
fn put_number(answer: &mut [u8], reply: Result<u32, Refusal>) -> Result<usize, Refusal>
    requires bytes { 5 ≤ length answer.old }
    ensures put { Put reply answer.old answer.new result }
{
    let number = reply?;
    wire::put_number(answer, number);
    Ok(5)
}

// Any call, by the rules: how many bytes the answer has.
fn take<M: Method>(
    memory: &mut [u32],
    answer: &mut [u8],
    request: Request,
) -> Result<usize, Refusal>
    requires room { Roomy memory.old }
    requires bytes { bytes_asked (limit_in memory.old) ≤ length answer.old }
    ensures replied { Sound memory.old → Replied all_calls memory.old memory.new (call_of request) answer.old answer.new result }
{
    match request {
        Request::Born(mother, father) => put_number(answer, bear(memory, mother, father)),
        Request::Wed(one, other) => put_number(answer, wed(memory, one, other)),
        Request::Parted(who) => put_number(answer, part(memory, who)),
        Request::Dies(who) => put_number(answer, bury(memory, who)),
        Request::EstateOf(who) => settle::<M>(memory, answer, who),
    }
}

// Any call that could be read, if the stage takes it: how many bytes the answer has.
fn serve<S: Stage, M: Method>(
    memory: &mut [u32],
    answer: &mut [u8],
    request: Request,
) -> Result<usize, Refusal>
    requires room { Roomy memory.old }
    requires bytes { bytes_asked (limit_in memory.old) ≤ length answer.old }
    ensures replied { Sound memory.old → Replied S.can memory.old memory.new (call_of request) answer.old answer.new result }
{
    if !S::takes(&request) {
        return Err(Refusal::NotTaken);
    }
    take::<M>(memory, answer, request)
}

// Any row of bytes, at a stage: how many bytes the answer has, which are written; of a call that is turned away nothing is. Estates are worked out by this method.
pub fn respond<S: Stage, M: Method>(
    memory: &mut [u32],
    answer: &mut [u8],
    row: &[u8],
) -> Result<usize, Refusal>
    requires room { Roomy memory.old }
    requires bytes { bytes_asked (limit_in memory.old) ≤ length answer.old }
    ensures replied { Sound memory.old → Replied S.can memory.old memory.new (read row.now) answer.old answer.new result }
{
    let request = wire::decode(row)?;
    serve::<S, M>(memory, answer, request)
}

// How many bytes a register for so many persons asks for.
pub fn bytes_asked(limit: u32) -> usize
    ensures value { result ≡ bytes_asked limit }
{
    (BYTES_MORE + BYTES_EACH * limit as usize).max(BYTES_LEAST)
}

// Opens words for a register whose answers go into so many bytes.
pub fn prepare(memory: &mut [u32], bytes: usize, limit: u32) -> Result<(), Refusal>
    ensures opened { Opened memory.old memory.new bytes limit result }
{
    if limit > people::MOST_PERSONS {
        return Err(Refusal::TooManyPersons);
    }
    let words = people::words_asked(limit);
    if memory.len() < words || bytes < bytes_asked(limit) {
        return Err(Refusal::TooSmall);
    }
    rows::clear(memory, 0, words);
    memory[0] = limit;
    Ok(())
}
