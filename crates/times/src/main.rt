// Prints how long a birth and a death take in registers of some families. Without an argument it does nothing.
#![tactic(auto)]

use register::session::Register;
use register::store::Store;
use service::stage::BirthsAndDeaths;
use std::alloc::AllocError;
use std::time::Instant;
use std::{env, fmt, io};

// What is lent to a register for 4,096 persons.
const WORDS: usize = 90112;

const BYTES: usize = 81928;

// How many births are timed, for each line that is printed.
const TIMED: u32 = 262144;

#[derive(Clone, Copy)]
enum Family {
    // all are children of the first
    Wide,
    // each is the mother of the next
    Chain,
    // the mother has half the child's number, and the father a quarter
    Mixed,
}

impl fmt::Display for Family {
    fn fmt<W: fmt::Write>(&self, f: &mut fmt::Formatter<W>) -> fmt::Result {
        match self {
            Family::Wide => write!(f, "wide"),
            Family::Chain => write!(f, "chain"),
            Family::Mixed => write!(f, "mixed"),
        }
    }
}

// Who dies first.
#[derive(Clone, Copy)]
enum First {
    Oldest,
    Youngest,
}

impl fmt::Display for First {
    fn fmt<W: fmt::Write>(&self, f: &mut fmt::Formatter<W>) -> fmt::Result {
        match self {
            First::Oldest => write!(f, "oldest"),
            First::Youngest => write!(f, "youngest"),
        }
    }
}

#[derive(Clone, Copy)]
struct Case {
    family: Family,
    persons: u32,
    first: First,
}

// Nanoseconds, and how many calls were turned away.
#[derive(Clone, Copy, Default)]
struct Times {
    births: u128,
    deaths: u128,
    refused: u32,
}

impl Times {
    fn plus(self, more: Times) -> Times {
        Times {
            births: self.births.saturating_add(more.births),
            deaths: self.deaths.saturating_add(more.deaths),
            refused: self.refused.saturating_add(more.refused),
        }
    }
}

#[derive(Debug, Drop)]
enum Failure {
    System(io::Error),
    NoMemory,
}

impl From<AllocError> for Failure {
    fn from(_: AllocError) -> Failure {
        Failure::NoMemory
    }
}

impl From<io::Error> for Failure {
    fn from(error: io::Error) -> Failure {
        Failure::System(error)
    }
}

// Mother and father of a person with this number, each 0 or one more than a number.
fn parents(family: Family, who: u32) -> (u32, u32) {
    match (family, who) {
        (_, 0) => (0, 0),
        (Family::Wide, _) => (1, 0),
        (Family::Chain, _) => (who, 0),
        (Family::Mixed, 1) => (1, 0),
        (Family::Mixed, _) => (who / 2 + 1, who / 4 + 1),
    }
}

// A birth: whether it is taken.
fn bear(register: &mut Register<BirthsAndDeaths>, mother: u32, father: u32) -> bool {
    let a = mother.to_le_bytes();
    let b = father.to_le_bytes();
    register.call(&[0, a[0], a[1], a[2], a[3], b[0], b[1], b[2], b[3]]) == 5
}

// A death: whether it is taken.
fn bury(register: &mut Register<BirthsAndDeaths>, who: u32) -> bool {
    let a = who.to_le_bytes();
    register.call(&[3, a[0], a[1], a[2], a[3]]) == 5
}

// All are born: how many births were turned away.
fn bear_all(register: &mut Register<BirthsAndDeaths>, case: Case) -> u32 {
    let mut refused = 0u32;
    for who in 0..case.persons {
        let (mother, father) = parents(case.family, who);
        refused = refused.saturating_add(u32::from(!bear(register, mother, father)));
    }
    refused
}

// All die: how many deaths were turned away.
fn bury_all(register: &mut Register<BirthsAndDeaths>, case: Case) -> u32 {
    let mut refused = 0u32;
    for turn in 0..case.persons {
        let who = match case.first {
            First::Oldest => turn,
            First::Youngest => case.persons - 1 - turn,
        };
        refused = refused.saturating_add(u32::from(!bury(register, who)));
    }
    refused
}

fn nanoseconds(rt: &HostRuntime, start: Instant) -> Result<u128, Failure> {
    Ok(start.elapsed(rt)?.as_nanos())
}

// One register in which all are born and die.
fn time_once(
    rt: &HostRuntime,
    words: &mut [u32],
    bytes: &mut [u8],
    case: Case,
) -> Result<Times, Failure> {
    let mut store = Store::new(words, bytes);
    let Ok(mut register) = Register::<BirthsAndDeaths>::open(&mut store, case.persons) else {
        return Err(Failure::NoMemory);
    };
    let start = Instant::now(rt)?;
    let births_refused = bear_all(&mut register, case);
    let births = nanoseconds(rt, start)?;
    let start = Instant::now(rt)?;
    let deaths_refused = bury_all(&mut register, case);
    let deaths = nanoseconds(rt, start)?;
    Ok(Times {
        births,
        deaths,
        refused: births_refused.saturating_add(deaths_refused),
    })
}

// The sums of many turns.
fn time_often(
    rt: &HostRuntime,
    words: &mut [u32],
    bytes: &mut [u8],
    case: Case,
    turns: u32,
) -> Result<Times, Failure> {
    let mut sum = Times::default();
    for _ in 0..turns {
        sum = sum.plus(time_once(rt, words, bytes, case)?);
    }
    Ok(sum)
}

fn print_case(
    rt: &HostRuntime,
    words: &mut [u32],
    bytes: &mut [u8],
    case: Case,
) -> Result<(), Failure> {
    let turns = TIMED / case.persons.max(1);
    let times = time_often(rt, words, bytes, case, turns)?;
    let calls = (turns as u128).saturating_mul(case.persons as u128).max(1);
    let Case {
        family,
        persons,
        first,
    } = case;
    let birth = times.births / calls;
    let death = times.deaths / calls;
    println!(rt;
        "{family} {persons} {first} {birth} {death} {}",
        times.refused
    )?;
    Ok(())
}

fn print_all(rt: &HostRuntime) -> Result<(), Failure> {
    let mut words = vec![in rt.alloc(); 0u32; WORDS]?;
    let mut bytes = vec![in rt.alloc(); 0u8; BYTES]?;
    println!(rt; "family persons first-to-die ns-per-birth ns-per-death refused")?;
    for family in [Family::Wide, Family::Chain, Family::Mixed] {
        for persons in [64, 512, 4096] {
            for first in [First::Oldest, First::Youngest] {
                let case = Case {
                    family,
                    persons,
                    first,
                };
                print_case(rt, &mut words, &mut bytes, case)?;
            }
        }
    }
    Ok(())
}

fn main(rt: HostRuntime) -> Result<(), Failure> {
    let mut arguments = env::args(&rt)?;
    let _ = arguments.next();
    if arguments.next().is_none() {
        return Ok(());
    }
    print_all(&rt)
}
