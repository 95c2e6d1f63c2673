// The shares of an estate, by passes along the living lines that visit each person a bounded number of times.
#![tactic(auto)]

ghost use Rattle.std.specs.Prelude.{◌≡◌, ℕ, ◌+◌, ◌*◌, ◌<◌, ◌≤◌, List, length, get_or, IfSome, if◌then◌else◌, sum, MatchOption, nat_le, slice_index_or};
ghost use Rattle.std.specs.List.{AllByRecursion};
ghost use Rattle.law.specs.Family.{Family, Part as LawPart};
ghost use Rattle.law.specs.Calls.{common_multiple, pieces};
ghost use Rattle.people.specs.Layout.{image, limit_in, count_in, Roomy};
ghost use Rattle.amounts.specs.Passes.{few, started, starts_count, starts_numbers};
ghost use Rattle.amounts.specs.Estates.{spouse_lead};
ghost use Rattle.shares.specs.Parts.{law_part, lead_parts, word_number};
ghost use Rattle.shares.specs.Work.{Held};
ghost use Rattle.succession.specs.Settling.{DeadThere, EstateSettled};
ghost use Rattle.passes.specs.Rows.{Rows, Rowed, with_pieces};
ghost use Rattle.estates.specs.Passing.{ToList, LinesListed, ToDivide, Divided, ToSettle, EstateDivided, Answered};

use passes::Line;
use shares::{MOST_PARTS, Part};
use succession::Beside;

// The line with an index that an estate begins with, if its person is within the limit.
fn start_at(memory: &[u32], index: u32) -> Option<Part>
    requires room { Roomy memory.now }
    requires few { index < 4096 }
    ensures within { IfSome result (λ p. p.who < limit_in memory.now) }
    ensures value { (n : ℕ) (f : Family) (ps : List LawPart) (rows : Rows) (spare rest : List ℕ) (none : LawPart) → Rowed memory.now n f ps rows spare rest → index < length ps
        → (get_or ps index none).who < n → MatchOption result ⊥ (λ p. law_part p ≡ slice_index_or ps index none) }
{
    let at = descent::work_at(memory[0]);
    let start = shares::part_at(&memory[at..], index);
    (start.who < memory[0]).then_some(start)
}

// Lists all persons of so many lines, and says how many they are.
fn list_all(memory: &mut [u32], count: u32) -> u32
    requires room { Roomy memory.old }
    requires few { count ≤ 4096 }
    ensures limit { limit_in memory.new ≡ limit_in memory.old }
    ensures count { count_in memory.new ≡ count_in memory.old }
    ensures within { result ≤ limit_in memory.old }
    ensures listed { (n : ℕ) (f : Family) (rk : ℕ → ℕ) (ss : List LawPart) (spare rest : List ℕ) → ToList memory.old n f rk ss spare rest count
        → LinesListed n f ss spare rest memory.new result }
{
    let mut listed = 0;
    for i in 0..count {
        let Some(start) = start_at(memory, i) else {
            break;
        };
        let steps = memory[1];
        listed = passes::list(memory, steps, start.who, listed);
    }
    listed
}

// What so many lines come to together; the number is one that a part that stands first divides too, if there is one.
fn measure(memory: &[u32], lead: Option<Part>, count: u32) -> Line
    requires room { Roomy memory.now }
    requires few { count ≤ 4096 }
    ensures value { (n : ℕ) (f : Family) (ss : List LawPart) (rows : Rows) (spare rest : List ℕ) → Rowed memory.now n f ss rows spare rest → length ss ≡ count
        → AllByRecursion (λ s. s.who < n) ss
        → (result.parts ≡ few (starts_count rows.counts ss)) × (result.multiple ≡ word_number (common_multiple (starts_numbers rows.multiples ss) (common_multiple (lead_parts lead) 1))) }
{
    let mut all = Line {
        parts: 0,
        multiple: shares::lead_multiple(lead),
    };
    for i in 0..count {
        let Some(start) = start_at(memory, i) else {
            break;
        };
        let line = passes::entry(memory, start.who);
        let multiple = passes::product(start.by, line.multiple);
        all = passes::together(all, Line { multiple, ..line });
    }
    all
}

// Gives each of so many lines its pieces: so many times one by its number of the whole. All together are fewer than 2 to the 32nd.
fn give(memory: &mut [u32], times: u32, whole: u32, count: u32)
    requires room { Roomy memory.old }
    requires few { count ≤ 4096 }
    ensures limit { limit_in memory.new ≡ limit_in memory.old }
    ensures count { count_in memory.new ≡ count_in memory.old }
    ensures given { (n : ℕ) (f : Family) (ss : List LawPart) (rows : Rows) (spare rest : List ℕ) → Rowed memory.old n f ss rows spare rest → length ss ≡ count
        → AllByRecursion (λ s. s.who < n) ss → sum (started times whole ss rows.pieces) < 4294967296
        → Rowed memory.new n f ss (with_pieces rows (started times whole ss rows.pieces)) spare rest }
{
    for i in 0..count {
        let Some(start) = start_at(memory, i) else {
            break;
        };
        let pieces = shares::amount(times, whole, start.by);
        passes::add(memory, start.who, u32::try_from(pieces).unwrap_or(0));
    }
}

// The number that an estate is divided by, if it is within the limits: by what its lines come to together, beside what a spouse has first.
fn number_within(beside: Beside, line: Line) -> Option<u32>
    ensures value { result ≡ (if nat_le (length (lead_parts beside.lead) + beside.times * line.parts) 4096 then line.multiple else None) }
{
    if shares::parts_listed(beside.lead, beside.times, line.parts) > u64::from(MOST_PARTS) {
        return None;
    }
    line.multiple
}

// Divides an estate among the lines that it begins with, and those down to the heirs, along a list of so many persons. Says by which number.
fn divide(memory: &mut [u32], beside: Beside, count: u32, persons: u32) -> Option<u32>
    requires room { Roomy memory.old }
    requires few { count ≤ 4096 }
    requires listed { persons ≤ limit_in memory.old }
    ensures limit { limit_in memory.new ≡ limit_in memory.old }
    ensures count { count_in memory.new ≡ count_in memory.old }
    ensures divided { (n : ℕ) (f : Family) (rk : ℕ → ℕ) (d : ℕ) (spare rest : List ℕ) → ToDivide memory.old n f rk d spare rest beside count persons
        → Divided n f d spare rest memory.new result }
{
    let line = measure(memory, beside.lead, count);
    let number = number_within(beside, line)?;
    give(memory, beside.times, number, count);
    passes::hand_down(memory, persons);
    Some(number)
}

// Lists all persons of the lines that an estate begins with, divides it among them, and takes them from the list again, with the heirs marked.
fn divide_listed(memory: &mut [u32], beside: Beside, count: u32) -> Option<u32>
    requires room { Roomy memory.old }
    requires few { count ≤ 4096 }
    ensures limit { limit_in memory.new ≡ limit_in memory.old }
    ensures count { count_in memory.new ≡ count_in memory.old }
    ensures divided { (n : ℕ) (f : Family) (rk : ℕ → ℕ) (d : ℕ) (rest : List ℕ) → ToSettle memory.old n f rk d rest beside count
        → EstateDivided n f d rest memory.new result }
{
    let persons = list_all(memory, count);
    let number = divide(memory, beside, count, persons);
    passes::unlist(memory, persons);
    number
}

// Adds the pieces of a part that stands first, if there is one, to what everybody has.
fn add_first(work: &mut [u32], persons: u32, lead: Option<Part>, number: u32)
    requires few { persons ≤ 4096 }
    requires room { 8320 + persons ≤ length work.old }
    ensures left { (m : ℕ) (ps : List LawPart) (amounts all : ℕ → ℕ) (rest : List ℕ) → Held m ps amounts rest persons work.old → AllByRecursion (λ q. q.who < persons) (lead_parts lead)
        → ((w : ℕ) → amounts w + pieces number (lead_parts lead) w ≡ all w) → ((w : ℕ) → all w < 4294967296) → Held m ps all rest persons work.new }
{
    if let Some(part) = lead {
        shares::add_pieces(work, persons, part.who, shares::amount(1, number, part.by));
    }
}

// Writes the shares of an estate that was divided by a number, if it was, also that of a part that stands first, if there is one. Says how many there are.
fn write_answer(
    memory: &mut [u32],
    answer: &mut [u8],
    lead: Option<Part>,
    number: Option<u32>,
) -> Option<u32>
    requires room { Roomy memory.old }
    requires bytes { 8 + 20 * limit_in memory.old ≤ length answer.old }
    ensures limit { limit_in memory.new ≡ limit_in memory.old }
    ensures count { count_in memory.new ≡ count_in memory.old }
    ensures answered { (n : ℕ) (f : Family) (d : ℕ) (rest : List ℕ) → EstateDivided n f d rest memory.old number → DeadThere f n d → lead_parts lead ≡ spouse_lead f d
        → Answered n f d rest memory.new answer.old answer.new result }
{
    let number = number?;
    let persons = memory[1];
    let at = descent::work_at(memory[0]);
    let work = &mut memory[at..];
    add_first(work, persons, lead, number);
    Some(shares::write_shares(work, answer, persons, number))
}

// The shares of the estate of somebody who is dead, written as the answer: how many there are. None where the estate is beyond the limits; nothing is written then.
pub fn settle(memory: &mut [u32], answer: &mut [u8], who: u32) -> Option<u32>
    requires room { Roomy memory.old }
    requires there { who < limit_in memory.old }
    requires bytes { 8 + 20 * limit_in memory.old ≤ length answer.old }
    ensures limit { limit_in memory.new ≡ limit_in memory.old }
    ensures count { count_in memory.new ≡ count_in memory.old }
    ensures settled { (n : ℕ) (f : Family) (rest : List ℕ) → memory.old ≡ image n f rest → DeadThere f n who
        → EstateSettled n f rest who memory.new answer.old answer.new result }
{
    let order = succession::order_of(memory, who);
    let spouse = people::read(memory, who).spouse;
    let beside = succession::beside_spouse(order, succession::living_spouse(memory, spouse));
    let count = starts::begin(memory, who, order, beside.by);
    let number = divide_listed(memory, beside, count);
    let shares = write_answer(memory, answer, beside.lead, number);
    let at = descent::work_at(memory[0]);
    rows::clear(memory, at, 2 * count as usize);
    shares
}
