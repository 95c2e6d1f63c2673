// From a row of parts of an estate to the shares of the heirs.
// The work area that is lent for it has words for the parts, a set of heirs as bits, and a word for the pieces of each person.
#![tactic(auto)]

ghost use Rattle.std.specs.Prelude.{◌≡◌, ℕ, ◌+◌, ◌*◌, ◌/◌, ◌<◌, ◌≤◌, List, [], map, length};
ghost use Rattle.std.specs.List.{AllByRecursion};
ghost use Rattle.bits.specs.Sets.{no_member};
ghost use Rattle.law.specs.Calls.{gcd as law_gcd, pieces as law_pieces, all_pieces, common_multiple};
ghost use Rattle.law.specs.Family.{Part as LawPart};
ghost use Rattle.rows.specs.Written.{written};
ghost use Rattle.theory.specs.Multiples.{lcm};
ghost use Rattle.theory.specs.Shares.{lowest_share, shares_from};
ghost use Rattle.wire.specs.Bytes.{law_share};
ghost use Rattle.shares.specs.Parts.{law_part, lead_parts, whole_row, word_number, number_of};
ghost use Rattle.shares.specs.Settling.{WrittenOut, SoundRow, Settled};
ghost use Rattle.shares.specs.Together.{SharesTogether, SettledRight};
ghost use Rattle.shares.specs.Work.{part_words, word_part, part_in, parts_in, work_of, more_pieces, no_pieces, Held};

use wire::Share;

// How many words a row of parts lies in.
pub const PARTS_WORDS: usize = 8192;

// Where the set of heirs lies in the work area, how many words it has, and where the pieces of the persons lie.
pub const HEIRS: usize = PARTS_WORDS;

const HEIRS_WORDS: usize = 128;

pub const PIECES: usize = HEIRS + HEIRS_WORDS;

// The most parts that an estate is divided into.
pub const MOST_PARTS: u32 = 4096;

// A part: who has it, and one by how many of the estate it is.
#[derive(Clone, Copy, Debug, PartialEq, Eq)]
pub struct Part {
    pub who: u32,
    pub by: u32,
}

// The greatest common divisor.
pub fn gcd(a: u64, b: u64) -> u64
    ensures value { result ≡ law_gcd a b }
{
    let (mut x, mut y) = (a, b);
    while y != 0 {
        (x, y) = (y, x % y);
    }
    x
}

// Somebody's share in lowest terms, who has so many pieces of the whole; nothing of nothing is 0 by 0.
pub fn reduce(who: u32, pieces: u64, whole: u64) -> Share
    ensures value { law_share result ≡ lowest_share whole pieces who }
{
    let divisor = gcd(pieces, whole);
    Share {
        who,
        up: pieces.checked_div(divisor).unwrap_or(0),
        down: whole.checked_div(divisor).unwrap_or(0),
    }
}

// Writes the part with an index.
pub fn put_part(work: &mut [u32], index: u32, part: Part)
    requires room { 2 * index + 2 ≤ length work.old }
    ensures left { work.new ≡ written (2 * index) (part_words (law_part part)) work.old }
{
    rows::put(work, 2 * index as usize, &[part.who, part.by]);
}

// The part with an index.
pub fn part_at(work: &[u32], index: u32) -> Part
    requires room { 2 * index + 2 ≤ length work.now }
    ensures value { law_part result ≡ part_in work.now index }
{
    let at = 2 * index as usize;
    Part {
        who: work[at],
        by: work[at + 1],
    }
}

// The least common multiple of two numbers; none where it is 0, or 2 to the 32nd or more.
pub fn multiple(number: u32, by: u32) -> Option<u32>
    ensures value { result ≡ word_number (lcm number by) }
{
    let (number, by) = (u64::from(number), u64::from(by));
    let product = number.checked_div(gcd(number, by))? * by;
    if product == 0 {
        return None;
    }
    u32::try_from(product).ok()
}

// How many parts are listed: one that stands first, and a row of which each counts so many times.
pub fn parts_listed(lead: Option<Part>, times: u32, count: u32) -> u64
    ensures value { result ≡ length (lead_parts lead) + times * count }
{
    u64::from(lead.is_some()) + u64::from(times) * u64::from(count)
}

// The least number that a part divides that stands first, if there is one.
pub fn lead_multiple(lead: Option<Part>) -> Option<u32>
    ensures value { result ≡ word_number (common_multiple (lead_parts lead) 1) }
{
    lead.map_or(Some(1), |part| multiple(1, part.by))
}

// The least number that all parts divide; none where they are more than 4,096, as they are listed, or that number is 2 to the 32nd or more.
// A part by 0 stands for one by 2 to the 32nd or more.
pub fn whole(work: &[u32], lead: Option<Part>, times: u32, count: u32) -> Option<u32>
    requires room { 2 * count ≤ length work.now }
    ensures value { result ≡ number_of (whole_row lead times (parts_in work.now 0 count)) }
{
    if parts_listed(lead, times, count) > u64::from(MOST_PARTS) {
        return None;
    }
    let mut number = lead_multiple(lead)?;
    if times == 0 {
        return Some(number);
    }
    for i in 0..count {
        number = multiple(number, part_at(work, i).by)?;
    }
    Some(number)
}

// So many times one by so many of the whole; nothing for a part by 0.
pub fn amount(times: u32, whole: u32, by: u32) -> u64
    ensures value { result ≡ times * (whole / by) }
{
    u64::from(times) * u64::from(whole.checked_div(by).unwrap_or(0))
}

// Adds to somebody's pieces, and makes them an heir. Leaves out what is past the last person or doesn't fit a word: a row of an estate has no such parts.
pub fn add_pieces(work: &mut [u32], persons: u32, who: u32, more: u64)
    requires few { persons ≤ 4096 }
    requires room { 8320 + persons ≤ length work.old }
    ensures left { (m : ℕ) (ps : List LawPart) (amounts : ℕ → ℕ) (rest : List ℕ) → Held m ps amounts rest persons work.old → (0 < more → who < persons) → amounts who + more < 4294967296 → Held m ps (more_pieces amounts who more) rest persons work.new }
{
    if more == 0 || who >= persons {
        return;
    }
    let at = PIECES + who as usize;
    let Ok(more) = u32::try_from(more) else {
        return;
    };
    let Some(sum) = work[at].checked_add(more) else {
        return;
    };
    work[at] = sum;
    bits::insert(work, HEIRS, who);
}

// Adds the pieces of a part that stands first, if there is one.
fn add_lead(work: &mut [u32], persons: u32, lead: Option<Part>, whole: u32)
    requires few { persons ≤ 4096 }
    requires room { 8320 + persons ≤ length work.old }
    ensures left { (m : ℕ) (ps : List LawPart) (rest : List ℕ) → Held m ps no_pieces rest persons work.old → AllByRecursion (λ q. q.who < persons) (lead_parts lead) → Held m ps (law_pieces whole (lead_parts lead)) rest persons work.new }
{
    if let Some(part) = lead {
        add_pieces(work, persons, part.who, amount(1, whole, part.by));
    }
}

// Adds up the pieces of everybody who has parts, if the estate is so many pieces, and makes them the heirs.
pub fn gather(
    work: &mut [u32],
    persons: u32,
    lead: Option<Part>,
    times: u32,
    count: u32,
    whole: u32,
)
    requires few { persons ≤ 4096 }
    requires listed { count ≤ 4096 }
    requires room { 8320 + persons ≤ length work.old }
    ensures left { (m : ℕ) (ps : List LawPart) (rest : List ℕ) → Held m ps no_pieces rest persons work.old → length ps ≡ count → AllByRecursion (λ q. q.who < persons) (whole_row lead times ps) → all_pieces whole (whole_row lead times ps) ≤ whole → Held m ps (law_pieces whole (whole_row lead times ps)) rest persons work.new }
{
    add_lead(work, persons, lead, whole);
    for index in 0..count {
        let part = part_at(work, index);
        add_pieces(work, persons, part.who, amount(times, whole, part.by));
    }
}

// Writes the share of each heir into the answer, by number and in lowest terms, and takes their pieces and all heirs from the work area.
// Says how many shares there are.
pub fn write_shares(work: &mut [u32], answer: &mut [u8], persons: u32, whole: u32) -> u32
    requires few { persons ≤ 4096 }
    requires room { 8320 + persons ≤ length work.old }
    requires bytes { 5 + 20 * persons ≤ length answer.old }
    ensures shares { (m : ℕ) (ps : List LawPart) (amounts : ℕ → ℕ) (rest : List ℕ) → Held m ps amounts rest persons work.old → ((w : ℕ) → persons ≤ w → amounts w ≡ 0) → WrittenOut m ps rest persons (shares_from whole amounts 0 persons) work.new answer.old answer.new result }
{
    let mut count = 0;
    let mut from = 0;
    while let Some(who) = bits::next(work, HEIRS, from, persons) {
        let at = PIECES + who as usize;
        let share = reduce(who, u64::from(work[at]), u64::from(whole));
        wire::put_share(answer, count as usize, share);
        work[at] = 0;
        count += 1;
        from = who + 1;
    }
    wire::put_count(answer, count);
    bits::clear(work, HEIRS, HEIRS_WORDS);
    count
}

// Divides the estate among those who have parts and writes their shares, where the parts can be divided. Says how many shares there are.
fn divide(
    work: &mut [u32],
    answer: &mut [u8],
    persons: u32,
    lead: Option<Part>,
    times: u32,
    count: u32,
) -> Option<u32>
    requires few { persons ≤ 4096 }
    requires listed { count ≤ 4096 }
    requires room { 8320 + persons ≤ length work.old }
    requires bytes { 5 + 20 * persons ≤ length answer.old }
    ensures settled { (m : ℕ) (ps : List LawPart) (rest : List ℕ) → Held m ps no_pieces rest persons work.old → length ps ≡ count → AllByRecursion (λ q. q.who < persons) (whole_row lead times ps) → all_pieces (common_multiple (whole_row lead times ps) 1) (whole_row lead times ps) ≤ common_multiple (whole_row lead times ps) 1 → Settled m ps rest (whole_row lead times ps) work.new answer.old answer.new result }
{
    let number = whole(work, lead, times, count)?;
    gather(work, persons, lead, times, count, number);
    Some(write_shares(work, answer, persons, number))
}

// Settles an estate: writes the shares of those who have parts into the answer and says how many they are.
// None where the parts are more than 4,096, as they are listed, or the least number that all divide is 2 to the 32nd or more: the answer then stays as it was.
// The work area is left with no parts, no heirs and no pieces.
pub fn settle(
    work: &mut [u32],
    answer: &mut [u8],
    persons: u32,
    lead: Option<Part>,
    times: u32,
    count: u32,
) -> Option<u32>
    requires few { persons ≤ 4096 }
    requires listed { count ≤ 4096 }
    requires room { 8320 + persons ≤ length work.old }
    requires bytes { 5 + 20 * persons ≤ length answer.old }
    ensures settled { (m : ℕ) (ps : List LawPart) (rest : List ℕ) → work.old ≡ work_of m (map word_part ps) no_member no_pieces rest → length ps ≡ count → persons ≤ m → SoundRow persons (whole_row lead times ps) → Settled m [] rest (whole_row lead times ps) work.new answer.old answer.new result }
{
    let shares = divide(work, answer, persons, lead, times, count);
    rows::clear(work, 0, 2 * count as usize);
    shares
}

// Shares that are as the parts are come to as much together as the parts.
pub fn shares_together()
    ensures holds { SharesTogether }
{}

// What is settled is right: shares are as the parts are, and all together are one where all parts are the estate.
pub fn settled_right()
    ensures holds { SettledRight }
{}
