// Passes along living lines in a register's memory, each person visited once however many ways lead to them: the persons are listed, children before parents,
// with how many parts each line has and the least number that these divide; then pieces are handed down along the list.
#![tactic(auto)]

ghost use Rattle.std.specs.Prelude.{◌≡◌, ℕ, suc, ◌+◌, ◌*◌, ◌<◌, ◌≤◌, Bool, List, ◌∷◌, length, drop, if◌then◌else◌, sum, filter, nat_eq, nat_lt, None, Some, unwrap_or, IfSome, slice_index, slice_set};
ghost use Rattle.std.specs.Iterator.{at_most};
ghost use Rattle.std.specs.Option.{option_and_then};
ghost use Rattle.law.specs.Family.{Family, Part as LawPart, children};
ghost use Rattle.theory.specs.Living.{alive};
ghost use Rattle.theory.specs.Multiples.{lcm};
ghost use Rattle.children.specs.Links.{first_of};
ghost use Rattle.people.specs.Layout.{limit_in, count_in, Roomy};
ghost use Rattle.living.specs.Places.{Held};
ghost use Rattle.shares.specs.Parts.{word_number};
ghost use Rattle.amounts.specs.Passes.{few, word_or_zero, count_step, multiple_step, added_each, handed_on, handed_down};
ghost use Rattle.amounts.specs.Lines.{divided_among};
ghost use Rattle.amounts.specs.Statements.{Listing};
ghost use Rattle.passes.specs.Rows.{Rows, Rowed, row_of, row_number, with_row, with_pieces};
ghost use Rattle.passes.specs.Listings.{order_row, counts_row, multiples_row, listed_rows, no_list, Ready, LineListed};
ghost use Rattle.passes.specs.Heirs.{heirs_of, left_rows};
ghost use Rattle.passes.specs.Walking.{Ahead, Passed, Stepped};

use shares::{HEIRS, MOST_PARTS, PIECES};

// A number of parts that stands for all that are more than an estate is divided into.
const TOO_MANY: u32 = MOST_PARTS + 1;

// A row of the work area with a word for each person: their pieces; the list of persons, each as one more than their number; and for each person who is listed
// how many parts their line has, and the least number that these divide, 0 where it doesn't fit a word.
#[derive(Clone, Copy)]
enum Row {
    Pieces,
    Order,
    Counts,
    Multiples,
}

impl Row {
    // Where a word of this row lies in memory with this limit.
    fn place(self, limit: u32, index: u32) -> usize
        ensures value { result ≡ 8450 + (8 + row_number self) * limit + index }
    {
        descent::work_at(limit) + PIECES + self as usize * limit as usize + index as usize
    }
}

// A word of a row.
fn word_at(memory: &[u32], row: Row, index: u32) -> u32
    requires room { Roomy memory.now }
    requires within { index < limit_in memory.now }
    ensures value { (n : ℕ) (f : Family) (ps : List LawPart) (rows : Rows) (spare rest : List ℕ) → Rowed memory.now n f ps rows spare rest → result ≡ slice_index (row_of row rows) index }
{
    memory[row.place(memory[0], index)]
}

// Writes a word of a row.
fn put_word(memory: &mut [u32], row: Row, index: u32, word: u32)
    requires room { Roomy memory.old }
    requires within { index < limit_in memory.old }
    ensures limit { limit_in memory.new ≡ limit_in memory.old }
    ensures count { count_in memory.new ≡ count_in memory.old }
    ensures left { (n : ℕ) (f : Family) (ps : List LawPart) (rows : Rows) (spare rest : List ℕ) → Rowed memory.old n f ps rows spare rest
        → Rowed memory.new n f ps (with_row row rows (slice_set (row_of row rows) index word)) spare rest }
{
    let at = row.place(memory[0], index);
    memory[at] = word;
}

// The link to the first of the children among whose lines what comes to somebody is divided; 0 for whoever lives, who has it themself.
fn first_below(memory: &[u32], who: u32) -> u32
    requires room { Roomy memory.now }
    requires there { who < limit_in memory.now }
    ensures value { (n : ℕ) (f : Family) (work rest : List ℕ) → Held memory.now n f (alive f) work rest
        → (j : ℕ) × (result ≡ first_of (drop j (children f who))) × (divided_among f who ≡ filter (alive f) (drop j (children f who))) }
{
    if people::read(memory, who).lives {
        return 0;
    }
    people::first_child(memory, who)
}

// A walk over the lines among which what comes to somebody is divided: the link to the child that comes next, and how many turns it may still take.
// It borrows no words, so that they may be written on the way, and looks at each child once.
#[derive(Drop)]
struct Walk {
    who: u32,
    link: u32,
    turns: u32,
}

impl Walk {
    // Before the first of these lines. There are no more children than persons.
    fn new(memory: &[u32], who: u32) -> Walk
        requires room { Roomy memory.now }
        requires there { who < limit_in memory.now }
        ensures who { result.who ≡ who }
        ensures start { (n : ℕ) (f : Family) (work rest : List ℕ) → Held memory.now n f (alive f) work rest → Ahead f result (divided_among f who) }
    {
        Walk {
            who,
            link: first_below(memory, who),
            turns: memory[1],
        }
    }

    // Goes on to the next child, whether their line lives or not.
    fn child(&mut self, memory: &[u32]) -> Option<u32>
        requires room { Roomy memory.now }
        requires there { self.old.who < limit_in memory.now }
        ensures step { Passed memory.now self.old result self.new }
    {
        let child = people::somebody(memory[0], self.link)?;
        self.turns = self.turns.checked_sub(1)?;
        self.link = people::next_child(memory, self.who, child);
        Some(child)
    }

    // Goes on to the next of these lines.
    fn next(&mut self, memory: &[u32]) -> Option<u32>
        requires room { Roomy memory.now }
        requires there { self.old.who < limit_in memory.now }
        ensures step { Stepped memory.now self.old result self.new }
    {
        while let Some(child) = self.child(memory) {
            if living::lives(memory, child) {
                return Some(child);
            }
        }
        None
    }
}

// The lines among which what comes to somebody is divided, one by one.
#[derive(Drop)]
struct Lines<'a> {
    memory: &'a [u32],
    walk: Walk,
    ghost room: { Roomy memory.now },
    ghost there: { walk.who < limit_in memory.now },
}

impl Iterator for Lines<'_> {
    type Item = u32;

    ghost next_gives = { λ s r t. (t.memory.now ≡ s.memory.now) × Stepped s.memory.now s.walk r t.walk };

    ghost remaining = { λ s. at_most s.walk.turns };

    fn next(&mut self) -> Option<u32> {
        self.walk.next(self.memory)
    }
}

// The lines among which what comes to somebody is divided: none for whoever lives, who has it themself.
fn lines_below(memory: &[u32], who: u32) -> Lines<'_>
    requires room { Roomy memory.now }
    requires there { who < limit_in memory.now }
    ensures words { result.memory.now ≡ memory.now }
    ensures who { result.walk.who ≡ who }
    ensures start { (n : ℕ) (f : Family) (work rest : List ℕ) → Held memory.now n f (alive f) work rest → Ahead f result.walk (divided_among f who) }
{
    Lines {
        memory,
        walk: Walk::new(memory, who),
    }
}

// What a line comes to: how many parts, and the least number that all of them divide, None where it doesn't fit a word.
#[derive(Clone, Copy, Debug, PartialEq, Eq)]
pub struct Line {
    pub parts: u32,
    pub multiple: Option<u32>,
}

// The least common multiple of two numbers, None where one of them or it doesn't fit a word.
pub fn common_multiple(a: Option<u32>, b: Option<u32>) -> Option<u32>
    ensures value { result ≡ word_number (lcm (unwrap_or a 0) (unwrap_or b 0)) }
{
    shares::multiple(a?, b?)
}

// What two come to together.
pub fn together(one: Line, other: Line) -> Line
    ensures parts { result.parts ≡ few (one.parts + other.parts) }
    ensures multiple { result.multiple ≡ word_number (lcm (unwrap_or one.multiple 0) (unwrap_or other.multiple 0)) }
{
    Line {
        parts: one.parts.saturating_add(other.parts).min(TOO_MANY),
        multiple: common_multiple(one.multiple, other.multiple),
    }
}

// So many times a number, None where that or the number doesn't fit a word.
pub fn product(times: u32, number: Option<u32>) -> Option<u32>
    ensures value { unwrap_or result 0 ≡ word_or_zero (times * unwrap_or number 0) }
    ensures exact { result ≡ option_and_then (λ n. if nat_lt (times * n) 4294967296 then Some (times * n) else None) number }
{
    times.checked_mul(number?)
}

// What the line of somebody who is listed comes to. Whoever is not listed has no parts.
pub fn entry(memory: &[u32], who: u32) -> Line
    requires room { Roomy memory.now }
    requires there { who < limit_in memory.now }
    ensures value { (n : ℕ) (f : Family) (ps : List LawPart) (rows : Rows) (spare rest : List ℕ) → Rowed memory.now n f ps rows spare rest
        → (result.parts ≡ slice_index rows.counts who) × (unwrap_or result.multiple 0 ≡ slice_index rows.multiples who) }
    ensures some { IfSome result.multiple (λ m. 0 < m) }
{
    let multiple = word_at(memory, Row::Multiples, who);
    Line {
        parts: word_at(memory, Row::Counts, who),
        multiple: (multiple != 0).then_some(multiple),
    }
}

// What somebody's line comes to, by the lines below it.
fn line_of(memory: &[u32], who: u32) -> Line
    requires room { Roomy memory.now }
    requires there { who < limit_in memory.now }
    ensures value { (n : ℕ) (f : Family) (ps : List LawPart) (rows : Rows) (spare rest : List ℕ) → Rowed memory.now n f ps rows spare rest
        → (result.parts ≡ count_step (divided_among f who) rows.counts) × (unwrap_or result.multiple 0 ≡ multiple_step (divided_among f who) rows.multiples) }
{
    let mut all = Line {
        parts: 0,
        multiple: Some(1),
    };
    let mut lines = 0;
    for child in lines_below(memory, who) {
        all = together(all, entry(memory, child));
        lines += 1;
    }
    divided(lines, all)
}

// What a line comes to that is divided among so many, by what these come to; whoever has it themself has one part.
fn divided(lines: u32, all: Line) -> Line
    ensures parts { result.parts ≡ (if nat_eq lines 0 then 1 else all.parts) }
    ensures multiple { unwrap_or result.multiple 0 ≡ (if nat_eq lines 0 then 1 else word_or_zero (lines * unwrap_or all.multiple 0)) }
{
    if lines == 0 {
        return Line {
            parts: 1,
            multiple: Some(1),
        };
    }
    Line {
        parts: all.parts,
        multiple: product(lines, all.multiple),
    }
}

// Puts somebody in front of a list of so many, with what their line comes to. Says how many there are then.
fn enter(memory: &mut [u32], who: u32, count: u32) -> u32
    requires room { Roomy memory.old }
    requires there { who < limit_in memory.old }
    ensures limit { limit_in memory.new ≡ limit_in memory.old }
    ensures count { count_in memory.new ≡ count_in memory.old }
    ensures within { count ≤ limit_in memory.old → result ≤ limit_in memory.old }
    ensures entered { (n : ℕ) (f : Family) (ps : List LawPart) (out spare rest : List ℕ) → Rowed memory.old n f ps (listed_rows n f out) spare rest → length out ≡ count → length out < n
        → (result ≡ suc (length out)) × Rowed memory.new n f ps (listed_rows n f (who ∷ out)) spare rest }
{
    if count >= memory[0] {
        return count;
    }
    let line = line_of(memory, who);
    put_word(memory, Row::Order, count, who + 1);
    put_word(memory, Row::Counts, who, line.parts);
    put_word(memory, Row::Multiples, who, line.multiple.unwrap_or(0));
    count + 1
}

// Lists a line that lives behind so many who are listed: everybody in it who is not listed yet, children before parents, each with what their line comes to.
// Says how many are listed then.
pub fn list(memory: &mut [u32], steps: u32, who: u32, count: u32) -> u32
    requires room { Roomy memory.old }
    requires there { who < limit_in memory.old }
    ensures limit { limit_in memory.new ≡ limit_in memory.old }
    ensures count { count_in memory.new ≡ count_in memory.old }
    ensures within { count ≤ limit_in memory.old → result ≤ limit_in memory.old }
    ensures listed { (n : ℕ) (f : Family) (rk : ℕ → ℕ) (ps : List LawPart) (out spare rest : List ℕ) → Ready memory.old n f rk ps out spare rest steps who count
        → LineListed n f ps out spare rest steps who memory.new result }
{
    if steps == 0 {
        return count;
    }
    if word_at(memory, Row::Counts, who) != 0 {
        return count;
    }
    let mut at = count;
    let mut lines = Walk::new(memory, who);
    while let Some(child) = lines.next(memory) {
        at = list(memory, steps - 1, child, at);
    }
    enter(memory, who, at)
}

// Adds to somebody's pieces. All together are fewer than 2 to the 32nd.
pub fn add(memory: &mut [u32], who: u32, more: u32)
    requires room { Roomy memory.old }
    requires there { who < limit_in memory.old }
    ensures limit { limit_in memory.new ≡ limit_in memory.old }
    ensures count { count_in memory.new ≡ count_in memory.old }
    ensures added { (n : ℕ) (f : Family) (ps : List LawPart) (rows : Rows) (spare rest : List ℕ) → Rowed memory.old n f ps rows spare rest → slice_index rows.pieces who + more < 4294967296
        → Rowed memory.new n f ps (with_pieces rows (slice_set rows.pieces who (slice_index rows.pieces who + more))) spare rest }
{
    let pieces = word_at(memory, Row::Pieces, who);
    put_word(memory, Row::Pieces, who, pieces.saturating_add(more));
}

// Adds to the pieces of each of the lines among which what comes to somebody is divided.
fn add_below(memory: &mut [u32], who: u32, each: u32)
    requires room { Roomy memory.old }
    requires there { who < limit_in memory.old }
    ensures limit { limit_in memory.new ≡ limit_in memory.old }
    ensures count { count_in memory.new ≡ count_in memory.old }
    ensures added { (n : ℕ) (f : Family) (ps : List LawPart) (rows : Rows) (spare rest : List ℕ) → Rowed memory.old n f ps rows spare rest
        → sum (added_each (divided_among f who) each rows.pieces) < 4294967296
        → Rowed memory.new n f ps (with_pieces rows (added_each (divided_among f who) each rows.pieces)) spare rest }
{
    let mut lines = Walk::new(memory, who);
    while let Some(child) = lines.next(memory) {
        add(memory, child, each);
    }
}

// Hands somebody's pieces on to the lines below, equally; whoever has none below keeps them.
fn hand_on(memory: &mut [u32], who: u32)
    requires room { Roomy memory.old }
    requires there { who < limit_in memory.old }
    ensures limit { limit_in memory.new ≡ limit_in memory.old }
    ensures count { count_in memory.new ≡ count_in memory.old }
    ensures handed { (n : ℕ) (f : Family) (ps : List LawPart) (rows : Rows) (spare rest : List ℕ) → Rowed memory.old n f ps rows spare rest → sum rows.pieces < 4294967296
        → Rowed memory.new n f ps (with_pieces rows (handed_on (divided_among f who) who rows.pieces)) spare rest }
{
    let lines = lines_below(memory, who).count() as u32;
    if lines == 0 {
        return;
    }
    let each = word_at(memory, Row::Pieces, who) / lines;
    put_word(memory, Row::Pieces, who, 0);
    add_below(memory, who, each);
}

// Who stands at a place of the list.
fn listed_at(memory: &[u32], index: u32) -> Option<u32>
    requires room { Roomy memory.now }
    requires within { index < limit_in memory.now }
    ensures there { IfSome result (λ q. q < limit_in memory.now) }
    ensures value { (n : ℕ) (f : Family) (ps : List LawPart) (rows : Rows) (spare rest : List ℕ) (q : ℕ) → Rowed memory.now n f ps rows spare rest → slice_index rows.order index ≡ suc q → q < n
        → result ≡ Some q }
{
    people::somebody(memory[0], word_at(memory, Row::Order, index))
}

// Hands pieces down along a list of so many, parents before children.
pub fn hand_down(memory: &mut [u32], count: u32)
    requires room { Roomy memory.old }
    requires listed { count ≤ limit_in memory.old }
    ensures limit { limit_in memory.new ≡ limit_in memory.old }
    ensures count { count_in memory.new ≡ count_in memory.old }
    ensures handed { (n : ℕ) (f : Family) (ps : List LawPart) (rows : Rows) (os spare rest : List ℕ) → Rowed memory.old n f ps rows spare rest → rows.order ≡ order_row n os
        → Listing f os → length os ≡ count → sum rows.pieces < 4294967296
        → Rowed memory.new n f ps (with_pieces rows (handed_down (divided_among f) os rows.pieces)) spare rest }
{
    for place in (0..count).rev() {
        if let Some(who) = listed_at(memory, place) {
            hand_on(memory, who);
        }
    }
}

// Where the bits of heirs lie in memory with this limit.
fn heirs_at(limit: u32) -> usize
    ensures value { result ≡ 8322 + 8 * limit }
{
    descent::work_at(limit) + HEIRS
}

// Takes somebody from a place of the list, and makes them an heir if they have pieces.
fn leave(memory: &mut [u32], index: u32, who: u32)
    requires room { Roomy memory.old }
    requires there { who < limit_in memory.old }
    requires listed { index < limit_in memory.old }
    ensures limit { limit_in memory.new ≡ limit_in memory.old }
    ensures count { count_in memory.new ≡ count_in memory.old }
    ensures left { (n : ℕ) (f : Family) (ps : List LawPart) (rows : Rows) (spare rest : List ℕ) → Rowed memory.old n f ps rows spare rest
        → Rowed memory.new n f ps (left_rows rows index who) spare rest }
{
    if word_at(memory, Row::Pieces, who) != 0 {
        let at = heirs_at(memory[0]);
        bits::insert(memory, at, who);
    }
    put_word(memory, Row::Order, index, 0);
    put_word(memory, Row::Counts, who, 0);
    put_word(memory, Row::Multiples, who, 0);
}

// Takes all of a list of so many from it, with what their lines come to, and makes heirs of those who have pieces.
pub fn unlist(memory: &mut [u32], count: u32)
    requires room { Roomy memory.old }
    requires listed { count ≤ limit_in memory.old }
    ensures limit { limit_in memory.new ≡ limit_in memory.old }
    ensures count { count_in memory.new ≡ count_in memory.old }
    ensures left { (n : ℕ) (f : Family) (ps : List LawPart) (heirs : ℕ → Bool) (pieces os spare rest : List ℕ)
        → Rowed memory.old n f ps (record { heirs = heirs; pieces = pieces; order = order_row n os; counts = counts_row n f os; multiples = multiples_row n f os }) spare rest
        → Listing f os → length os ≡ count → Rowed memory.new n f ps (no_list n (heirs_of pieces os heirs) pieces) spare rest }
{
    for index in (0..count).rev() {
        if let Some(who) = listed_at(memory, index) {
            leave(memory, index, who);
        }
    }
}
