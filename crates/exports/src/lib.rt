// The register for programs in C and Rust: functions of a static library over memory that the caller lends. A slice is a pointer and then its length.
// Each gives one signed number: a length, or -(refusal * 2^32 + place). None asks for anything of what the memory holds.
#![tactic(auto)]

ghost use Rattle.std.specs.Prelude.{◌≡◌, ℕ, ◌<◌, ◌≤◌, length, pos};
ghost use Rattle.wire.specs.Bytes.{read};
ghost use Rattle.people.specs.Layout.{limit_in, Roomy};
ghost use Rattle.service.specs.Desks.{state, bytes_asked};
ghost use Rattle.service.specs.Refusals.{refusal_number, refusal_place};
ghost use Rattle.service.specs.Service.{opens, left_by};
ghost use Rattle.exports.specs.Results.{signed_refusal, signed_opening, Ready, Called, Untouched, Checked};

use service::method::{Method, Parts, Passes};
use service::refusal::Refusal;
use service::stage::AllCalls;

// The refusal of words that are no register's; it comes from these functions only.
const NO_REGISTER: i64 = -0x7_0000_0000;

// The refusal of too few bytes for the answers.
const TOO_SMALL: i64 = -0x3_0000_0001;

// More bytes than any answer has.
const MOST_BYTES: usize = 0x7fff_ffff;

// A refusal's number and place as a signed number.
fn signed_refusal(number: u32, place: u32) -> i64
    requires few { number ≤ 7 }
    ensures value { result ≡ signed_refusal number place }
{
    let told = number as u64 * 0x1_0000_0000 + place as u64;
    -(told as i64)
}

// A refusal as a signed number.
fn signed_by(refusal: Refusal) -> i64
    ensures value { result ≡ signed_refusal (refusal_number refusal) (refusal_place refusal) }
{
    signed_refusal(refusal.number(), refusal.place())
}

// A length as a signed number. One beyond the bytes, which no register's words lead to, is refused.
fn signed_length(long: usize, bytes: usize) -> i64
    ensures value { long ≤ bytes → long ≤ 2147483647 → result ≡ pos long }
    ensures within { (k : ℕ) → result ≡ pos k → k ≤ bytes }
{
    if long > bytes || long > MOST_BYTES {
        return NO_REGISTER;
    }
    long as i64
}

// Opens a register for so many persons: 0, or a refusal by 3 with nothing changed.
#[unsafe(no_mangle)]
pub extern "C" fn heirs_open(memory: &mut [u32], answer: &mut [u8], limit: u32) -> i64
    ensures left { state memory.new ≡ left_by (opens limit (length memory.old) (length answer.old)) memory.old limit }
    ensures value { result ≡ signed_opening (opens limit (length memory.old) (length answer.old)) }
    ensures said { answer.new ≡ answer.old }
    ensures ready { result ≡ pos 0 → Ready memory.new (length answer.new) }
{
    match service::prepare(memory, answer.len(), limit) {
        Ok(()) => 0,
        Err(refusal) => signed_by(refusal),
    }
}

// Answers a row of bytes, and works out estates by this method.
fn answer_row<M: Method>(memory: &mut [u32], row: &[u8], answer: &mut [u8]) -> i64
    ensures called { Ready memory.old (length answer.old) → Called memory.old memory.new (read row.now) answer.old answer.new result }
    ensures within { (k : ℕ) → result ≡ pos k → k ≤ length answer.new }
    ensures unfit { (Roomy memory.old → ⊥) → Untouched memory.old memory.new answer.old answer.new result 7 0 }
    ensures small { Roomy memory.old → length answer.old < bytes_asked (limit_in memory.old) → Untouched memory.old memory.new answer.old answer.new result 3 1 }
{
    if !inspection::fits(memory) {
        return NO_REGISTER;
    }
    if answer.len() < service::bytes_asked(memory[0]) {
        return TOO_SMALL;
    }
    match service::respond::<AllCalls, M>(memory, answer, row) {
        Ok(long) => signed_length(long, answer.len()),
        Err(refusal) => signed_by(refusal),
    }
}

// Answers a row of bytes: how many bytes the answer has, or a refusal with nothing changed. On words that were tampered with behind a header that fits it is safe, and
// says nothing of what it leaves in them but that a length is within the bytes.
#[unsafe(no_mangle)]
pub extern "C" fn heirs_call(memory: &mut [u32], row: &[u8], answer: &mut [u8]) -> i64
    ensures called { Ready memory.old (length answer.old) → Called memory.old memory.new (read row.now) answer.old answer.new result }
    ensures within { (k : ℕ) → result ≡ pos k → k ≤ length answer.new }
    ensures unfit { (Roomy memory.old → ⊥) → Untouched memory.old memory.new answer.old answer.new result 7 0 }
    ensures small { Roomy memory.old → length answer.old < bytes_asked (limit_in memory.old) → Untouched memory.old memory.new answer.old answer.new result 3 1 }
{
    answer_row::<Passes>(memory, row, answer)
}

// The same, with estates worked out part by part down every way: for comparison, since it can take many times as long.
#[unsafe(no_mangle)]
pub extern "C" fn heirs_call_by_parts(memory: &mut [u32], row: &[u8], answer: &mut [u8]) -> i64
    ensures called { Ready memory.old (length answer.old) → Called memory.old memory.new (read row.now) answer.old answer.new result }
    ensures within { (k : ℕ) → result ≡ pos k → k ≤ length answer.new }
    ensures unfit { (Roomy memory.old → ⊥) → Untouched memory.old memory.new answer.old answer.new result 7 0 }
    ensures small { Roomy memory.old → length answer.old < bytes_asked (limit_in memory.old) → Untouched memory.old memory.new answer.old answer.new result 3 1 }
{
    answer_row::<Parts>(memory, row, answer)
}

// Whether words hold a register, and the bytes suffice for its answers: how many persons there are, or a refusal. Nothing is written.
#[unsafe(no_mangle)]
pub extern "C" fn heirs_check(memory: &[u32], answer: &[u8]) -> i64
    ensures checked { Checked memory.now (length answer.now) result }
{
    if !inspection::is_sound(memory) {
        return NO_REGISTER;
    }
    if answer.len() < service::bytes_asked(memory[0]) {
        return TOO_SMALL;
    }
    memory[1] as i64
}
