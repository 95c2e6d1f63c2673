// The lines that answer a file of calls.
#![tactic(auto)]

ghost use Rattle.std.specs.Prelude.{◌≡◌, ℕ, List, [], ◌++◌, length, IfOk, string_bytes, decimal, OnOk};
ghost use Rattle.std.specs.List.{flat_map};
ghost use Rattle.law.specs.Promise.{left_by, all_right};
ghost use Rattle.wire.specs.Bytes.{read, answer_read, shares_left, law_share};
ghost use Rattle.people.specs.Layout.{limit_in, family_in};
ghost use Rattle.service.specs.Desks.{desk, limits_of, next, says};
ghost use Rattle.report.specs.Lines.{row_size, file_calls, refusal_line, number_line, heir_line, answer_text, text_by, text_of, memory_of, printed, file_limits, file_lines, calls_left};
ghost use Rattle.std.specs.Iterator.{YieldsFirstBy, item_count};

use register::session::Register;
use register::store::Store;
use service::stage::Stage;
use std::alloc::{AllocError, Global};
use wire::{Reading, Share, SharesIn};

// How many bytes the next call of a file has: as many as its first byte says. All that are left, where that byte is no call's or fewer are left.
pub fn row_size(input: &[u8]) -> usize
    ensures value { result ≡ row_size input.now }
{
    match input.first() {
        Some(kind) => wire::call_length(*kind)
            .unwrap_or(input.len())
            .min(input.len()),
        None => 0,
    }
}

// The calls in the bytes of a file, each as its row of bytes, one after the other. Bytes that are no call are the last row.
#[derive(Drop)]
struct Rows<'a> {
    rest: &'a [u8],
}

impl<'a> Iterator for Rows<'a> {
    type Item = &'a [u8];

    ghost next_gives = { YieldsFirstBy (λ row. read row.now) calls_left };

    ghost remaining = { item_count calls_left };

    fn next(&mut self) -> Option<&'a [u8]> {
        if self.rest.is_empty() {
            return None;
        }
        let (row, rest) = self.rest.split_at(row_size(self.rest));
        self.rest = rest;
        Some(row)
    }
}

// Appends the line of a refusal.
fn put_refusal_line(text: &mut String, refusal: u32, place: u32) -> Result<(), AllocError>
    ensures lines { OnOk result (string_bytes text.new ≡ string_bytes text.old ++ refusal_line refusal place) }
{
    writeln!(text, "refused {refusal} at {place}")
}

// Appends the line of a number.
fn put_number_line(text: &mut String, value: u32) -> Result<(), AllocError>
    ensures lines { OnOk result (string_bytes text.new ≡ string_bytes text.old ++ number_line value) }
{
    writeln!(text, "{value}")
}

// How the heir of a share is named in its line.
pub trait Naming {
    ghost named: { Self → ℕ → List ℕ };

    // Appends what somebody is called.
    fn put_name(&self, text: &mut String, who: u32) -> Result<(), AllocError>
        ensures name { OnOk result (string_bytes text.new ≡ string_bytes text.old ++ named self.now who) };
}

// By number.
#[derive(Clone, Copy, PartialEq, Eq, Debug)]
pub struct Numbers;

impl Naming for Numbers {
    ghost named = { λ _ who. decimal who };

    fn put_name(&self, text: &mut String, who: u32) -> Result<(), AllocError> {
        write!(text, "{who}")
    }
}

// Appends the line of an heir.
fn put_share_line<N: Naming>(text: &mut String, naming: &N, share: Share) -> Result<(), AllocError>
    ensures lines { OnOk result (string_bytes text.new ≡ string_bytes text.old ++ heir_line (N.named naming.now) (law_share share)) }
{
    let Share { who, up, down } = share;
    naming.put_name(text, who)?;
    writeln!(text, " {up}/{down}")
}

// Appends the lines of heirs.
fn put_share_lines<N: Naming>(
    text: &mut String,
    naming: &N,
    shares: SharesIn,
) -> Result<(), AllocError>
    ensures lines { OnOk result (string_bytes text.new ≡ string_bytes text.old ++ flat_map (heir_line (N.named naming.now)) (shares_left shares.entry)) }
{
    for share in shares {
        put_share_line(text, naming, share)?;
    }
    Ok(())
}

// Appends the lines of an answer, given as its bytes, in which heirs are named so; nothing where they are no answer.
pub fn put_named<N: Naming>(text: &mut String, naming: &N, answer: &[u8]) -> Result<(), AllocError>
    ensures lines { OnOk result (string_bytes text.new ≡ string_bytes text.old ++ text_by (N.named naming.now) (answer_read answer.now)) }
{
    match wire::read_answer(answer) {
        Some(Reading::Refused(refusal, place)) => put_refusal_line(text, refusal, place),
        Some(Reading::Number(value)) => put_number_line(text, value),
        Some(Reading::Shares(0)) => text.push_str("no heirs\n"),
        Some(Reading::Shares(_)) => put_share_lines(text, naming, wire::shares_in(answer)),
        None => Ok(()),
    }
}

// The same with heirs by number.
pub fn put_answer(text: &mut String, answer: &[u8]) -> Result<(), AllocError>
    ensures lines { OnOk result (string_bytes text.new ≡ string_bytes text.old ++ text_of (answer_read answer.now)) }
{
    put_named(text, &Numbers, answer)
}

// Has a register answer a call, given as its bytes, and appends the lines of the answer.
fn answer_call<S: Stage>(
    text: &mut String,
    register: &mut Register<S>,
    row: &[u8],
) -> Result<(), AllocError>
    ensures left { memory_of register.new ≡ next S.can (memory_of register.old) (read row.now) }
    ensures lines { OnOk result (string_bytes text.new ≡ string_bytes text.old ++ answer_text (says S.can (memory_of register.old) (read row.now))) }
    ensures words { register.new.store.now.memory.ghost_name ≡ register.old.store.now.memory.ghost_name }
    ensures bytes { register.new.store.now.answer.ghost_name ≡ register.old.store.now.answer.ghost_name }
{
    let size = register.call(row);
    let bytes = register.bytes();
    put_answer(text, &bytes[0..size])
}

// Has a register answer the calls of a file, one after the other, and appends the lines of all answers, each of which is right for the family
// that the calls before it left. Bytes that are no call are the last: they are refused together.
pub fn put_answers<S: Stage>(
    text: &mut String,
    register: &mut Register<S>,
    input: &[u8],
) -> Result<(), AllocError>
    ensures lines { OnOk result (string_bytes text.new ≡ string_bytes text.old ++ printed (desk S.can []) (memory_of register.old) (file_calls input.now)) }
    ensures left { OnOk result (memory_of register.new ≡ left_by (desk S.can []) (memory_of register.old) (file_calls input.now)) }
    ensures right { all_right (desk S.can []) (limits_of S.can (limit_in (memory_of register.old).words)) (memory_of register.old) (family_in (memory_of register.old).words) (file_calls input.now) }
    ensures words { register.new.store.now.memory.ghost_name ≡ register.old.store.now.memory.ghost_name }
    ensures bytes { register.new.store.now.answer.ghost_name ≡ register.old.store.now.answer.ghost_name }
{
    for row in (Rows { rest: input }) {
        answer_call(text, register, row)?;
    }
    Ok(())
}

// How many persons the register of a file serves, and what it is lent: words, and bytes for an answer.
pub const PERSONS: u32 = 64;

pub const WORDS: usize = 25600;

pub const BYTES: usize = 49160;

// Appends the lines that answer a file of calls, by a register that is opened in what is lent.
fn put_file<S: Stage>(
    text: &mut String,
    words: &mut [u32],
    bytes: &mut [u8],
    input: &[u8],
) -> Result<(), AllocError>
    requires words { length words.old ≡ 25600 }
    requires bytes { length bytes.old ≡ 49160 }
    ensures lines { OnOk result (string_bytes text.new ≡ string_bytes text.old ++ file_lines S.can input.now) }
{
    let mut store = Store::new(words, bytes);
    match Register::<S>::open(&mut store, PERSONS) {
        Ok(mut register) => put_answers(text, &mut register, input),
        Err(_) => unreachable(),
    }
}

// The lines that answer a file of calls, by a new register at a stage.
pub fn answer_file<S: Stage>(heap: Global, input: &[u8]) -> Result<String, AllocError>
    ensures lines { IfOk result (λ s. string_bytes s ≡ file_lines S.can input.now) }
    ensures right { all_right (desk S.can []) (file_limits S.can) ((desk S.can []).opened (file_limits S.can)) [] (file_calls input.now) }
{
    let mut words = vec![in heap; 0u32; WORDS]?;
    let mut bytes = vec![in heap; 0u8; BYTES]?;
    let mut text = String::new(heap);
    put_file::<S>(&mut text, &mut words, &mut bytes, input)?;
    Ok(text)
}

#[cfg(test)]
mod tests {
    use super::*;
    use service::stage::{AllCalls, BirthsAndDeaths};
    use std::test::Fail;
    use wire::Reply;

    // Whether the lines that answer a file at a stage are these.
    fn are_lines<S: Stage>(heap: Global, input: &[u8], lines: &str) -> Result<bool, AllocError> {
        let text = answer_file::<S>(heap, input)?;
        Ok(text.as_str() == lines)
    }

    #[test]
    fn empty_file(rt: HostRuntime) -> Result<(), Fail> {
        assert!(rt; are_lines::<BirthsAndDeaths>(rt.alloc(), &[], "")?);
        assert!(rt; are_lines::<AllCalls>(rt.alloc(), &[], "")?);
        Ok(())
    }

    // A birth, and bytes of which the first is no call's.
    #[test]
    fn unknown_first_byte(rt: HostRuntime) -> Result<(), Fail> {
        let input = [0, 0, 0, 0, 0, 0, 0, 0, 0, 9, 3, 0, 0, 0, 0];
        let lines = "0\nrefused 1 at 0\n";
        assert!(rt; are_lines::<BirthsAndDeaths>(rt.alloc(), &input, lines)?);
        assert!(rt; are_lines::<AllCalls>(rt.alloc(), &input, lines)?);
        Ok(())
    }

    // A birth more than the register serves.
    #[test]
    fn full_register(rt: HostRuntime) -> Result<(), Fail> {
        let first = answer_file::<BirthsAndDeaths>(rt.alloc(), &[0; 585])?;
        assert!(rt; first.as_str().ends_with("\n63\nrefused 6 at 0\n"));
        let all = answer_file::<AllCalls>(rt.alloc(), &[0; 585])?;
        assert!(rt; all.as_str().ends_with("\n63\nrefused 6 at 0\n"));
        Ok(())
    }

    // An estate with two heirs, one with none, and a byte that is no answer.
    #[test]
    fn lines_of_answers(rt: HostRuntime) -> Result<(), Fail> {
        let heirs = [
            Share {
                who: 2,
                up: 1,
                down: 4,
            },
            Share {
                who: 5,
                up: 3,
                down: 4,
            },
        ];
        let mut bytes = [0; 45];
        assert_eq!(rt; wire::encode(Reply::Shares(&heirs), &mut bytes), Some(45));
        let mut text = String::new(rt.alloc());
        put_answer(&mut text, &bytes)?;
        put_answer(&mut text, &[2, 0, 0, 0, 0])?;
        put_answer(&mut text, &[3])?;
        assert_eq!(rt; text.as_str(), "2 1/4\n5 3/4\nno heirs\n");
        Ok(())
    }
}
