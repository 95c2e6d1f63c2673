// Calls and answers as bytes.
#![tactic(auto)]

ghost use Rattle.std.specs.Prelude.{◌≡◌, ◌+◌, ◌*◌, ◌<◌, ◌≤◌, [], ◌∷◌, map, length, if◌then◌else◌, Some, None, nat_lt, slice_index};
ghost use Rattle.rows.specs.Written.{written};
ghost use Rattle.law.specs.Calls.{refused, number, shares};
ghost use Rattle.wire.specs.Bytes.{le4, num4, num8, row_bytes, laid_over, laid_length};
ghost use Rattle.wire.specs.Bytes.{call_bytes, call_with, call_size, call_length, read, call_of, call_from};
ghost use Rattle.wire.specs.Bytes.{answer_bytes, answer_shares, answer_of, answer_fits, share_bytes, shares_begun, law_share};
ghost use Rattle.wire.specs.Bytes.{answer_read, answer_from, share_at, share_in, share_from};
ghost use Rattle.std.specs.Iterator.{YieldsFirstBy, item_count};
ghost use Rattle.wire.specs.Bytes.{KindOf, kind_number, shares_left, read_shares};
ghost use Rattle.wire.specs.Bytes.{CallsReadBack, ReadsRightly, AnswersReadBack};

// A call: mother and father of one who is born, each 0 or one more than a number; those who wed; one of two who part; who dies; whose estate is asked for.
#[derive(Clone, Copy, Debug, PartialEq, Eq)]
pub enum Request {
    Born(u32, u32),
    Wed(u32, u32),
    Parted(u32),
    Dies(u32),
    EstateOf(u32),
}

// Bytes that are no call: the place of the first that doesn't fit.
#[derive(Clone, Copy, Debug, PartialEq, Eq)]
pub struct Unreadable {
    pub at: u32,
}

// The kind of a call, which its first byte says.
#[derive(Clone, Copy, Debug, PartialEq, Eq)]
enum Kind {
    Born,
    Wed,
    Parted,
    Dies,
    EstateOf,
}

impl TryFrom<u8> for Kind {
    type Error = Unreadable;

    ghost try_from_gives = { KindOf };

    fn try_from(byte: u8) -> Result<Self, Unreadable> {
        match byte {
            0 => Ok(Kind::Born),
            1 => Ok(Kind::Wed),
            2 => Ok(Kind::Parted),
            3 => Ok(Kind::Dies),
            4 => Ok(Kind::EstateOf),
            _ => Err(Unreadable { at: 0 }),
        }
    }
}

impl Kind {
    // How many bytes a call of the kind has.
    fn size(self) -> usize
        ensures value { result ≡ call_size (kind_number self) }
    {
        match self {
            Kind::Born | Kind::Wed => 9,
            Kind::Parted | Kind::Dies | Kind::EstateOf => 5,
        }
    }
}

// An heir's share: up by down of the estate.
#[derive(Clone, Copy, Debug, PartialEq, Eq)]
pub struct Share {
    pub who: u32,
    pub up: u64,
    pub down: u64,
}

// An answer: a refusal and its place, a number, or the shares of an estate.
// Refusals are numbers here, since the bytes of an answer can hold any number.
#[derive(Clone, Copy, Debug, PartialEq, Eq)]
pub enum Answer<S> {
    Refused(u32, u32),
    Number(u32),
    Shares(S),
}

// An answer that is written, with its shares.
pub type Reply<'a> = Answer<&'a [Share]>;

// What an answer's bytes begin with, with how many shares there are.
pub type Reading = Answer<u32>;

// The kinds of answers, by their first byte.
const REFUSED: u8 = 0;

const NUMBER: u8 = 1;

const SHARES: u8 = 2;

// The number in the four bytes from a place on.
fn word_at(bytes: &[u8], at: usize) -> u32
    requires room { at + 4 ≤ length bytes.now }
    ensures value { result ≡ num4 bytes.now at }
{
    u32::from_le_bytes(*bytes[at..].first_chunk().unwrap())
}

// The number in the eight bytes from a place on.
fn long_at(bytes: &[u8], at: usize) -> u64
    requires room { at + 8 ≤ length bytes.now }
    ensures value { result ≡ num8 bytes.now at }
{
    u64::from_le_bytes(*bytes[at..].first_chunk().unwrap())
}

// Writes a kind and the values of a call or an answer.
fn put_row(out: &mut [u8], kind: u8, values: &[u32])
    requires room { 1 + 4 * length values.now ≤ length out.old }
    ensures left { out.new ≡ written 0 (row_bytes kind values.now []) out.old }
{
    out[0] = kind;
    for (i, value) in values.iter().enumerate() {
        rows::put(out, 1 + 4 * i, &value.to_le_bytes());
    }
}

// How many bytes a call has, by its first byte; none where that is no call's.
pub fn call_length(kind: u8) -> Option<usize>
    ensures value { result ≡ call_length kind }
{
    Kind::try_from(kind).ok().map(|kind| kind.size())
}

// The call of a kind in a row of bytes that is as long as the kind says.
fn request_in(kind: Kind, row: &[u8]) -> Request
    requires whole { length row.now ≡ call_size (kind_number kind) }
    ensures value { call_of result ≡ call_with (kind_number kind) (num4 row.now 1) (num4 row.now 5) }
{
    match kind {
        Kind::Born => Request::Born(word_at(row, 1), word_at(row, 5)),
        Kind::Wed => Request::Wed(word_at(row, 1), word_at(row, 5)),
        Kind::Parted => Request::Parted(word_at(row, 1)),
        Kind::Dies => Request::Dies(word_at(row, 1)),
        Kind::EstateOf => Request::EstateOf(word_at(row, 1)),
    }
}

// The call that a row of bytes is, or the place of the first byte that doesn't fit.
pub fn decode(row: &[u8]) -> Result<Request, Unreadable>
    ensures value { call_from result ≡ read row.now }
{
    let Some(first) = row.first() else {
        return Err(Unreadable { at: 0 });
    };
    let kind = Kind::try_from(*first)?;
    let size = kind.size();
    if row.len() < size {
        return Err(Unreadable {
            at: row.len() as u32,
        });
    }
    if row.len() > size {
        return Err(Unreadable { at: size as u32 });
    }
    Ok(request_in(kind, row))
}

// Writes a call of a kind, and says how many bytes it has. None where there is no room.
fn lay_call(out: &mut [u8], kind: Kind, values: &[u32]) -> Option<usize>
    requires few { length values.now ≤ 2 }
    ensures left { out.new ≡ laid_over (row_bytes (kind_number kind) values.now []) out.old }
    ensures value { result ≡ laid_length (row_bytes (kind_number kind) values.now []) out.old }
{
    let length = 1 + 4 * values.len();
    if out.len() < length {
        return None;
    }
    put_row(out, kind as u8, values);
    Some(length)
}

// Writes a call from the start on and says how many bytes it has. What lies behind stays as it was.
// None where there is no room: all bytes then stay as they were.
pub fn put_call(request: Request, out: &mut [u8]) -> Option<usize>
    ensures left { out.new ≡ laid_over (call_bytes (call_of request)) out.old }
    ensures value { result ≡ laid_length (call_bytes (call_of request)) out.old }
{
    match request {
        Request::Born(mother, father) => lay_call(out, Kind::Born, &[mother, father]),
        Request::Wed(first, second) => lay_call(out, Kind::Wed, &[first, second]),
        Request::Parted(who) => lay_call(out, Kind::Parted, &[who]),
        Request::Dies(who) => lay_call(out, Kind::Dies, &[who]),
        Request::EstateOf(who) => lay_call(out, Kind::EstateOf, &[who]),
    }
}

// Calls read back: the bytes of a call whose values fit are that call.
pub fn call_again()
    ensures holds { CallsReadBack }
{}

// Reading is right: only a call's own bytes are read as that call, and all others are unreadable at the first byte that doesn't fit.
pub fn reads_rightly()
    ensures holds { ReadsRightly }
{}

// Writes the answer that a call is refused, by which refusal and at which place.
pub fn put_refusal(out: &mut [u8], refusal: u32, place: u32)
    requires room { 9 ≤ length out.old }
    ensures left { out.new ≡ written 0 (answer_bytes (refused refusal place)) out.old }
{
    put_row(out, REFUSED, &[refusal, place]);
}

// Writes the answer that is a number.
pub fn put_number(out: &mut [u8], value: u32)
    requires room { 5 ≤ length out.old }
    ensures left { out.new ≡ written 0 (answer_bytes (number value)) out.old }
{
    put_row(out, NUMBER, &[value]);
}

// Writes what an answer of so many shares begins with.
pub fn put_count(out: &mut [u8], count: u32)
    requires room { 5 ≤ length out.old }
    ensures left { out.new ≡ written 0 (shares_begun count []) out.old }
{
    put_row(out, SHARES, &[count]);
}

// Writes a share from a place on.
fn write_share(part: &mut [u8], at: usize, share: Share)
    requires room { at + 20 ≤ length part.old }
    ensures left { part.new ≡ written at (share_bytes (law_share share)) part.old }
{
    rows::put(part, at, &share.who.to_le_bytes());
    rows::put(part, at + 4, &share.up.to_le_bytes());
    rows::put(part, at + 12, &share.down.to_le_bytes());
}

// Writes the share with an index into its place in the answer, behind the count.
pub fn put_share(out: &mut [u8], index: usize, share: Share)
    requires room { 25 + 20 * index ≤ length out.old }
    ensures left { out.new ≡ written (5 + 20 * index) (share_bytes (law_share share)) out.old }
{
    write_share(&mut out[5..], 20 * index, share);
}

// Writes the answer that is shares.
fn put_shares(out: &mut [u8], heirs: &[Share])
    requires room { 5 + 20 * length heirs.now ≤ length out.old }
    requires few { length heirs.now < 4294967296 }
    ensures left { out.new ≡ written 0 (answer_bytes (shares (map law_share heirs.now))) out.old }
{
    put_count(out, heirs.len() as u32);
    for (i, share) in heirs.iter().enumerate() {
        put_share(out, i, *share);
    }
}

// How many bytes an answer has; none where its count of shares does not fit four bytes.
fn reply_length(reply: Reply) -> Option<usize>
    ensures value { result ≡ (if nat_lt (length (answer_shares (answer_of reply.entry))) 4294967296 then Some (length (answer_bytes (answer_of reply.entry))) else None) }
{
    match reply {
        Reply::Refused(_, _) => Some(9),
        Reply::Number(_) => Some(5),
        Reply::Shares(heirs) => {
            if heirs.len() > u32::MAX as usize {
                return None;
            }
            Some(5 + 20 * heirs.len())
        }
    }
}

// Writes an answer from the start on and says how many bytes it has. What lies behind stays as it was.
// None where it doesn't go into the bytes, which then all stay as they were.
pub fn encode(reply: Reply, out: &mut [u8]) -> Option<usize>
    ensures left { out.new ≡ (if answer_fits (answer_of reply.entry) out.old then written 0 (answer_bytes (answer_of reply.entry)) out.old else out.old) }
    ensures value { result ≡ (if answer_fits (answer_of reply.entry) out.old then Some (length (answer_bytes (answer_of reply.entry))) else None) }
{
    let size = reply_length(reply)?;
    if out.len() < size {
        return None;
    }
    match reply {
        Reply::Refused(refusal, place) => put_refusal(out, refusal, place),
        Reply::Number(value) => put_number(out, value),
        Reply::Shares(heirs) => put_shares(out, heirs),
    }
    Some(size)
}

// What a row of bytes begins with, if it is an answer.
pub fn read_answer(bytes: &[u8]) -> Option<Reading>
    ensures value { answer_from result bytes.now ≡ answer_read bytes.now }
{
    if bytes.len() < 5 {
        return None;
    }
    let first = word_at(bytes, 1);
    match bytes[0] {
        REFUSED if bytes.len() == 9 => Some(Reading::Refused(first, word_at(bytes, 5))),
        NUMBER if bytes.len() == 5 => Some(Reading::Number(first)),
        SHARES if bytes.len() == 5 + 20 * first as usize => Some(Reading::Shares(first)),
        _ => None,
    }
}

// The share in the twenty bytes from a place on.
fn share_at(bytes: &[u8], at: usize) -> Share
    requires room { at + 20 ≤ length bytes.now }
    ensures value { law_share result ≡ share_at bytes.now at }
{
    Share {
        who: word_at(bytes, at),
        up: long_at(bytes, at + 4),
        down: long_at(bytes, at + 12),
    }
}

// The share with an index, if a row of bytes is an answer that has it.
pub fn read_share(bytes: &[u8], index: u32) -> Option<Share>
    ensures value { share_from result ≡ share_in (answer_read bytes.now) index }
{
    let Reading::Shares(count) = read_answer(bytes)? else {
        return None;
    };
    if index >= count {
        return None;
    }
    Some(share_at(bytes, 5 + 20 * index as usize))
}

// The shares in bytes, one after the other.
#[derive(Drop)]
pub struct SharesIn<'a> {
    rest: &'a [u8],
}

impl<'a> Iterator for SharesIn<'a> {
    type Item = Share;

    ghost next_gives = { YieldsFirstBy law_share shares_left };

    ghost remaining = { item_count shares_left };

    fn next(&mut self) -> Option<Share> {
        let (first, rest) = self.rest.split_first_chunk::<20>()?;
        self.rest = rest;
        Some(share_at(first, 0))
    }
}

// The shares in a row of bytes, in their order; none where it is no answer of shares.
pub fn shares_in(bytes: &[u8]) -> SharesIn<'_>
    ensures value { shares_left result ≡ read_shares (answer_read bytes.now) }
{
    match read_answer(bytes) {
        Some(Reading::Shares(_)) => SharesIn { rest: &bytes[5..] },
        Some(Reading::Refused(_, _)) => SharesIn { rest: &[] },
        Some(Reading::Number(_)) => SharesIn { rest: &[] },
        None => SharesIn { rest: &[] },
    }
}

// Answers read back: the bytes of an answer whose values fit are that answer.
pub fn answer_again()
    ensures holds { AnswersReadBack }
{}

#[cfg(test)]
mod tests {
    use super::*;

    #[test]
    fn no_call_at_all(rt: HostRuntime) {
        assert_eq!(rt; decode(&[]), Err(Unreadable { at: 0 }));
        assert_eq!(rt; decode(&[5]), Err(Unreadable { at: 0 }));
        assert_eq!(rt; decode(&[255, 0, 0, 0, 0]), Err(Unreadable { at: 0 }));
        assert_eq!(rt; decode(&[7; 40]), Err(Unreadable { at: 0 }));
    }

    #[test]
    fn too_short_or_too_long(rt: HostRuntime) {
        for (kind, size) in [(0, 9), (1, 9), (2, 5), (3, 5), (4, 5)] {
            let mut row = [0; 10];
            row[0] = kind;
            assert_eq!(rt; call_length(kind), Some(size));
            for n in 1..size {
                assert_eq!(rt; decode(&row[0..n]), Err(Unreadable { at: n as u32 }));
            }
            assert!(rt; decode(&row[0..size]).is_ok());
            assert_eq!(rt;
                decode(&row[0..size + 1]),
                Err(Unreadable { at: size as u32 })
            );
        }
    }

    #[test]
    fn answers_again(rt: HostRuntime) {
        let mut out = [7; 10];
        assert_eq!(rt; encode(Reply::Number(258), &mut out), Some(5));
        assert!(rt; out[0] == 1 && out[1] == 2 && out[2] == 1 && out[5] == 7);
        assert_eq!(rt; read_answer(&out[0..5]), Some(Reading::Number(258)));
        assert_eq!(rt; encode(Reply::Refused(5, 65536), &mut out), Some(9));
        assert_eq!(rt; read_answer(&out[0..9]), Some(Reading::Refused(5, 65536)));
        assert_eq!(rt; read_answer(&out), None);
    }

    #[test]
    fn shares_again(rt: HostRuntime) {
        let heirs = [
            Share {
                who: 2,
                up: 1,
                down: 4,
            },
            Share {
                who: 65536,
                up: 3,
                down: 4294967296,
            },
        ];
        let mut out = [7; 46];
        assert_eq!(rt; encode(Reply::Shares(&heirs), &mut out), Some(45));
        assert_eq!(rt; read_share(&out[0..45], 1), Some(heirs[1]));
        assert_eq!(rt; read_share(&out[0..45], 2), None);
        assert_eq!(rt; read_share(&out, 1), None);
        assert!(rt; shares_in(&out[0..45]).eq(heirs));
        assert_eq!(rt; shares_in(&out).next(), None);
    }

    #[test]
    fn calls_again(rt: HostRuntime) {
        let mut out = [7; 9];
        let birth = Request::Born(1, 4294967295);
        assert_eq!(rt; put_call(birth, &mut out), Some(9));
        assert_eq!(rt; decode(&out), Ok(birth));
        assert_eq!(rt; put_call(Request::EstateOf(6), &mut out[0..4]), None);
        assert_eq!(rt; put_call(Request::EstateOf(6), &mut out), Some(5));
        assert_eq!(rt; decode(&out), Err(Unreadable { at: 5 }));
    }
}
