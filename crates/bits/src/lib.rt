// Sets of numbers as bits of words in lent memory: member p is bit p % 32 of word p / 32, from the place on where the set lies.
// Each function says what it does by words, and in the clause `sets` of a set whose m words lie between others in memory.
#![tactic(auto)]

ghost use Rattle.std.specs.Prelude.{◌≡◌, ℕ, ◌+◌, ◌*◌, ◌/◌, ◌%◌, ◌<◌, ◌≤◌, Bool, List, ◌++◌, length, replicate, IfSome, slice_index, slice_set};
ghost use Rattle.bits.specs.Sets.{bit_row, member_in, members, no_member, with_member, without_member};
ghost use Rattle.bits.specs.Words.{inserted, removed};
ghost use Rattle.rows.specs.Written.{written};
ghost use Rattle.std.specs.List.{slice_get};

// Says whether p is a member.
pub fn contains(memory: &[u32], at: usize, p: u32) -> bool
    requires room { at + p / 32 < length memory.now }
    ensures value { result ≡ member_in memory.now at p }
    ensures sets { (front rest : List ℕ) (m : ℕ) (s : ℕ → Bool) → memory.now ≡ front ++ (bit_row m s ++ rest) → length front ≡ at → p < 32 * m → result ≡ s p }
{
    (memory[at + (p / 32) as usize] >> (p % 32)) % 2 == 1
}

// Makes p a member.
pub fn insert(memory: &mut [u32], at: usize, p: u32)
    requires room { at + p / 32 < length memory.old }
    ensures left { memory.new ≡ slice_set memory.old (at + p / 32) (inserted (slice_index memory.old (at + p / 32)) (p % 32)) }
    ensures sets { (front rest : List ℕ) (m : ℕ) (s : ℕ → Bool) → memory.old ≡ front ++ (bit_row m s ++ rest) → length front ≡ at → p < 32 * m → memory.new ≡ front ++ (bit_row m (with_member s p) ++ rest) }
{
    memory[at + (p / 32) as usize] |= 1 << (p % 32);
}

// Makes p no member.
pub fn remove(memory: &mut [u32], at: usize, p: u32)
    requires room { at + p / 32 < length memory.old }
    ensures left { memory.new ≡ slice_set memory.old (at + p / 32) (removed (slice_index memory.old (at + p / 32)) (p % 32)) }
    ensures sets { (front rest : List ℕ) (m : ℕ) (s : ℕ → Bool) → memory.old ≡ front ++ (bit_row m s ++ rest) → length front ≡ at → p < 32 * m → memory.new ≡ front ++ (bit_row m (without_member s p) ++ rest) }
{
    memory[at + (p / 32) as usize] &= !(1 << (p % 32));
}

// Removes all members: sets so many words to 0.
pub fn clear(memory: &mut [u32], at: usize, words: usize)
    requires room { at + words ≤ length memory.old }
    ensures left { memory.new ≡ written at (replicate words 0) memory.old }
    ensures sets { (front row rest : List ℕ) → memory.old ≡ front ++ (row ++ rest) → length front ≡ at → length row ≡ words → memory.new ≡ front ++ (bit_row words no_member ++ rest) }
{
    memory[at..at + words].fill(0);
}

// Returns the least member p with from <= p < end.
pub fn next(memory: &[u32], at: usize, from: u32, end: u32) -> Option<u32>
    requires room { at + (end + 31) / 32 ≤ length memory.now }
    ensures value { result ≡ slice_get (members (member_in memory.now at) from end) 0 }
    ensures within { IfSome result (λ p. (from ≤ p) × (p < end)) }
    ensures sets { (front rest : List ℕ) (m : ℕ) (s : ℕ → Bool) → memory.now ≡ front ++ (bit_row m s ++ rest) → length front ≡ at → end ≤ 32 * m → result ≡ slice_get (members s from end) 0 }
{
    let mut p = from;
    while p < end {
        let word = memory[at + (p / 32) as usize] >> (p % 32);
        if word != 0 {
            let q = p + word.trailing_zeros();
            return (q < end).then_some(q);
        }
        p = p.checked_add(32 - p % 32)?;
    }
    None
}

#[cfg(test)]
mod tests {
    use super::*;

    #[test]
    fn members_come_and_go(rt: HostRuntime) {
        let mut memory = [7, 0, 0, 7];
        insert(&mut memory, 1, 0);
        insert(&mut memory, 1, 31);
        insert(&mut memory, 1, 32);
        insert(&mut memory, 1, 31);
        remove(&mut memory, 1, 0);
        remove(&mut memory, 1, 63);
        assert!(rt; !contains(&memory, 1, 0));
        assert!(rt; contains(&memory, 1, 31));
        assert!(rt; contains(&memory, 1, 32));
        assert_eq!(rt; memory, [7, 0x8000_0000, 1, 7]);
    }

    #[test]
    fn members_in_their_order(rt: HostRuntime) {
        let memory = [7, 0x8000_0010, 0, 3];
        assert_eq!(rt; next(&memory, 1, 0, 96), Some(4));
        assert_eq!(rt; next(&memory, 1, 5, 96), Some(31));
        assert_eq!(rt; next(&memory, 1, 32, 96), Some(64));
        assert_eq!(rt; next(&memory, 1, 32, 64), None);
        assert_eq!(rt; next(&memory, 1, 5, 31), None);
        assert_eq!(rt; next(&memory, 1, 65, 66), Some(65));
        assert_eq!(rt; next(&memory, 1, 66, 96), None);
    }

    #[test]
    fn no_member_is_left(rt: HostRuntime) {
        let mut memory = [7, 7, 7, 7];
        clear(&mut memory, 1, 2);
        assert_eq!(rt; memory, [7, 0, 0, 7]);
    }
}
