// Lent rows, and what is written over a part of them.
#![tactic(auto)]

ghost use Rattle.std.specs.Prelude.{◌≡◌, ◌+◌, ◌≤◌, length, replicate};
ghost use Rattle.rows.specs.Written.{written};

// Writes items over a row, from a place on.
pub fn put<T: Copy>(row: &mut [T], at: usize, items: &[T])
    requires room { at + length items.now ≤ length row.old }
    ensures left { row.new ≡ written at items.now row.old }
{
    row[at..at + items.len()].copy_from_slice(items);
}

// Sets so many words to 0, from a place on.
pub fn clear(row: &mut [u32], at: usize, count: usize)
    requires room { at + count ≤ length row.old }
    ensures left { row.new ≡ written at (replicate count 0) row.old }
{
    row[at..at + count].fill(0);
}
