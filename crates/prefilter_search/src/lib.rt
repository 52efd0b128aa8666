// The next candidate by the tests of a prefilter: a byte whose table entry meets a mask, a byte of a range, a start
// that has a pair of bytes. A scan skips what lies before it.
#![tactic(auto)]

ghost use Rattle.std.specs.Prelude.{◌≡◌, ◌+◌, ◌<◌, ◌≤◌, length};
ghost use Rattle.byte_search.specs.BlockTests.{NoneBefore};
ghost use Rattle.prefilter_search.specs.Candidates.{in_table, in_range, pair_at};

use byte_search::{byte_index, find, find_in_turn, skip_whole_blocks};

// The next byte whose entry meets the mask `next`, or the text's end.
pub fn find_in_table(table: &[u64], next: u64, text: &[u8], i: usize) -> usize
    requires table_len { length table.now ≡ 256 }
    requires i_in_bounds { i ≤ length text.now }
    ensures { NoneBefore (in_table table.now next text.now) i (length text.now) result }
{
    let test = |k: usize| table[byte_index(text[k])] & next != 0;
    let j = skip_whole_blocks::<8, _>(test, i, text.len());
    find_in_turn(test, j, text.len())
}

// The next byte from lo to hi, or `end`.
pub fn find_in_range(text: &[u8], lo: u8, hi: u8, i: usize, end: usize) -> usize
    requires end_in_bounds { end ≤ length text.now }
    requires i_le_end { i ≤ end }
    ensures { NoneBefore (in_range text.now lo hi) i end result }
{
    find::<64, _>(|k| (lo <= text[k]) & (text[k] <= hi), i, end)
}

// The next start that has the byte x at the offset a and y at b, or `end`.
pub fn find_pair(text: &[u8], a: usize, b: usize, x: u8, y: u8, i: usize, end: usize) -> usize
    requires a_lt_b { a < b }
    requires b_in_bounds { end + b ≤ length text.now }
    requires i_le_end { i ≤ end }
    ensures { NoneBefore (pair_at text.now a b x y) i end result }
{
    find::<64, _>(|k| (text[k + a] == x) & (text[k + b] == y), i, end)
}
