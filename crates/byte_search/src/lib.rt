// The next place that passes a test, as memchr finds a byte. The test is a closure over what it reads, and
// is compiled into each search that it is passed to. A block of N places is tested with no branch between
// them, so that the compiler makes it vector code: whether one of them passes, or the first that does.
// Blocks where none does are skipped; what is left is tested place by place.
#![tactic(auto)]

ghost use Rattle.std.specs.Prelude.{◌≡◌, ℕ, ◌+◌, ◌<◌, ◌≤◌, false, length};
ghost use Rattle.byte_search.specs.BlockTests.{NoneBefore, NoneFound, same};

// A byte as an index. Its contract tells a caller the bound, so that no proof in a loop has to.
pub fn byte_index(c: u8) -> usize
    ensures { (result ≡ c) × (result < 256) }
{
    usize::from(c)
}

// Whether one of the N places from i on passes.
pub fn any_in_block<const N: u8, F: Fn(usize) -> bool + Copy>(test: F, i: usize) -> bool
    requires fits { i + N ≤ usize.MAX }
    requires callable { (k : ℕ) → k < i + N → F.pre test k }
    ensures { result ≡ false → NoneFound (F.post test) i (i + N) (i + N) }
{
    let mut any = false;
    for j in 0..N {
        any = any | test(i + usize::from(j));
    }
    any
}

// The lane j of a block where it passes the test, else the block's end.
pub fn lane_or_end<const N: u8>(hit: bool, j: u8) -> u8
    requires { j < N }
    ensures few { result ≤ N }
    ensures over { j < result → hit ≡ false }
{
    if hit { j } else { N }
}

// The first of them, or the place after them. Lanes are bytes, so that the compiler takes the least of many at once.
pub fn first_in_block<const N: u8, F: Fn(usize) -> bool + Copy>(test: F, i: usize) -> usize
    requires fits { i + N ≤ usize.MAX }
    requires callable { (k : ℕ) → k < i + N → F.pre test k }
    ensures { NoneFound (F.post test) i (i + N) result }
{
    let mut first = N;
    for j in 0..N {
        let hit = test(i + usize::from(j));
        first = first.min(lane_or_end::<N>(hit, j));
    }
    i + usize::from(first)
}

// Skips whole blocks where none passes: the place up to which none does.
pub fn skip_whole_blocks<const N: u8, F: Fn(usize) -> bool + Copy>(
    test: F,
    i: usize,
    end: usize,
) -> usize
    requires nonempty { 0 < N }
    requires i_le_end { i ≤ end }
    requires callable { (k : ℕ) → k < end → F.pre test k }
    ensures { NoneFound (F.post test) i end result }
{
    let size = usize::from(N);
    // A `while`, since the place that the blocks reach is the answer.
    let mut i = i;
    while size <= end - i {
        if any_in_block::<N, F>(test, i) {
            return i;
        }
        i += size;
    }
    i
}

// The same, the last block being the last N places, which may begin in one that is passed.
pub fn skip_blocks<const N: u8, F: Fn(usize) -> bool + Copy>(test: F, i: usize, end: usize) -> usize
    requires nonempty { 0 < N }
    requires i_le_end { i ≤ end }
    requires callable { (k : ℕ) → k < end → F.pre test k }
    ensures { NoneFound (F.post test) i end result }
{
    let size = usize::from(N);
    if end < size {
        return i;
    }
    let last = end - size;
    // A `while` for the same reason.
    let mut i = i;
    while i < end {
        let at = i.min(last);
        if any_in_block::<N, F>(test, at) {
            return i;
        }
        i = at + size;
    }
    i
}

// The next one, place by place, or `end`.
pub fn find_in_turn<F: Fn(usize) -> bool + Copy>(test: F, i: usize, end: usize) -> usize
    requires i_le_end { i ≤ end }
    requires callable { (k : ℕ) → k < end → F.pre test k }
    ensures { NoneFound (F.post test) i end result }
{
    for j in i..end {
        if test(j) {
            return j;
        }
    }
    end
}

// The next one, or `end`, where it is likely to be far.
fn find_far<const N: u8, F: Fn(usize) -> bool + Copy>(test: F, i: usize, end: usize) -> usize
    requires nonempty { 0 < N }
    requires i_le_end { i ≤ end }
    requires callable { (k : ℕ) → k < end → F.pre test k }
    ensures { NoneFound (F.post test) i end result }
{
    let j = skip_blocks::<N, F>(test, i, end);
    if end - j < usize::from(N) {
        return find_in_turn(test, j, end);
    }
    first_in_block::<N, F>(test, j)
}

// The next one, or `end`: the first block tells its place at once.
pub fn find<const N: u8, F: Fn(usize) -> bool + Copy>(test: F, i: usize, end: usize) -> usize
    requires nonempty { 0 < N }
    requires i_le_end { i ≤ end }
    requires callable { (k : ℕ) → k < end → F.pre test k }
    ensures { NoneFound (F.post test) i end result }
{
    if end - i < usize::from(N) {
        return find_far::<N, F>(test, i, end);
    }
    let j = first_in_block::<N, F>(test, i);
    if j - i < usize::from(N) {
        return j;
    }
    find_far::<N, F>(test, j, end)
}

// The next place of the byte x, or `end`.
pub fn find_byte(text: &[u8], x: u8, i: usize, end: usize) -> usize
    requires end_in_bounds { end ≤ length text.now }
    requires i_le_end { i ≤ end }
    ensures { NoneBefore (same text.now x) i end result }
{
    find::<64, _>(|k| text[k] == x, i, end)
}
