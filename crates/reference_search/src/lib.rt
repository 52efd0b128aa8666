// The next `&` of a piece that may begin a form: the bytes before it are let out as they came. Most
// `&` that begin none are told by the byte after them, 64 places at a time.
#![tactic(auto)]

ghost use Rattle.std.specs.Prelude.{◌≡◌, ◌+◌, ◌≤◌, ◌<◌, length};
ghost use Rattle.byte_search.specs.BlockTests.{NoneBefore};
ghost use Rattle.reference_search.specs.Candidates.{may_follow_amp, candidate_at, LiteralEnd};

use byte_search::{find_in_turn, first_in_block, skip_blocks};

// Whether a byte is the second one of some form.
fn may_follow_amp(c: u8) -> bool
    ensures { result ≡ may_follow_amp c }
{
    (c == b'#') | (c == b'a') | (c == b'g') | (c == b'l') | (c == b'q')
}

// Whether a `&` and then such a byte stand at i.
fn is_candidate(text: &[u8], i: usize) -> bool
    requires { i + 1 < length text.now }
    ensures { result ≡ candidate_at text.now i }
{
    (text[i] == b'&') & may_follow_amp(text[i + 1])
}

// The first of the 64 places from i on where they stand, or the place after them. Mostly the first `&` is the one.
fn first_candidate(text: &[u8], i: usize) -> usize
    requires { i + 64 < length text.now }
    ensures { NoneBefore (candidate_at text.now) i (i + 64) result }
{
    let j = first_in_block::<64, _>(|k| text[k] == b'&', i);
    if j - i < 64 && is_candidate(text, j) {
        return j;
    }
    first_in_block::<64, _>(|k| is_candidate(text, k), i)
}

// The next such place, or `end`: blocks are searched for any `&`, and closer where one stands.
fn find_candidate(text: &[u8], i: usize, end: usize) -> usize
    requires i_le_end { i ≤ end }
    requires end_in_bounds { end < length text.now }
    ensures { NoneBefore (candidate_at text.now) i end result }
{
    // A `while`, since a turn goes on from where its block ended.
    let mut i = i;
    while i < end {
        let at = skip_blocks::<64, _>(|k| text[k] == b'&', i, end);
        if end - at < 64 {
            return find_in_turn(|k| is_candidate(text, k), at, end);
        }
        let j = first_candidate(text, at);
        if j - at < 64 {
            return j;
        }
        i = j;
    }
    i
}

// The place up to which the bytes from i on are let out as they came, whatever follows: that of a `&`
// that may begin a form, or the end.
pub fn literal_end(text: &[u8], i: usize) -> usize
    requires { i < length text.now }
    ensures { LiteralEnd text.now i result }
{
    let last = text.len() - 1;
    let e = find_candidate(text, i, last);
    if e < last {
        return e;
    }
    if text[last] == b'&' {
        return last;
    }
    text.len()
}
