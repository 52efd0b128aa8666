// Loops for texts on which a branch cannot be predicted: whether the next byte needs the flood, or ends an
// occurrence. They flood at each byte, as the formula does, and one of them stores ends without a branch.
// They promise what every loop promises. `closure_unpredictable` tells such texts by the next bytes; only
// speed depends on what it says.
#![tactic(auto)]

ghost use Rattle.std.specs.Prelude.{◌≡◌, ◌<◌, ◌≤◌, true, length, if◌then◌else◌, nat_eq};
ghost use Rattle.shift_and_step.specs.Stepping.{TableFits};
ghost use Rattle.shift_and_loop.specs.Loops.{Advanced, HasRoom};
ghost use Rattle.shift_and_step.specs.ClosedStates.{ClosureMasksOf, Closed};
ghost use Rattle.shift_and_dense.specs.Branchless.{AcceptBit};

use shift_and_loop::Cursor;
use shift_and_step::{ClosureMasks, Masks};

// Steps up to `until`, and floods at each byte, where the blocks are separated.
fn loop_separated(
    table: &[u64],
    m: Masks,
    q: ClosureMasks,
    until: usize,
    text: &[u8],
    ends: &mut [u32],
    s: Cursor,
) -> Cursor
    requires closure_masks_of { ClosureMasksOf m.optional q }
    requires separated_value { q.separated ≡ true }
    requires table_fits { TableFits table.now m }
    requires has_room { HasRoom s until text.now ends.old }
    requires closed { Closed m s.d }
    ensures { Advanced table.now m text.now ends.old s.d s.at s.n s.i result ends.new }
{
    let mut d = s.d;
    let mut n = s.n;
    let mut i = s.i;
    while i < until {
        let c = byte_search::byte_index(text[i]);
        d = shift_and_step::step_closure_separated(d, table[c], m, q);
        i += 1;
        if shift_and::accepts(d, m.top) {
            ends[n] = shift_and_loop::count_before(s, i);
            n += 1;
        }
    }
    Cursor {
        d: d,
        at: shift_and_loop::count_before(s, i),
        n: n,
        i: i,
    }
}

// The same for any blocks.
fn loop_closure_always(
    table: &[u64],
    m: Masks,
    q: ClosureMasks,
    until: usize,
    text: &[u8],
    ends: &mut [u32],
    s: Cursor,
) -> Cursor
    requires closure_masks_of { ClosureMasksOf m.optional q }
    requires table_fits { TableFits table.now m }
    requires has_room { HasRoom s until text.now ends.old }
    requires closed { Closed m s.d }
    ensures { Advanced table.now m text.now ends.old s.d s.at s.n s.i result ends.new }
{
    let mut d = s.d;
    let mut n = s.n;
    let mut i = s.i;
    while i < until {
        let c = byte_search::byte_index(text[i]);
        d = shift_and_step::step_closure_always(d, table[c], m, q);
        i += 1;
        if shift_and::accepts(d, m.top) {
            ends[n] = shift_and_loop::count_before(s, i);
            n += 1;
        }
    }
    Cursor {
        d: d,
        at: shift_and_loop::count_before(s, i),
        n: n,
        i: i,
    }
}

// Whether the top position reports an end, as a number.
fn accept_bit(d: u64, top: u64) -> u64
    requires { top < 64 }
    ensures { AcceptBit top d result }
{
    (d >> top) % 2
}

// `at` where hit is 1, `old` where it is 0, without a branch.
fn select(hit: u64, at: u32, old: u32) -> u32
    requires { hit < 2 }
    ensures { result ≡ (if nat_eq hit 1 then at else old) }
{
    let mask = std::num::wrapping_sub_u32(0, hit as u32);
    old ^ ((old ^ at) & mask)
}

// The same where the blocks are separated and ends stand close: each byte writes an entry, the end or what
// stood there.
fn loop_branchless(
    table: &[u64],
    m: Masks,
    q: ClosureMasks,
    until: usize,
    text: &[u8],
    ends: &mut [u32],
    s: Cursor,
) -> Cursor
    requires closure_masks_of { ClosureMasksOf m.optional q }
    requires separated_value { q.separated ≡ true }
    requires table_fits { TableFits table.now m }
    requires has_room { HasRoom s until text.now ends.old }
    requires closed { Closed m s.d }
    ensures { Advanced table.now m text.now ends.old s.d s.at s.n s.i result ends.new }
{
    let mut d = s.d;
    let mut n = s.n;
    let mut i = s.i;
    while i < until {
        let c = byte_search::byte_index(text[i]);
        d = shift_and_step::step_closure_separated(d, table[c], m, q);
        i += 1;
        let hit = accept_bit(d, m.top);
        let at = shift_and_loop::count_before(s, i);
        ends[n] = select(hit, at, ends[n]);
        n += hit as usize;
    }
    Cursor {
        d: d,
        at: shift_and_loop::count_before(s, i),
        n: n,
        i: i,
    }
}

// The loop without a test for the flood: at least one byte, and only one where the state is not closed. Never
// inline: in its caller most of the masks lie in memory.
#[inline(never)]
pub fn run_dense_loop(
    table: &[u64],
    m: Masks,
    q: ClosureMasks,
    many: bool,
    until: usize,
    text: &[u8],
    ends: &mut [u32],
    s: Cursor,
) -> Cursor
    requires closure_masks_of { ClosureMasksOf m.optional q }
    requires table_fits { TableFits table.now m }
    requires has_room { HasRoom s until text.now ends.old }
    ensures { Advanced table.now m text.now ends.old s.d s.at s.n s.i result ends.new }
{
    if shift_and_step::is_closed(m, q, s.d) {
        if q.separated {
            if many {
                return loop_branchless(table, m, q, until, text, ends, s);
            }
            return loop_separated(table, m, q, until, text, ends, s);
        }
        return loop_closure_always(table, m, q, until, text, ends, s);
    }
    shift_and_loop::loop_once(table, m, text, ends, s)
}

// How many bytes are tried ahead; and of how many floods, or changes between flooding and not, a loop with
// a test for them does not pay. Where the blocks are not separated a flood costs more: then it takes more
// changes.
const AHEAD: usize = 32;

const FLOODS: u64 = 30;

const CHANGES: u64 = 5;

const MORE_CHANGES: u64 = 8;

fn one_if_any(x: u64) -> u64 {
    if x == 0 {
        return 0;
    }
    1
}

// Whether the bytes from i on flood nearly all, or now and then. It takes no branch on what it counts.
fn changes_often(
    table: &[u64],
    m: Masks,
    q: ClosureMasks,
    d: u64,
    until: usize,
    text: &[u8],
    i: usize,
) -> bool
    requires closure_masks_of { ClosureMasksOf m.optional q }
    requires table_len { length table.now ≡ 256 }
    requires closed { Closed m d }
    requires until_in_bounds { until ≤ length text.now }
{
    let mut d = d;
    let mut i = i;
    let mut floods = 0;
    let mut changes = 0;
    let mut was = 0;
    while i < until {
        let c = byte_search::byte_index(text[i]);
        d = shift_and_step::step_closure_always(d, table[c], m, q);
        i += 1;
        let is = one_if_any(d & q.closing);
        floods = std::num::wrapping_add_u64(floods, is);
        changes = std::num::wrapping_add_u64(changes, is ^ was);
        was = is;
    }
    if q.separated {
        if floods >= FLOODS {
            return true;
        }
        return changes >= CHANGES;
    }
    changes >= MORE_CHANGES
}

// Whether the text from i on is such that a loop with a test for floods does not pay.
pub fn closure_unpredictable(
    table: &[u64],
    m: Masks,
    q: ClosureMasks,
    d: u64,
    text: &[u8],
    i: usize,
) -> bool
    requires closure_masks_of { ClosureMasksOf m.optional q }
    requires table_len { length table.now ≡ 256 }
    requires i_in_bounds { i ≤ length text.now }
{
    if text.len() - i < AHEAD {
        return false;
    }
    if shift_and_step::is_closed(m, q, d) {
        return changes_often(table, m, q, d, i + AHEAD, text, i);
    }
    false
}
