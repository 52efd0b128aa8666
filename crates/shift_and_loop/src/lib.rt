// Loops that do the forward step over decoded bytes from a place on, the ends stored in a lent list, at
// any table and masks. A loop promises what the formula gives byte by byte; it floods only where that
// changes something.
#![tactic(auto)]

ghost use Rattle.std.specs.Prelude.{◌≡◌, ◌+◌, ◌-◌, ◌^◌, ◌<◌, ◌≤◌, length};
ghost use Rattle.shift_and_step.specs.Stepping.{TableFits};
ghost use Rattle.shift_and_step.specs.ClosedStates.{ClosureMasksOf, Closed};
ghost use Rattle.shift_and_loop.specs.Loops.{Advanced, HasRoom};

use shift_and_step::{ClosureMasks, Masks};

// A place in the text: the state, the count of bytes before it, the count of ends stored, and the
// index of the next byte.
#[derive(Clone, Copy)]
pub struct Cursor {
    pub d: u64,
    pub at: u32,
    pub n: usize,
    pub i: usize,
}

// How many bytes stand before the byte at i: it is not counted byte by byte, which would take a register
// of the loops.
pub fn count_before(s: Cursor, i: usize) -> u32
    requires i_le_i { s.i ≤ i }
    requires i_bound { s.at + i < 2 ^ 32 + s.i }
    ensures { result ≡ s.at + (i - s.i) }
{
    let gone = (i - s.i) as u32;
    s.at + gone
}

// Steps from a place on, where no position is optional but leading ones, up to `until` or, at `stop` or
// past it, until the state is `start`.
pub fn loop_no_closure(
    table: &[u64],
    m: Masks,
    q: ClosureMasks,
    start: u64,
    stop: usize,
    until: usize,
    text: &[u8],
    ends: &mut [u32],
    s: Cursor,
) -> Cursor
    requires closure_masks_of { ClosureMasksOf m.optional q }
    requires closing_value { q.closing ≡ 0 }
    requires table_fits { TableFits table.now m }
    requires has_room { HasRoom s until text.now ends.old }
    requires closed { Closed m s.d }
    ensures { Advanced table.now m text.now ends.old s.d s.at s.n s.i result ends.new }
{
    let mut d = s.d;
    let mut n = s.n;
    let mut i = s.i;
    while i < until {
        let c = byte_search::byte_index(text[i]);
        d = shift_and_step::step_no_closure(d, table[c], m, q);
        i += 1;
        if shift_and::accepts(d, m.top) {
            ends[n] = count_before(s, i);
            n += 1;
        } else if d == start {
            if stop <= i {
                return Cursor {
                    d: d,
                    at: count_before(s, i),
                    n: n,
                    i: i,
                };
            }
        }
    }
    Cursor {
        d: d,
        at: count_before(s, i),
        n: n,
        i: i,
    }
}

// The same where others are optional too.
pub fn loop_closure_if_needed(
    table: &[u64],
    m: Masks,
    q: ClosureMasks,
    start: u64,
    stop: usize,
    until: usize,
    text: &[u8],
    ends: &mut [u32],
    s: Cursor,
) -> Cursor
    requires closure_masks_of { ClosureMasksOf m.optional q }
    requires table_fits { TableFits table.now m }
    requires has_room { HasRoom s until text.now ends.old }
    requires closed { Closed m s.d }
    ensures { Advanced table.now m text.now ends.old s.d s.at s.n s.i result ends.new }
{
    let mut d = s.d;
    let mut n = s.n;
    let mut i = s.i;
    while i < until {
        let c = byte_search::byte_index(text[i]);
        d = shift_and_step::step_closure_if_needed(d, table[c], m, q);
        i += 1;
        if shift_and::accepts(d, m.top) {
            ends[n] = count_before(s, i);
            n += 1;
        } else if d == start {
            if stop <= i {
                return Cursor {
                    d: d,
                    at: count_before(s, i),
                    n: n,
                    i: i,
                };
            }
        }
    }
    Cursor {
        d: d,
        at: count_before(s, i),
        n: n,
        i: i,
    }
}

// One step by the formula, for a state made by hand.
pub fn loop_once(table: &[u64], m: Masks, text: &[u8], ends: &mut [u32], s: Cursor) -> Cursor
    requires table_fits { TableFits table.now m }
    requires has_room { HasRoom s (length text.now) text.now ends.old }
    ensures { Advanced table.now m text.now ends.old s.d s.at s.n s.i result ends.new }
{
    let i = s.i;
    let n = s.n;
    let c = byte_search::byte_index(text[i]);
    let d = shift_and_step::step(s.d, table[c], 1, m);
    let at = s.at + 1;
    let past = i + 1;
    let is_end = shift_and::accepts(d, m.top);
    if is_end {
        ends[n] = at;
        let more = n + 1;
        return Cursor {
            d: d,
            at: at,
            n: more,
            i: past,
        };
    }
    Cursor {
        d: d,
        at: at,
        n: n,
        i: past,
    }
}
