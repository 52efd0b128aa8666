// The loop that skips bytes at which the state stays, for rules with positions that are optional and repeat,
// and the choice of a loop by what the masks allow. Both promise what every loop promises.
#![tactic(auto)]

ghost use Rattle.std.specs.Prelude.{◌≤◌, length};
ghost use Rattle.shift_and_step.specs.Stepping.{TableFits};
ghost use Rattle.shift_and_step.specs.ClosedStates.{ClosureMasksOf, Closed};
ghost use Rattle.shift_and_loop.specs.Loops.{Advanced, HasRoom};
ghost use Rattle.shift_and_fixpoint.specs.Fixpoints.{SkippableUpTo};

use shift_and_loop::Cursor;
use shift_and_step::{ClosureMasks, Masks};

// The place up to which, before `until`, the state stays as it is, and reports no end.
fn fixpoint_end(
    table: &[u64],
    m: Masks,
    q: ClosureMasks,
    d: u64,
    until: usize,
    text: &[u8],
    i: usize,
) -> usize
    requires closure_masks_of { ClosureMasksOf m.optional q }
    requires table_fits { TableFits table.now m }
    requires closed { Closed m d }
    requires i_le_until { i ≤ until }
    requires until_in_bounds { until ≤ length text.now }
    ensures { SkippableUpTo table.now m d until text.now i result }
{
    if shift_and::accepts(d, m.top) {
        return i;
    }
    let mut j = i;
    while j < until {
        let c = byte_search::byte_index(text[j]);
        if !shift_and_step::is_fixpoint(d, table[c], m, q) {
            return j;
        }
        j += 1;
    }
    j
}

// `shift_and_loop::loop_closure_if_needed`, where bytes at which the state stays are skipped.
fn loop_skipping_fixpoints(
    table: &[u64],
    m: Masks,
    q: ClosureMasks,
    start: u64,
    stop: usize,
    until: usize,
    text: &[u8],
    ends: &mut [u32],
    s: Cursor,
) -> Cursor
    requires closure_masks_of { ClosureMasksOf m.optional q }
    requires table_fits { TableFits table.now m }
    requires has_room { HasRoom s until text.now ends.old }
    requires closed { Closed m s.d }
    ensures { Advanced table.now m text.now ends.old s.d s.at s.n s.i result ends.new }
{
    let mut d = s.d;
    let mut n = s.n;
    let mut i = s.i;
    while i < until {
        let j = fixpoint_end(table, m, q, d, until, text, i);
        if j == until {
            return Cursor {
                d: d,
                at: shift_and_loop::count_before(s, j),
                n: n,
                i: j,
            };
        }
        let c = byte_search::byte_index(text[j]);
        d = shift_and_step::step_closure_if_needed(d, table[c], m, q);
        i = j + 1;
        if shift_and::accepts(d, m.top) {
            ends[n] = shift_and_loop::count_before(s, i);
            n += 1;
        } else if d == start {
            if stop <= i {
                return Cursor {
                    d: d,
                    at: shift_and_loop::count_before(s, i),
                    n: n,
                    i: i,
                };
            }
        }
    }
    Cursor {
        d: d,
        at: shift_and_loop::count_before(s, i),
        n: n,
        i: i,
    }
}

// The loop that the masks allow: at least one byte, and only one where the state is not closed.
pub fn run_loop(
    table: &[u64],
    m: Masks,
    q: ClosureMasks,
    start: u64,
    stop: usize,
    until: usize,
    text: &[u8],
    ends: &mut [u32],
    s: Cursor,
) -> Cursor
    requires closure_masks_of { ClosureMasksOf m.optional q }
    requires table_fits { TableFits table.now m }
    requires has_room { HasRoom s until text.now ends.old }
    ensures { Advanced table.now m text.now ends.old s.d s.at s.n s.i result ends.new }
{
    if shift_and_step::is_closed(m, q, s.d) {
        if q.closing == 0 {
            return shift_and_loop::loop_no_closure(table, m, q, start, stop, until, text, ends, s);
        }
        if q.starred {
            return loop_skipping_fixpoints(table, m, q, start, stop, until, text, ends, s);
        }
        return shift_and_loop::loop_closure_if_needed(
            table, m, q, start, stop, until, text, ends, s,
        );
    }
    shift_and_loop::loop_once(table, m, text, ends, s)
}
