// The automaton over decoded bytes, at any table and masks. `scan_text` promises what the formula gives byte
// by byte: by a prefilter it skips what changes nothing in the start state, and loops on from there.
#![tactic(auto)]

ghost use Rattle.std.specs.Prelude.{◌≡◌, ◌+◌, ◌^◌, ◌<◌, ◌≤◌, length};
ghost use Rattle.shift_and_step.specs.Stepping.{automaton_of, TableFits};
ghost use Rattle.prefilter.specs.Soundness.{PairSound, PrefilterSound};
ghost use Rattle.shift_and_loop.specs.Loops.{Skippable, Advanced, HasRoom};
ghost use Rattle.shift_and_step.specs.ClosedStates.{ClosureMasksOf};
ghost use Rattle.shift_and_scan.specs.Scanning.{Scanned, SegmentEnd};

use prefilter::{BytePair, Prefilter, Skip};
use shift_and_loop::Cursor;
use shift_and_step::{ClosureMasks, Masks};

// After some bytes: the state, and how many ends were stored.
#[derive(Drop)]
pub struct ScanResult {
    pub d: u64,
    pub count: usize,
}

// The next start that has the pair, if it can still be told. Table and masks are there for the
// contract alone.
fn skip_pair(table: &[u64], m: Masks, pair: BytePair, text: &[u8], i: usize) -> usize
    requires pair_sound { PairSound table.now m.repeats m.optional m.top pair.a pair.b pair.x pair.y }
    requires i_in_bounds { i ≤ length text.now }
    ensures { Skippable table.now m 1 text.now i result }
{
    if text.len() - i < pair.b {
        return i;
    }
    let end = text.len() - pair.b;
    prefilter_search::find_pair(text, pair.a, pair.b, pair.x, pair.y, i, end)
}

// In a text of fewer bytes than this, as between two references that stand close, nothing is skipped.
const SHORT: usize = 32;

// The place up to which nothing happens.
fn skip(table: &[u64], m: Masks, p: Prefilter, d: u64, text: &[u8], i: usize) -> usize
    requires table_len { length table.now ≡ 256 }
    requires prefilter_sound { PrefilterSound table.now m.repeats m.optional m.top p }
    requires i_in_bounds { i ≤ length text.now }
    ensures { Skippable table.now m d text.now i result }
{
    if text.len() < SHORT {
        return i;
    }
    if d != p.start {
        return i;
    }
    match p.skip {
        Skip::Nothing => i,
        Skip::Table => prefilter_search::find_in_table(table, p.next, text, i),
        Skip::Byte(x) => byte_search::find_byte(text, x, i, text.len()),
        Skip::Range { lo, hi } => prefilter_search::find_in_range(text, lo, hi, i, text.len()),
        Skip::Pair(pair) => skip_pair(table, m, pair, text, i),
    }
}

// A skip of fewer bytes than this does not pay; one to a single byte, whose search is cheap, does sooner.
const SKIPS_PAY: usize = 16;

const BYTE_SKIPS_PAY: usize = 4;

fn pays_from(skip: Skip) -> usize {
    match skip {
        Skip::Byte(_) => BYTE_SKIPS_PAY,
        _ => SKIPS_PAY,
    }
}

// Where a loop from j on may stop at the earliest: it goes on for some bytes where the last skip, from i to
// j, was short, so that a text on which skipping does not pay is stepped through for the most part. Only
// speed depends on it.
fn stop_at(skip: Skip, i: usize, j: usize, end: usize) -> usize
    requires i_le_j { i ≤ j }
    requires j_le_end { j ≤ end }
{
    if let Skip::Nothing = skip {
        return end;
    }
    if j - i >= pays_from(skip) {
        return j;
    }
    j + SKIPS_PAY.min(end - j)
}

// What a segment of a scan comes to: the place, and how many bytes were looped over and not skipped.
#[derive(Clone, Copy)]
pub struct Segment {
    pub to: Cursor,
    pub looped: usize,
}

// A segment of a scan, up to `until` or past it: it skips what the prefilter lets it, and loops on from
// there.
fn scan_segment(
    table: &[u64],
    m: Masks,
    q: ClosureMasks,
    p: Prefilter,
    until: usize,
    text: &[u8],
    ends: &mut [u32],
    s: Cursor,
) -> Segment
    requires closure_masks_of { ClosureMasksOf m.optional q }
    requires table_fits { TableFits table.now m }
    requires prefilter_sound { PrefilterSound table.now m.repeats m.optional m.top p }
    requires has_room { HasRoom s until text.now ends.old }
    ensures { Advanced table.now m text.now ends.old s.d s.at s.n s.i result.to ends.new }
{
    let mut d = s.d;
    let mut at = s.at;
    let mut n = s.n;
    let mut i = s.i;
    let mut looped = 0;
    while i < until {
        let j = skip(table, m, p, d, text, i);
        let gone = (j - i) as u32;
        let here = at + gone;
        if until <= j {
            return Segment {
                to: Cursor {
                    d: d,
                    at: here,
                    n: n,
                    i: j,
                },
                looped: looped,
            };
        }
        let stop = stop_at(p.skip, i, j, until);
        let r = shift_and_fixpoint::run_loop(
            table,
            m,
            q,
            p.start,
            stop,
            until,
            text,
            ends,
            Cursor {
                d: d,
                at: here,
                n: n,
                i: j,
            },
        );
        looped = std::num::wrapping_add_usize(looped, r.i - j);
        d = r.d;
        at = r.at;
        n = r.n;
        i = r.i;
    }
    Segment {
        to: Cursor {
            d: d,
            at: at,
            n: n,
            i: i,
        },
        looped: looped,
    }
}

// A scan goes on by a short segment, which tells what loop to take, and then a long one; where nothing but
// leading positions is optional there is one loop, and the segment has no end.
const PROBE: usize = 256;

const RUN: usize = 3840;

fn segment_end(closing: u64, far: usize, i: usize, end: usize) -> usize
    requires far_nonzero { 0 < far }
    requires i_lt_end { i < end }
    ensures { SegmentEnd i end result }
{
    if closing == 0 {
        return end;
    }
    if end - i < far {
        return end;
    }
    i + far
}

// How to go on: by the dense loops, without a test for floods; and whether ends stand close.
#[derive(Drop)]
pub struct Strategy {
    pub dense: bool,
    pub many: bool,
}

// Whether to go on by the dense loops after a segment of so many bytes, with so many ends.
fn prefers_dense(
    table: &[u64],
    m: Masks,
    q: ClosureMasks,
    text: &[u8],
    bytes: usize,
    found: usize,
    first: Segment,
) -> bool
    requires closure_masks_of { ClosureMasksOf m.optional q }
    requires table_len { length table.now ≡ 256 }
    requires i_in_bounds { first.to.i ≤ length text.now }
{
    if q.closing == 0 {
        return false;
    }
    if bytes / 8 < found {
        return true;
    }
    if q.starred {
        return false;
    }
    if first.looped < bytes / 4 * 3 {
        return false;
    }
    shift_and_dense::closure_unpredictable(table, m, q, first.to.d, text, first.to.i)
}

// How to go on after a segment from s. Only speed depends on it.
fn strategy_after(
    table: &[u64],
    m: Masks,
    q: ClosureMasks,
    text: &[u8],
    s: Cursor,
    first: Segment,
) -> Strategy
    requires closure_masks_of { ClosureMasksOf m.optional q }
    requires table_len { length table.now ≡ 256 }
    requires i_in_bounds { first.to.i ≤ length text.now }
{
    let bytes = std::num::wrapping_sub_usize(first.to.i, s.i);
    let found = std::num::wrapping_sub_usize(first.to.n, s.n);
    let dense = prefers_dense(table, m, q, text, bytes, found, first);
    Strategy {
        dense: dense,
        many: bytes / 32 < found,
    }
}

// A long segment, by a dense loop if that is the strategy, or by the prefilter.
fn run_on(
    table: &[u64],
    m: Masks,
    q: ClosureMasks,
    p: Prefilter,
    strategy: Strategy,
    text: &[u8],
    ends: &mut [u32],
    s: Cursor,
) -> Cursor
    requires closure_masks_of { ClosureMasksOf m.optional q }
    requires table_fits { TableFits table.now m }
    requires prefilter_sound { PrefilterSound table.now m.repeats m.optional m.top p }
    requires has_room { HasRoom s (length text.now) text.now ends.old }
    ensures { Advanced table.now m text.now ends.old s.d s.at s.n s.i result ends.new }
{
    let far = segment_end(q.closing, RUN, s.i, text.len());
    if strategy.dense {
        return shift_and_dense::run_dense_loop(table, m, q, strategy.many, far, text, ends, s);
    }
    let r = scan_segment(table, m, q, p, far, text, ends, s);
    r.to
}

// A short segment, and then a long one as the first suggests.
fn probe_then_run(
    table: &[u64],
    m: Masks,
    q: ClosureMasks,
    p: Prefilter,
    text: &[u8],
    ends: &mut [u32],
    s: Cursor,
) -> Cursor
    requires closure_masks_of { ClosureMasksOf m.optional q }
    requires table_fits { TableFits table.now m }
    requires prefilter_sound { PrefilterSound table.now m.repeats m.optional m.top p }
    requires has_room { HasRoom s (length text.now) text.now ends.old }
    ensures { Advanced table.now m text.now ends.old s.d s.at s.n s.i result ends.new }
{
    let near = segment_end(q.closing, PROBE, s.i, text.len());
    let first = scan_segment(table, m, q, p, near, text, ends, s);
    if first.to.i < text.len() {
        let strategy = strategy_after(table, m, q, text, s, first);
        return run_on(table, m, q, p, strategy, text, ends, first.to);
    }
    first.to
}

// Steps over `text` and stores each end in `ends`, from its front; `base` bytes went before.
pub fn scan_text(
    table: &[u64],
    m: Masks,
    p: Prefilter,
    d: u64,
    base: u32,
    text: &[u8],
    ends: &mut [u32],
) -> ScanResult
    requires table_fits { TableFits table.now m }
    requires prefilter_sound { PrefilterSound table.now m.repeats m.optional m.top p }
    requires text_in_bounds { length text.now ≤ length ends.old }
    requires text_bound { base + length text.now < 2 ^ 32 }
    ensures { Scanned (automaton_of table.now m) d base text.now ends.old result ends.new }
{
    let q = shift_and_step::closure_masks(m.optional, m.repeats);
    let mut d = d;
    let mut at = base;
    let mut n = 0;
    let mut i = 0;
    while i < text.len() {
        let r = probe_then_run(
            table,
            m,
            q,
            p,
            text,
            ends,
            Cursor {
                d: d,
                at: at,
                n: n,
                i: i,
            },
        );
        d = r.d;
        at = r.at;
        n = r.n;
        i = r.i;
    }
    ScanResult { d: d, count: n }
}
