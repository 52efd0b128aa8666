// The forward step of document 01 on one byte, at any masks. `step` does the formula, for any state; a
// state as a step leaves it allows shorter ways to the same, by what `closure_masks` keeps of the masks. The
// loops and the window search step by them.
#![tactic(auto)]

ghost use Rattle.std.specs.Prelude.{◌≡◌, ◌%◌, true, bit_and};
ghost use Rattle.shift_and.specs.ForwardStep as Step;
ghost use Rattle.shift_and_step.specs.Stepping.{step_n};
ghost use Rattle.shift_and_step.specs.ClosedStates.{ClosureMasksOf, Closed, ClosedIs, StepsTo, Fixpoint};

// A rule's masks, and the number of its top position.
#[derive(Clone, Copy)]
pub struct Masks {
    pub repeats: u64,
    pub optional: u64,
    pub top: u64,
}

// One byte's step, at its table entry; k is what every step sets. Where nothing is optional there is
// nothing to flood.
pub fn step(d: u64, b: u64, k: u64, m: Masks) -> u64
    ensures { result ≡ step_n m k d b }
{
    let s = b & m.repeats;
    if m.optional == 0 {
        return shift_and::move_up(d, b, s, k);
    }
    let i = shift_and::block_starts(m.optional);
    let f = shift_and::block_ends(m.optional);
    shift_and::advance(d, b, s, k, m.optional, i, f)
}

// What closes a state over the blocks of optional positions: `start` is the start state, `minuend` one less
// than the bits before the blocks (I - 1), `ends` the last bit of each block (F), `past` the bit after
// it, `closing` the bits outside the start state that are in a block or before one, so that the flood may
// change a state that has one of them. `separated`: no bit after a block is the bit before another.
// `starred`: a position is optional and repeats, as in `.*`, so that it pays to skip bytes at which a
// state stays; only speed depends on it.
#[derive(Clone, Copy)]
pub struct ClosureMasks {
    pub start: u64,
    pub minuend: u64,
    pub ends: u64,
    pub past: u64,
    pub closing: u64,
    pub separated: bool,
    pub starred: bool,
}

pub fn closure_masks(optional: u64, repeats: u64) -> ClosureMasks
    ensures { ClosureMasksOf optional result }
{
    let start = shift_and::start_state(optional);
    let first = shift_and::block_starts(optional);
    let last = shift_and::block_ends(optional);
    let closing = (optional | first) & !start;
    let minuend = std::num::wrapping_sub_u64(first, 1);
    let past = last << 1;
    let separated = past & first == 0;
    let starred = optional & repeats != 0;
    ClosureMasks {
        start: start,
        minuend: minuend,
        ends: last,
        past: past,
        closing: closing,
        separated: separated,
        starred: starred,
    }
}

// The flood of a state: !(g - i) of the formula is (i - 1) - g, one operation less to wait for.
fn flood_turned(d: u64, optional: u64, q: ClosureMasks) -> u64
    requires { ClosureMasksOf optional q }
    ensures { result ≡ Step.flood 64 d optional (Step.block_starts 64 optional) (Step.block_ends 64 optional) }
{
    let g = d | q.ends;
    let t = std::num::wrapping_sub_u64(q.minuend, g);
    d | (optional & (t ^ g))
}

// The flood where the blocks are separated: with the bits past the blocks in place of their ends it needs
// no xor, one operation less again.
fn flood_guarded(d: u64, optional: u64, q: ClosureMasks) -> u64
    requires closure_masks_of { ClosureMasksOf optional q }
    requires separated_value { q.separated ≡ true }
    requires optional_value { optional % 2 ≡ 0 }
    ensures { result ≡ Step.flood 64 d optional (Step.block_starts 64 optional) (Step.block_ends 64 optional) }
{
    let g = d | q.past;
    let t = std::num::wrapping_sub_u64(q.minuend, g);
    d | (optional & t)
}

// Whether a state is as a step leaves it: odd, and closed, as the start state is. One made by hand may be
// neither.
pub fn is_closed(m: Masks, q: ClosureMasks, d: u64) -> bool
    requires { ClosureMasksOf m.optional q }
    ensures { ClosedIs m d result }
{
    if m.optional % 2 != 0 {
        return false;
    }
    if d == q.start {
        return true;
    }
    if d % 2 != 1 {
        return false;
    }
    let f = flood_turned(d, m.optional, q);
    f == d
}

// The move of a state that has the start state in it. That is kept by the `start` beside `repeats`, which
// does not wait for d: two operations after the shift, not three, and the leading optional positions
// need no flood.
fn move_keeping_start(d: u64, b: u64, repeats: u64, start: u64) -> u64
    requires { bit_and d start ≡ start }
    ensures { result ≡ Step.move 64 d b (bit_and b repeats) start }
{
    ((d << 1) & b) | (d & ((b & repeats) | start))
}

// The same move, of any state, by the positions that may follow it, which hang on the state alone: fewer
// operations, of which one more waits for d, and a loop in which the state stays needs the first ones once.
fn move_by_follow(d: u64, b: u64, repeats: u64, start: u64) -> u64
    ensures { result ≡ Step.move 64 d b (bit_and b repeats) start }
{
    let follow = (d << 1) | (d & repeats);
    (b & follow) | start
}

// One step where no position is optional but leading ones: there is nothing to flood.
pub fn step_no_closure(d: u64, b: u64, m: Masks, q: ClosureMasks) -> u64
    requires closure_masks_of { ClosureMasksOf m.optional q }
    requires closing_value { q.closing ≡ 0 }
    requires closed { Closed m d }
    ensures { StepsTo m d b result }
{
    move_by_follow(d, b, m.repeats, q.start)
}

// One step. It floods only where the moved state has a bit of `closing`, since the flood changes nothing
// elsewhere.
pub fn step_closure_if_needed(d: u64, b: u64, m: Masks, q: ClosureMasks) -> u64
    requires closure_masks_of { ClosureMasksOf m.optional q }
    requires closed { Closed m d }
    ensures { StepsTo m d b result }
{
    let x = move_keeping_start(d, b, m.repeats, q.start);
    if x & q.closing == 0 {
        return x;
    }
    flood_turned(x, m.optional, q)
}

// One step that floods in any case.
pub fn step_closure_always(d: u64, b: u64, m: Masks, q: ClosureMasks) -> u64
    requires closure_masks_of { ClosureMasksOf m.optional q }
    requires closed { Closed m d }
    ensures { StepsTo m d b result }
{
    let x = move_keeping_start(d, b, m.repeats, q.start);
    flood_turned(x, m.optional, q)
}

// The same where the blocks are separated.
pub fn step_closure_separated(d: u64, b: u64, m: Masks, q: ClosureMasks) -> u64
    requires closure_masks_of { ClosureMasksOf m.optional q }
    requires separated_value { q.separated ≡ true }
    requires closed { Closed m d }
    ensures { StepsTo m d b result }
{
    let x = move_keeping_start(d, b, m.repeats, q.start);
    flood_guarded(x, m.optional, q)
}

// Whether a step leaves the state as it is.
pub fn is_fixpoint(d: u64, b: u64, m: Masks, q: ClosureMasks) -> bool
    requires closure_masks_of { ClosureMasksOf m.optional q }
    requires closed { Closed m d }
    ensures { Fixpoint m d b result }
{
    let x = move_by_follow(d, b, m.repeats, q.start);
    x == d
}
