// A run over decoded bytes in four words, at any table of four planes and any masks: it promises what
// the formula gives byte by byte.
#![tactic(auto)]

ghost use Rattle.std.specs.Prelude.{◌≡◌, ◌+◌, ◌<◌, ◌≤◌, ◌^◌, length};
ghost use Rattle.wide_scan.specs.Running.{WideScanned, WideStepped, AttemptIs, PartFits, PartIs, PartEnd, TextFits, RuleSteps, RuleFits};
ghost use Rattle.wide_prefilter.specs.Choosing.{LowSound};
ghost use Rattle.rule_part.specs.RulePart.{automaton_of_rule};
ghost use Rattle.shift_and_wide.specs.Stepping.{wide_automaton_of};

use prefilter::Prefilter;
use shift_and_wide::{Wide, WideMasks};
use wide_prefilter::{SHORT, WidePrefilter};

// After some bytes: the state, and how many ends were stored.
#[derive(Drop)]
pub struct WideResult {
    pub d: Wide,
    pub count: usize,
}

// Steps over `text` in four words and stores each end in `ends`, from its front; `base` bytes went
// before.
fn scan_words(
    table: &[u64],
    m: WideMasks,
    d: Wide,
    base: u32,
    text: &[u8],
    ends: &mut [u32],
) -> WideResult
    requires table_len { length table.now ≡ 1024 }
    requires top_bound { m.top < 256 }
    requires text_in_bounds { length text.now ≤ length ends.old }
    requires text_bound { base + length text.now < 2 ^ 32 }
    ensures { WideScanned (wide_automaton_of table.now m) d base text.now ends.old result ends.new }
{
    let q = m.optional;
    let x = shift_and_wide::blocks_of(q);
    let mut d = d;
    let mut at = base;
    let mut n = 0;
    for &c in text {
        let b = shift_and_wide::entry(table, usize::from(c));
        d = shift_and_wide::step(d, b, 1, m, x);
        at += 1;
        if shift_and_wide::accepts(d, m.top) {
            ends[n] = at;
            n += 1;
        }
    }
    WideResult { d, count: n }
}

// Where a run stands: the states, the count of decoded bytes, and the count of ends that it has stored.
#[derive(Drop)]
pub struct WideRun {
    pub d: Wide,
    pub at: u32,
    pub count: usize,
}

// Steps over `text` in four words, and stores its ends after those stored.
fn step_words(table: &[u64], m: WideMasks, g: WideRun, text: &[u8], ends: &mut [u32]) -> WideRun
    requires table_len { length table.now ≡ 1024 }
    requires top_bound { m.top < 256 }
    requires text_in_bounds { g.count + length text.now ≤ length ends.old }
    requires text_bound { g.at + length text.now < 2 ^ 32 }
    ensures { WideStepped (wide_automaton_of table.now m) g text.now ends.old result ends.new }
{
    let count = g.count;
    let d = g.d;
    let r = scan_words(table, m, d, g.at, text, &mut ends[count..]);
    let at = g.at + text.len() as u32;
    let stored = count + r.count;
    let after = r.d;
    WideRun {
        d: after,
        at: at,
        count: stored,
    }
}

// Runs the lowest word alone, with 63 for its top position: if that reports nothing, no bit has left
// the word, and this is the state after the run, which met no end. `room` takes what it reports, and is not read.
fn try_one_word(
    table: &[u64],
    m: WideMasks,
    p: Prefilter,
    d: Wide,
    text: &[u8],
    room: &mut [u32],
) -> Option<Wide>
    requires low_sound { LowSound table.now m p }
    requires text_in_bounds { length text.now ≤ length room.old }
    requires text_len_bound { length text.now < 2 ^ 32 }
    ensures { AttemptIs table.now m d text.now result room.old room.new }
{
    if wide_prefilter::is_quiet(d) {
        let one = wide_prefilter::low_masks(m, 63);
        let r = shift_and_scan::scan_text(&table[0..256], one, p, d.w0, 0, text, room);
        let none = r.count == 0;
        if none {
            return Some(wide_prefilter::low_of(r.d));
        }
    }
    None
}

// As many bytes as a part has, and as one that is tried first.
const PART: usize = 1024;

const PROBE: usize = 256;

// After a part on which the lowest word alone was tried in vain, so many less one are done in four words before
// the next try, which is of a short part. Only speed depends on it.
const WAIT: usize = 5;

// After a part: the state, and the wait: 0 where the last try was quiet, 1 where a short part is to be tried, and
// else one more than the parts to be done in four words first.
#[derive(Drop)]
pub struct Part {
    pub state: WideRun,
    pub wait: usize,
}

// A part of a run: by the lowest word alone if that is quiet, or else in four words.
fn step_part(
    table: &[u64],
    m: WideMasks,
    p: Prefilter,
    g: WideRun,
    text: &[u8],
    ends: &mut [u32],
    room: &mut [u32],
    wait: usize,
) -> Part
    requires part_fits { PartFits table.now m p g (length text.now) (length ends.old) }
    requires text_in_bounds { length text.now ≤ length room.old }
    ensures { PartIs table.now m g text.now ends.old room.old result.state ends.new room.new }
{
    if 1 < wait {
        let w = step_words(table, m, g, text, ends);
        let left = wait - 1;
        return Part {
            state: w,
            wait: left,
        };
    }
    if let Some(d) = try_one_word(table, m, p, g.d, text, room) {
        let at = g.at + text.len() as u32;
        let count = g.count;
        return Part {
            state: WideRun { d, at, count },
            wait: 0,
        };
    }
    let w = step_words(table, m, g, text, ends);
    Part {
        state: w,
        wait: WAIT,
    }
}

// The end of the part from i on.
fn part_end(i: usize, len: usize, wait: usize) -> usize
    requires { i < len }
    ensures { PartEnd i len result }
{
    if wait == 1 {
        if len - i <= PROBE {
            return len;
        }
        return i + PROBE;
    }
    if len - i <= PART {
        return len;
    }
    i + PART
}

// Steps over `text` in parts, and stores its ends after those stored.
fn step_parts(
    table: &[u64],
    m: WideMasks,
    p: Prefilter,
    g: WideRun,
    text: &[u8],
    ends: &mut [u32],
) -> WideRun
    requires { PartFits table.now m p g (length text.now) (length ends.old) }
    ensures { WideStepped (wide_automaton_of table.now m) g text.now ends.old result ends.new }
{
    let mut room = [0u32; PART];
    let mut s = g;
    let mut wait = 1;
    let mut i = 0;
    while i < text.len() {
        let k = part_end(i, text.len(), wait);
        let u = step_part(table, m, p, s, &text[i..k], ends, &mut room, wait);
        s = u.state;
        wait = u.wait;
        i = k;
    }
    s
}

// Steps over `text`, and stores its ends after those stored, at any table and masks.
fn step_by(
    table: &[u64],
    m: WideMasks,
    p: WidePrefilter,
    g: WideRun,
    text: &[u8],
    ends: &mut [u32],
) -> WideRun
    requires text_fits { TextFits table.now m p }
    requires text_in_bounds { g.count + length text.now ≤ length ends.old }
    requires text_bound { g.at + length text.now < 2 ^ 32 }
    ensures { WideStepped (wide_automaton_of table.now m) g text.now ends.old result ends.new }
{
    match p.parts {
        Some(filter) if SHORT <= text.len() => step_parts(table, m, filter, g, text, ends),
        _ => step_words(table, m, g, text, ends),
    }
}

// Steps over `text` in the way chosen, and stores its ends after those stored. Table and masks stay where they
// are, in the rule's part of a scan value: handed on as numbers they would be copied at each call.
pub fn step_text(
    rule: &[u64],
    p: WidePrefilter,
    g: WideRun,
    text: &[u8],
    ends: &mut [u32],
) -> WideRun
    requires rule_fits { RuleFits rule.now p }
    requires text_in_bounds { g.count + length text.now ≤ length ends.old }
    requires text_bound { g.at + length text.now < 2 ^ 32 }
    ensures { WideStepped (automaton_of_rule rule.now) g text.now ends.old result ends.new }
{
    let m = rule_part::masks_of(rule);
    step_by(&rule[0..1024], m, p, g, text, ends)
}

// Steps over a short text in four words, and stores its ends after those stored.
pub fn step_short(rule: &[u64], g: WideRun, text: &[u8], ends: &mut [u32]) -> WideRun
    requires rule_steps { RuleSteps rule.now }
    requires text_in_bounds { g.count + length text.now ≤ length ends.old }
    requires text_bound { g.at + length text.now < 2 ^ 32 }
    ensures { WideStepped (automaton_of_rule rule.now) g text.now ends.old result ends.new }
{
    let m = rule_part::masks_of(rule);
    step_words(&rule[0..1024], m, g, text, ends)
}
