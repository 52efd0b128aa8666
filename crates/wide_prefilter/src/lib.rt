// How to run over decoded bytes, at any table of four planes and any masks: by the lowest word alone, where that is
// what the four words give; else in parts that it tries first, or in four words. Only speed depends on the choice.
#![tactic(auto)]

ghost use Rattle.std.specs.Prelude.{◌≡◌, length};
ghost use Rattle.wide_prefilter.specs.Choosing.{QuietIs, MayTryLow, low_masks, EvenIs, LowIs, Lowest, LowestIs, LowestSound, WideSound, FitsOne};
ghost use Rattle.rule_part.specs.RulePart.{rule_length, entries_of, masks_of, state_of};
ghost use Rattle.shift_and_wide.specs.Wides.{low};

use prefilter::Prefilter;
use shift_and_step::Masks;
use shift_and_wide::{Wide, WideMasks};

// Whether the words above the lowest are 0, and its bit 63 is clear.
pub fn is_quiet(d: Wide) -> bool
    ensures { QuietIs d result }
{
    is_low(d) && d.w0 < 1 << 63
}

// Whether a run may try the lowest word alone: the top position stands above it, and bit 0 is not
// optional, as in every rule.
fn may_try_low(m: WideMasks) -> bool
    ensures { MayTryLow m result }
{
    64 <= m.top && m.optional.w0 % 2 == 0
}

// The masks of the lowest word.
pub fn low_masks(m: WideMasks, top: u64) -> Masks
    ensures { result ≡ low_masks top m }
{
    Masks {
        repeats: m.repeats.w0,
        optional: m.optional.w0,
        top,
    }
}

pub fn low_of(x: u64) -> Wide
    ensures { result ≡ low x }
{
    Wide {
        w0: x,
        w1: 0,
        w2: 0,
        w3: 0,
    }
}

// Whether every word of a plane is even.
fn all_even(plane: &[u64]) -> bool
    ensures { EvenIs plane.now result }
{
    plane.iter().fold(0, |all, word| all | word) % 2 == 0
}

// Whether the words above the lowest are 0.
fn is_low(d: Wide) -> bool
    ensures { LowIs d result }
{
    d.w1 == 0 && d.w2 == 0 && d.w3 == 0
}

// Whether nothing of a rule but its table stands above the lowest word.
fn is_lowest(m: WideMasks) -> bool
    ensures { LowestIs m result }
{
    m.top < 64 && is_low(m.optional)
}

// Fewer bytes are not worth a choice for the lowest word alone.
const TINY: usize = 8;

// Whether a run over `len` bytes may go by the lowest word alone, as far as the rule's masks tell.
pub fn may_run_low(rule: &[u64], len: usize) -> bool
    requires { length rule.now ≡ rule_length }
    ensures { LowestIs (masks_of rule.now) result }
{
    TINY <= len && is_lowest(rule_part::masks_of(rule))
}

// The prefilter of a rule that stands in the lowest word.
fn choose_low_by(table: &[u64], m: WideMasks, len: usize) -> Prefilter
    requires table_len { length table.now ≡ 1024 }
    requires lowest { Lowest m }
    ensures { LowestSound table.now m result }
{
    let one = low_masks(m, m.top);
    prefilter::choose(&table[0..256], one.repeats, one.optional, one.top, len)
}

// The same by the rule's part of a scan value.
pub fn choose_low(rule: &[u64], len: usize) -> Prefilter
    requires rule_len { length rule.now ≡ rule_length }
    requires lowest { Lowest (masks_of rule.now) }
    ensures { LowestSound (entries_of rule.now) (masks_of rule.now) result }
{
    let m = rule_part::masks_of(rule);
    choose_low_by(&rule[0..1024], m, len)
}

// Whether the lowest word alone may run from the state d on: no state comes to its highest bit, or no byte lets
// one leave it. That no entry has the highest bit is known where the prefilter saw all entries; else the plane
// above is looked at.
fn fits_one_by(table: &[u64], m: WideMasks, p: Prefilter, d: Wide) -> bool
    requires table_len { length table.now ≡ 1024 }
    requires lowest_sound { LowestSound table.now m p }
    ensures { FitsOne table.now m p d result }
{
    if p.clear {
        let q = m.optional;
        if q.w0 < 0x8000_0000_0000_0000 {
            return is_quiet(d);
        }
    }
    if is_low(d) {
        return all_even(&table[256..512]);
    }
    false
}

// The same by the rule's part of a scan value, from its state on.
pub fn fits_one(rule: &[u64], p: Prefilter) -> bool
    requires rule_len { length rule.now ≡ rule_length }
    requires lowest_sound { LowestSound (entries_of rule.now) (masks_of rule.now) p }
    ensures { FitsOne (entries_of rule.now) (masks_of rule.now) p (state_of rule.now) result }
{
    let m = rule_part::masks_of(rule);
    let d = rule_part::words_at(rule, rule_part::STATE);
    fits_one_by(&rule[0..1024], m, p, d)
}

// How to run otherwise: in parts, by this prefilter of the lowest word; or all in four words.
#[derive(Clone, Copy)]
pub struct WidePrefilter {
    pub parts: Option<Prefilter>,
}

// A text of fewer bytes is not worth the room for parts.
pub const SHORT: usize = 256;

// The way for a text of `len` bytes, at any table and masks.
fn choose_by(table: &[u64], m: WideMasks, len: usize) -> WidePrefilter
    requires { length table.now ≡ 1024 }
    ensures { WideSound table.now m result }
{
    if len < SHORT || !may_try_low(m) {
        return WidePrefilter { parts: None };
    }
    let one = low_masks(m, 63);
    let filter = prefilter::choose(&table[0..256], one.repeats, one.optional, one.top, len);
    WidePrefilter {
        parts: Some(filter),
    }
}

// The way for a text of `len` bytes.
pub fn choose(rule: &[u64], len: usize) -> WidePrefilter
    requires { length rule.now ≡ rule_length }
    ensures { WideSound (entries_of rule.now) (masks_of rule.now) result }
{
    let m = rule_part::masks_of(rule);
    choose_by(&rule[0..1024], m, len)
}
