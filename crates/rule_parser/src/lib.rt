// From rule text to counts and masks (document 01, "Rule text" and rows 1 to 8 and 16 of "Numbered answers"): `prepare` gives a rule's answer,
// `prepare_stored` a stored rule's, by rows 1 to 8 alone. In a mask bit 0 is the beginning, bit i is position i.
#![tactic(auto)]

ghost use Rattle.std.specs.Prelude.{◌≡◌, ◌≤◌, length};
ghost use Rattle.model.specs.RuleText.{fold_flag, rule_limit, position_limit};
ghost use Rattle.rule_element.specs.Reading.{KindFits};
ghost use Rattle.rule_parser.specs.Gathering.{optional_ones, repeat_ones, CountIs, optional_count, repeat_count, Fits, gained_by, required_of, ReadsRule};
ghost use Rattle.rule_parser.specs.Preparing.{ReadsStored, PreparesStored, Prepares};

use answers::{Refusal, Refused};
use limits::RULE_LIMIT;
use rule_element::{Element, Kind, Often};
use shift_and_wide::Wide;

// What is prepared of an accepted rule: the count of its positions, its shortest length, and the masks of the positions that are
// optional and that repeat.
#[derive(Clone, Copy)]
pub struct Prepared {
    pub positions: u32,
    pub shortest: u32,
    pub optional: Wide,
    pub repeats: Wide,
}

// From so many positions on, a rule's masks need more than one word: bit 0 is no position's.
pub const ONE_WORD: u32 = 64;

// How many positions some elements make, and the masks of those that are optional and that repeat.
#[derive(Clone, Copy)]
pub struct RuleMasks {
    pub positions: u32,
    pub optional: Wide,
    pub repeats: Wide,
}

// What a rule's elements make, and the place of the last one.
#[derive(Clone, Copy)]
pub struct ReadRule {
    pub masks: RuleMasks,
    pub last: usize,
}

// A stored rule that is accepted, and the place of its last element.
#[derive(Clone, Copy)]
pub struct StoredRule {
    pub prepared: Prepared,
    pub last: usize,
}

// "With the fold flag set (any number but 0)".
pub fn folds(fold: u32) -> bool
    ensures { result ≡ fold_flag fold }
{
    fold != 0
}

// How many positions are optional of an element that makes one.
fn optional_ones(often: Often) -> u32
    ensures { result ≡ optional_ones often }
{
    match often {
        Often::Optional | Often::Both => 1,
        Often::Once | Often::Repeatable => 0,
    }
}

// How many repeat.
fn repeat_ones(often: Often) -> u32
    ensures { result ≡ repeat_ones often }
{
    match often {
        Often::Repeatable | Often::Both => 1,
        Often::Once | Often::Optional => 0,
    }
}

// How many of an element's positions are optional; they are its first: of a gap's b positions b - a.
fn optional_count(kind: Kind, often: Often) -> u32
    requires { KindFits kind }
    ensures { CountIs kind (optional_count kind often) result }
{
    match kind {
        Kind::Byte(_) => optional_ones(often),
        Kind::Any => optional_ones(often),
        Kind::Class(_) => optional_ones(often),
        Kind::Gap(a, b) => b - a,
    }
}

// How many of an element's positions repeat; they are its first.
fn repeat_count(kind: Kind, often: Often) -> u32
    ensures { CountIs kind (repeat_count kind often) result }
{
    match kind {
        Kind::Byte(_) => repeat_ones(often),
        Kind::Any => repeat_ones(often),
        Kind::Class(_) => repeat_ones(often),
        Kind::Gap(_, _) => 0,
    }
}

// One element more: its bits are laid above the positions used before it.
fn add_element(t: RuleMasks, element: Element) -> RuleMasks
    requires { Fits t element }
    ensures { result ≡ gained_by t element }
{
    let kind = element.kind;
    let often = element.often;
    let optional = t.optional;
    let repeats = t.repeats;
    let o = optional_count(kind, often);
    let r = repeat_count(kind, often);
    let from = t.positions + 1;
    let n = t.positions + rule_element::size(kind);
    RuleMasks {
        positions: n,
        optional: shift_and_wide::laid(optional, o, from),
        repeats: shift_and_wide::laid(repeats, r, from),
    }
}

// The elements of a rule, from left to right, up to the leftmost fault.
fn read_rule(rule: &[u8], fold: bool) -> Result<ReadRule, Refused>
    requires { length rule.now ≤ rule_limit }
    ensures { ReadsRule fold rule.now result }
{
    let none = shift_and_wide::no_bits();
    let mut t = RuleMasks {
        positions: 0,
        optional: none,
        repeats: none,
    };
    let mut at = 0;
    let mut last = 0;
    while at < rule.len() {
        match rule_element::read_element(rule, at, fold, t.positions) {
            Ok((element, next)) => {
                t = add_element(t, element);
                last = at;
                at = next;
            }
            Err(refusal) => {
                return Err(refusal.at(at as u32));
            }
        }
    }
    Ok(ReadRule { masks: t, last })
}

// How many of all the positions are not optional.
fn required(masks: RuleMasks) -> u32
    requires { masks.positions ≤ position_limit }
    ensures { result ≡ required_of masks }
{
    let none = shift_and_wide::no_bits();
    let all = shift_and_wide::laid(none, masks.positions, 1);
    let optional = masks.optional;
    shift_and_wide::shortest(all, optional)
}

// What a stored rule says, or why and where it is refused: rows 1 to 8.
fn read_stored(rule: &[u8], fold: u32) -> Result<StoredRule, Refused>
    ensures { ReadsStored fold rule.now result }
{
    if rule.len() == 0 {
        return Err(Refusal::RuleEmpty.at(0));
    }
    if RULE_LIMIT < rule.len() {
        return Err(Refusal::RuleLong.at(RULE_LIMIT as u32));
    }
    let f = folds(fold);
    let read = read_rule(rule, f)?;
    let m = required(read.masks);
    if m == 0 {
        return Err(Refusal::AdmitsEmpty.at(rule.len() as u32));
    }
    let prepared = Prepared {
        positions: read.masks.positions,
        shortest: m,
        optional: read.masks.optional,
        repeats: read.masks.repeats,
    };
    Ok(StoredRule {
        prepared,
        last: read.last,
    })
}

// What a stored rule says. Note 10's rewriter alone asks no more of a rule.
pub fn prepare_stored(rule: &[u8], fold: u32) -> Result<Prepared, Refused>
    ensures { PreparesStored fold rule.now result }
{
    let stored = read_stored(rule, fold)?;
    Ok(stored.prepared)
}

// What a rule says, or why and where it is refused: rows 1 to 8, then 16, by its first element and its last.
pub fn prepare(rule: &[u8], fold: u32) -> Result<Prepared, Refused>
    ensures { Prepares fold rule.now result }
{
    let stored = read_stored(rule, fold)?;
    if rule_gap::unequal_at(rule, 0) {
        return Err(Refusal::OuterGap.at(0));
    }
    let last = stored.last;
    if rule_gap::unequal_at(rule, last) {
        return Err(Refusal::OuterGap.at(last as u32));
    }
    Ok(stored.prepared)
}
