// The elements of a rule text (document 01, "Rule text"), one at a time, by index into the whole
// rule. Each contract is one record of `specs/Reading.antt`: what is read is the model's own reading
// of the bytes from that index on, or the refusal has the model's number; and the bounds that callers want.
#![tactic(auto)]

ghost use Rattle.std.specs.Prelude.{◌≡◌, ◌≤◌, ◌<◌, length};
ghost use Rattle.model.specs.RuleText.{position_limit};
ghost use Rattle.rule_element.specs.Reading.{ReadsClass, ReadsBracket, ReadsGap, ReadsKind, mark_at, often_by, bytes_of, size_of, ReadsElement};

use answers::Refusal;
use byte_set::ByteSet;

// What an element is, with its data.
#[derive(Clone, Copy, Debug, PartialEq, Eq)]
pub enum Kind {
    Byte(u8),
    Any,
    Class(ByteSet),
    Gap(u32, u32),
}

// How often it may stand.
#[derive(Clone, Copy, Debug, PartialEq, Eq)]
pub enum Often {
    Once,
    Optional,
    Repeatable,
    Both,
}

#[derive(Clone, Copy, Debug, PartialEq, Eq)]
pub struct Element {
    pub kind: Kind,
    pub often: Often,
}

// A class from its first item on: its ranges, widened, then turned round. And the place after it.
fn class_from(rule: &[u8], from: usize, fold: bool, turned: bool) -> Result<(Kind, usize), Refusal>
    ensures { ReadsClass fold turned rule.now from result }
{
    if rule.get(from) == Some(&b']') {
        return Err(Refusal::ClassFault);
    }
    let (ranges, next) = rule_class::read_items(rule, from).ok_or(Refusal::ClassFault)?;
    let set = ByteSet::of_class(ranges, fold, turned);
    if set.is_empty() {
        return Err(Refusal::ClassFault);
    }
    Ok((Kind::Class(set), next))
}

// The class whose `[` stands at a place.
fn read_class(rule: &[u8], at: usize, fold: bool) -> Result<(Kind, usize), Refusal>
    requires { at < length rule.now }
    ensures { ReadsBracket fold rule.now at result }
{
    let first = at + 1;
    if rule.get(first) == Some(&b'^') {
        return class_from(rule, first + 1, fold, true);
    }
    class_from(rule, first, fold, false)
}

// The gap whose `{` stands at a place.
fn read_gap(rule: &[u8], at: usize) -> Result<(Kind, usize), Refusal>
    requires { at < length rule.now }
    ensures { ReadsGap rule.now at result }
{
    let gap = rule_gap::read_bounds(rule, at).ok_or(Refusal::GapFault)?;
    Ok((Kind::Gap(gap.least, gap.most), gap.next))
}

// Any element but its mark of how often, and the place after it.
fn read_kind(rule: &[u8], at: usize, fold: bool) -> Result<(Kind, usize), Refusal>
    requires { at < length rule.now }
    ensures { ReadsKind fold rule.now at result }
{
    match rule[at] {
        b'.' => Ok((Kind::Any, at + 1)),
        b'[' => read_class(rule, at, fold),
        b'{' => read_gap(rule, at),
        b'\\' => {
            let (escaped, next) = rule_class::read_escape(rule, at).ok_or(Refusal::ByteFault)?;
            Ok((Kind::Byte(escaped), next))
        }
        b'?' | b'+' | b'*' => Err(Refusal::MarkFault),
        b']' | b'}' => Err(Refusal::ByteFault),
        c => Ok((Kind::Byte(c), at + 1)),
    }
}

// The mark of how often that stands at a place.
#[tactic(auto, unfolding(crate::specs::Reading::mark_at))]
fn read_mark(rule: &[u8], at: usize) -> Often
    ensures { result ≡ mark_at rule.now at }
{
    match rule.get(at) {
        Some(b'?') => Often::Optional,
        Some(b'+') => Often::Repeatable,
        Some(b'*') => Often::Both,
        _ => Often::Once,
    }
}

// How often the kind before a place may stand: a gap takes no mark.
fn read_often(rule: &[u8], kind: Kind, at: usize) -> Often
    ensures { result ≡ often_by kind (mark_at rule.now at) }
{
    match kind {
        Kind::Byte(_) | Kind::Any | Kind::Class(_) => read_mark(rule, at),
        Kind::Gap(_, _) => Often::Once,
    }
}

// How many bytes spell it.
fn mark_bytes(often: Often) -> usize
    ensures { (result ≡ bytes_of often) × (result ≤ 1) }
{
    match often {
        Often::Once => 0,
        Often::Optional | Often::Repeatable | Often::Both => 1,
    }
}

// How many positions it makes.
pub fn size(kind: Kind) -> u32
    ensures { result ≡ size_of kind }
{
    match kind {
        Kind::Byte(_) | Kind::Any | Kind::Class(_) => 1,
        Kind::Gap(_, most) => most,
    }
}

// One element with its mark, and the place after it. `used` positions stand before it; its own fault comes before that it
// takes them past the limit.
pub fn read_element(
    rule: &[u8],
    at: usize,
    fold: bool,
    used: u32,
) -> Result<(Element, usize), Refusal>
    requires at_in_bounds { at < length rule.now }
    requires used_le_position_limit { used ≤ position_limit }
    ensures { ReadsElement fold used rule.now at result }
{
    let (kind, after) = read_kind(rule, at, fold)?;
    if limits::POSITION_LIMIT - used < size(kind) {
        return Err(Refusal::TooManyPositions);
    }
    let often = read_often(rule, kind, after);
    let next = after + mark_bytes(often);
    Ok((Element { kind, often }, next))
}
