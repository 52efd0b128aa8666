// A gap of a rule text (document 01, "Rule text"), by index into the whole rule. Each contract is a record or a definition of `specs/Bounds.antt`.
#![tactic(auto)]

ghost use Rattle.std.specs.Prelude.{◌≡◌, ◌<◌, length, drop};
ghost use Rattle.rule_gap.specs.Bounds.{ReadsDigit, ReadsBound, ReadsBounds, unequal_at};

// A bound of a gap, and the place after it.
#[derive(Clone, Copy)]
pub struct Bound {
    pub value: u32,
    pub next: usize,
}

// A gap's bounds, and the place after its `}`.
#[derive(Clone, Copy)]
pub struct Gap {
    pub least: u32,
    pub most: u32,
    pub next: usize,
}

// The value of the digit that stands at a place.
fn digit_at(rule: &[u8], at: usize) -> Option<u32>
    ensures { ReadsDigit rule.now at result }
{
    match *rule.get(at)? {
        c @ b'0'..=b'9' => Some(u32::from(c - b'0')),
        _ => None,
    }
}

// A bound of a gap: one or two digits.
fn read_bound(rule: &[u8], at: usize) -> Option<Bound>
    ensures { ReadsBound rule.now at result }
{
    let tens = digit_at(rule, at)?;
    let Some(ones) = digit_at(rule, at + 1) else {
        return Some(Bound {
            value: tens,
            next: at + 1,
        });
    };
    Some(Bound {
        value: 10 * tens + ones,
        next: at + 2,
    })
}

// The bounds of the gap whose `{` stands at a place.
pub fn read_bounds(rule: &[u8], at: usize) -> Option<Gap>
    requires { at < length rule.now }
    ensures { ReadsBounds rule.now at result }
{
    let least = read_bound(rule, at + 1)?;
    if rule.get(least.next) != Some(&b',') {
        return None;
    }
    let most = read_bound(rule, least.next + 1)?;
    if rule.get(most.next) != Some(&b'}') {
        return None;
    }
    if most.value < least.value {
        return None;
    }
    if most.value == 0 {
        return None;
    }
    Some(Gap {
        least: least.value,
        most: most.value,
        next: most.next + 1,
    })
}

// Whether a gap with a < b begins at a place.
pub fn unequal_at(rule: &[u8], at: usize) -> bool
    ensures { result ≡ unequal_at (drop at rule.now) }
{
    if rule.get(at) != Some(&b'{') {
        return false;
    }
    read_bounds(rule, at).is_some_and(|gap| gap.least < gap.most)
}
