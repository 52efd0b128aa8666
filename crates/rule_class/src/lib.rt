// The items of a class (document 01, "Rule text"), by index into the whole rule: an end of a range, an item, and all items up to
// the `]` as a set of bytes. Each contract is one record of `specs/Items.antt`: an equation with the model's own reading of the
// bytes from that index on, and the bounds that callers want. A reader that finds nothing of its kind answers `None`.
#![tactic(auto)]

ghost use Rattle.std.specs.Prelude.{◌≡◌, ◌<◌, length};
ghost use Rattle.model.specs.RuleText.{may_escape};
ghost use Rattle.rule_class.specs.Items.{ReadsEnd, ReadsEscape, ReadsItem, ReadsItems};

use byte_set::ByteSet;

// A range (a single byte is one of length 1) or the closing `]`, and the place after it.
#[derive(Clone, Copy)]
pub enum ClassItem {
    Range(u8, u8, usize),
    Close(usize),
}

// Whether `\` may stand before c.
fn escapable(c: u8) -> bool
    ensures { result ≡ may_escape c }
{
    matches!(
        c,
        b'.' | b'[' | b']' | b'{' | b'}' | b'?' | b'+' | b'*' | b'\\' | b'^' | b'-'
    )
}

// The byte that the `\` at a place gives, and the place after it.
pub fn read_escape(rule: &[u8], at: usize) -> Option<(u8, usize)>
    requires { at < length rule.now }
    ensures { ReadsEscape rule.now at result }
{
    let next = at + 1;
    let c = *rule.get(next)?;
    if !escapable(c) {
        return None;
    }
    Some((c, next + 1))
}

// One end of a range in a class, or a single byte, which may be escaped; and the place after it.
fn read_end(rule: &[u8], at: usize) -> Option<(u8, usize)>
    ensures { ReadsEnd rule.now at result }
{
    match *rule.get(at)? {
        b'\\' => read_escape(rule, at),
        b']' | b'-' => None,
        c => Some((c, at + 1)),
    }
}

// What stands next in a class.
fn read_item(rule: &[u8], at: usize) -> Option<ClassItem>
    ensures { ReadsItem rule.now at result }
{
    if *rule.get(at)? == b']' {
        return Some(ClassItem::Close(at + 1));
    }
    let (low, next) = read_end(rule, at)?;
    if rule.get(next) != Some(&b'-') {
        return Some(ClassItem::Range(low, low, next));
    }
    let (high, after) = read_end(rule, next + 1)?;
    if high < low {
        return None;
    }
    Some(ClassItem::Range(low, high, after))
}

// The items of a class from a place on, up to its `]`, and the place after that: their ranges are added to the set as they are read.
pub fn read_items(rule: &[u8], from: usize) -> Option<(ByteSet, usize)>
    ensures { ReadsItems rule.now from result }
{
    let mut set = ByteSet::new();
    let mut at = from;
    loop {
        match read_item(rule, at)? {
            ClassItem::Range(low, high, next) => {
                set.insert_range(low, high);
                at = next;
            }
            ClassItem::Close(next) => {
                return Some((set, next));
            }
        }
    }
}
