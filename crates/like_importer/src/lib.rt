// Note 2's importer: an SQL LIKE pattern becomes rule text in a lent buffer. The pattern is read twice: to judge it and to measure its
// text, which takes no memory however long it is, and then, where nothing refuses it, to write that.
#![tactic(auto)]

ghost use Rattle.std.specs.Prelude.{◌≡◌, ◌+◌, ◌≤◌, ◌<◌, get_or, length, MatchResult};
ghost use Rattle.model.specs.Ascii.{byte_of};
ghost use Rattle.model.specs.RuleText.{one_of, marks};
ghost use Rattle.model.specs.Like.{plain};
ghost use Rattle.model.specs.NumberedAnswers.{text_limit};
ghost use Rattle.like_importer.specs.Importing.{Spells, ReadsItem, spelling, added, Addable, MeasuredIs, MisspeltIs, PutIs, Writable, WrittenIs, Importable, ItemsTried, ImportIs, ImportTried};

use answers::{Refusal, Refused, Text};
use limits::{POSITION_LIMIT, RULE_LIMIT, TEXT_LIMIT};

// An item of a pattern, as its rule text: one byte or two. `some` says that it must have a byte of the name.
#[derive(Clone, Copy)]
pub struct Item {
    pub first: u8,
    pub second: Option<u8>,
    pub some: bool,
}

// What refuses the rule text of some items: how many they are, how long it is, how long that of the first 255 is, and whether some
// item must have a byte.
#[derive(Drop)]
pub struct Measure {
    pub items: usize,
    pub length: usize,
    pub past: usize,
    pub some: bool,
}

// Whether c is a mark of rules. (`rule_class` has the same tests inside a reader. With a second caller they were no longer part of its code,
// which goes into other calls too: of eight rules four were then searched for at .89 to .95 of the speed.)
fn is_mark(c: u8) -> bool
    ensures { result ≡ one_of marks c }
{
    matches!(
        c,
        b'.' | b'[' | b']' | b'{' | b'}' | b'?' | b'+' | b'*' | b'\\'
    )
}

// "any other byte that is a mark gains a backslash"
fn plain_item(c: u8) -> Item
    ensures { Spells (plain c) result }
{
    if is_mark(c) {
        return Item {
            first: b'\\',
            second: Some(c),
            some: true,
        };
    }
    Item {
        first: c,
        second: None,
        some: true,
    }
}

// The item of the backslash at a place, and the place after it, or none if it is no escape: "backslash before `%`, `_` or itself as escape".
fn escaped_item(pattern: &[u8], at: usize) -> Option<(Item, usize)>
    requires at_in_bounds { at < length pattern.now }
    requires at_value { get_or pattern.now at 0 ≡ byte_of "\\" }
    ensures { ReadsItem pattern.now at result }
{
    let next = at + 1;
    if pattern.len() <= next {
        return None;
    }
    let c = pattern[next];
    if c == b'%' {
        return Some((plain_item(c), next + 1));
    }
    if c == b'_' {
        return Some((plain_item(c), next + 1));
    }
    if c == b'\\' {
        return Some((plain_item(c), next + 1));
    }
    None
}

// The item at a place, and the place after it, or none for a backslash that is no escape: "`%` becomes `.*`, `_` a dot".
fn read_item(pattern: &[u8], at: usize) -> Option<(Item, usize)>
    requires { at < length pattern.now }
    ensures { ReadsItem pattern.now at result }
{
    let c = pattern[at];
    if c == b'%' {
        let any = Item {
            first: b'.',
            second: Some(b'*'),
            some: false,
        };
        return Some((any, at + 1));
    }
    if c == b'_' {
        let one = Item {
            first: b'.',
            second: None,
            some: true,
        };
        return Some((one, at + 1));
    }
    if c == b'\\' {
        return escaped_item(pattern, at);
    }
    Some((plain_item(c), at + 1))
}

// How long an item's rule text is.
fn item_length(x: Item) -> usize
    ensures { result ≡ length (spelling x) }
{
    match x.second {
        Some(_) => 2,
        None => 1,
    }
}

// One item more.
fn add_item(m: Measure, x: Item) -> Measure
    requires { Addable m }
    ensures { result ≡ added m x }
{
    let items = m.items;
    let length = m.length + item_length(x);
    let some = m.some | x.some;
    if items < POSITION_LIMIT as usize {
        return Measure {
            items: items + 1,
            length: length,
            past: length,
            some: some,
        };
    }
    Measure {
        items: items + 1,
        length: length,
        past: m.past,
        some: some,
    }
}

// Reads a pattern to its end, or to the first backslash that is no escape.
fn read_pattern(pattern: &[u8]) -> Result<Measure, Refused>
    requires { length pattern.now ≤ text_limit }
    ensures { MatchResult result (MeasuredIs pattern.now) (MisspeltIs pattern.now) }
{
    let mut at = 0;
    let mut m = Measure {
        items: 0,
        length: 0,
        past: 0,
        some: false,
    };
    while at < pattern.len() {
        let Some((x, next)) = read_item(pattern, at) else {
            return Err(Refusal::LikeFault.at(at as u32));
        };
        m = add_item(m, x);
        at = next;
    }
    Ok(m)
}

// Writes an item's rule text at a place of the buffer, and returns where it ends.
fn put_item(x: Item, out: &mut [u8], at: usize) -> usize
    requires { at + length (spelling x) ≤ length out.old }
    ensures { PutIs x out.old at result out.new }
{
    out[at] = x.first;
    let end = at + 1;
    let Some(second) = x.second else {
        return end;
    };
    out[end] = second;
    end + 1
}

// Writes a pattern's rule text.
fn write(pattern: &[u8], out: &mut [u8])
    requires { Writable pattern.now (length out.old) }
    ensures { WrittenIs pattern.now out.old out.new }
{
    let mut at = 0;
    let mut end = 0;
    while at < pattern.len() {
        let Some((x, next)) = read_item(pattern, at) else {
            return;
        };
        end = put_item(x, out, end);
        at = next;
    }
}

// Imports a pattern that is spelt right, and returns the length of its rule text: refused as that is, which nothing but 1, 2, 7 and 8 refuse.
fn import_items(pattern: &[u8], m: Measure, out: &mut [u8]) -> Result<u32, Refused>
    requires { Importable pattern.now m (length out.old) }
    ensures { ItemsTried pattern.now out.old result out.new }
{
    if m.length == 0 {
        return Err(Refusal::RuleEmpty.at(0));
    }
    if RULE_LIMIT < m.length {
        return Err(Refusal::RuleLong.at(RULE_LIMIT as u32));
    }
    if (POSITION_LIMIT as usize) < m.items {
        return Err(Refusal::TooManyPositions.at(m.past as u32));
    }
    if !m.some {
        return Err(Refusal::AdmitsEmpty.at(m.length as u32));
    }
    write(pattern, out);
    Ok(m.length as u32)
}

// Imports a LIKE pattern into the lent buffer: refused by 9 if that is shorter than a rule may be, then by 10, then by 14 wherever in the
// pattern its first bad backslash stands, then as its rule text is.
fn try_import(pattern: &[u8], out: &mut [u8]) -> Result<u32, Refused>
    ensures { ImportTried pattern.now out.old result out.new }
{
    if out.len() < RULE_LIMIT {
        return Err(Refusal::TooShort.at(0));
    }
    if TEXT_LIMIT < pattern.len() {
        return Err(Refusal::TooMuch.at(0));
    }
    let m = read_pattern(pattern)?;
    import_items(pattern, m, out)
}

// The same, as a host is answered.
pub fn import_like(pattern: &[u8], out: &mut [u8]) -> Text
    ensures { ImportIs pattern.now out.old result out.new }
{
    match try_import(pattern, out) {
        Ok(length) => Text::written(length),
        Err(refused) => Text::from(refused),
    }
}
