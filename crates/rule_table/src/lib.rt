// The table of a rule: for each byte the mask of the positions that admit it. Forwards position i stands at bit i, reversed at bit n + 1 - i,
// n being the number of positions. A mask has four words, and a lent table four planes of 256: plane j
// has word j of each byte's mask.
#![tactic(auto)]

ghost use Rattle.std.specs.Prelude.{◌≡◌, ◌≤◌, length};
ghost use Rattle.model.specs.RuleText.{position_limit};
ghost use Rattle.rule_element.specs.Reading.{size_of};
ghost use Rattle.shift_and_wide.specs.Wides.{number, word_of, words_of};
ghost use Rattle.rule_table.specs.Tables.{Gains, always, has_byte, in_set, admits_by, SlotsFit, slot_bits, Placed};
ghost use Rattle.rule_table.specs.Tables.{PlaneFillable, PlaneFilled, Fillable, Filled, mirror};

use byte_set::ByteSet;
use rule_element::Kind;
use shift_and_wide::Wide;

// Every entry gains the bits.
fn admit_all(table: &mut [u64], bits: u64)
    requires { length table.old ≡ 256 }
    ensures { Gains always bits table.old table.new }
{
    for entry in table.iter_mut() {
        *entry |= bits;
    }
}

// The entries of the bytes in the set gain the bits.
fn admit_class(table: &mut [u64], set: ByteSet, bits: u64)
    requires { length table.old ≡ 256 }
    ensures { Gains (in_set set.words) bits table.old table.new }
{
    for (c, entry) in table.iter_mut().enumerate() {
        if set.contains(c as u8) {
            *entry |= bits;
        }
    }
}

// The entry of one byte gains the bits, and with the fold flag set that of its other case: no loop.
fn admit_byte(table: &mut [u64], b: u8, fold: bool, bits: u64)
    requires { length table.old ≡ 256 }
    ensures { Gains (has_byte fold b) bits table.old table.new }
{
    let i = byte_search::byte_index(b);
    let own = table[i] | bits;
    if fold {
        let o = byte_search::byte_index(byte_set::other_case(i));
        table[o] = table[o] | bits;
        table[i] = own;
        return;
    }
    table[i] = own;
}

// The entries of the bytes that an element admits gain the bits.
fn admit_element(table: &mut [u64], kind: Kind, fold: bool, bits: u64)
    requires { length table.old ≡ 256 }
    ensures { Gains (admits_by fold kind) bits table.old table.new }
{
    match kind {
        Kind::Byte(b) => admit_byte(table, b, fold, bits),
        Kind::Class(set) => admit_class(table, set, bits),
        Kind::Any | Kind::Gap(_, _) => admit_all(table, bits),
    }
}

// A word of the bits of n positions after `used` of `total`.
fn slots(n: u32, used: u32, total: u32, reversed: bool, word: u32) -> u64
    requires { SlotsFit n used total word }
    ensures { result ≡ word_of word (slot_bits n used total reversed) }
{
    if reversed {
        return shift_and_wide::bits_of(n, total - used - n + 1, word);
    }
    shift_and_wide::bits_of(n, used + 1, word)
}

// One element after `used` positions of `total`: the entries of the bytes that it admits gain this word
// of the bits of its positions. Returns how many positions it makes.
fn place(
    table: &mut [u64],
    kind: Kind,
    fold: bool,
    used: u32,
    total: u32,
    reversed: bool,
    word: u32,
) -> u32
    requires table_len { length table.old ≡ 256 }
    requires slots_fit { SlotsFit (size_of kind) used total word }
    ensures { Placed fold kind used total reversed word table.old result table.new }
{
    let n = rule_element::size(kind);
    let bits = slots(n, used, total, reversed, word);
    admit_element(table, kind, fold, bits);
    n
}

// A plane by the rule: entry c becomes this word of the mask of the positions that admit c.
fn read_plane(rule: &[u8], fold: u32, total: u32, plane: &mut [u64], reversed: bool, word: u32)
    requires { PlaneFillable fold rule.now total plane.old word }
    ensures { PlaneFilled fold rule.now reversed plane.new word }
{
    plane.fill(0);
    let f = rule_parser::folds(fold);
    let mut at = 0;
    let mut used = 0u32;
    while at < rule.len() {
        let Ok((element, next)) = rule_element::read_element(rule, at, f, used) else {
            return;
        };
        used += place(plane, element.kind, f, used, total, reversed, word);
        at = next;
    }
}

// The same; but where no position has a bit in this word, the rule is not read.
pub fn fill_plane(rule: &[u8], fold: u32, total: u32, plane: &mut [u64], reversed: bool, word: u32)
    requires { PlaneFillable fold rule.now total plane.old word }
    ensures { PlaneFilled fold rule.now reversed plane.new word }
{
    let from = word * 64;
    if total < from {
        plane.fill(0);
        return;
    }
    read_plane(rule, fold, total, plane, reversed, word);
}

// The table of an accepted rule, whose number of positions `prepare` gave.
pub fn fill(rule: &[u8], fold: u32, total: u32, table: &mut [u64], reversed: bool)
    requires { Fillable fold rule.now total table.old }
    ensures { Filled fold rule.now reversed table.new }
{
    for word in 0..4u32 {
        let at = word as usize * 256;
        fill_plane(rule, fold, total, &mut table[at..at + 256], reversed, word);
    }
}

// The mask of n positions for the reversed rule: bit i goes to bit n + 1 - i.
pub fn mirrored(mask: Wide, n: u32) -> Wide
    requires { n ≤ position_limit }
    ensures { result ≡ words_of (mirror (number mask) n) }
{
    let mut from = shift_and_wide::halved(mask);
    let mut to = shift_and_wide::no_bits();
    for _ in 0..n {
        to = shift_and_wide::doubled(to, from.w0 % 2);
        from = shift_and_wide::halved(from);
    }
    shift_and_wide::doubled(to, 0)
}
