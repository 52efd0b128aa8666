// The codes that a caller names for a smudged plan, a byte each, and their sets, 32 bytes for each code; and what refuses
// them under every rule (row 15).
#![tactic(auto)]

ghost use Rattle.std.specs.Prelude.{◌≡◌, ◌*◌, ◌≤◌, length};
ghost use Rattle.model.specs.RuleText.{one_of, some_below};
ghost use Rattle.model.specs.Codes.{set_bytes, in_set, share, codes_most, codes_of, named_twice, set_wrong, sets_wrong, codes_wrong};

use limits::{CODES_MOST, SET_BYTES};

// Whether x is in a set: "bit x mod 8, the lowest being 0, of byte x / 8 stands for x".
pub fn in_set(set: &[u8], x: u8) -> bool
    requires { length set.now ≡ set_bytes }
    ensures { result ≡ in_set set.now x }
{
    let i = (x / 8) as usize;
    (set[i] >> (x % 8)) % 2 == 1
}

// "a code is named twice"
fn named_twice(codes: &[u8]) -> bool
    ensures { result ≡ named_twice codes.now }
{
    let mut rest = codes;
    while let Some((code, others)) = rest.split_first() {
        if others.contains(code) {
            return true;
        }
        rest = others;
    }
    false
}

// Whether a set has some byte.
fn has_byte(set: &[u8]) -> bool
    requires { length set.now ≡ set_bytes }
    ensures { result ≡ some_below (in_set set.now) 256 }
{
    (0..256usize).any(|x| in_set(set, x as u8))
}

// Whether a set "holds a code".
fn holds_code(set: &[u8], codes: &[u8]) -> bool
    requires { length set.now ≡ set_bytes }
    ensures { result ≡ share (in_set set.now) (one_of codes.now) }
{
    codes.iter().any(|code| in_set(set, *code))
}

// "a set is empty or holds a code"
fn set_wrong(codes: &[u8], set: &[u8]) -> bool
    requires { length set.now ≡ set_bytes }
    ensures { result ≡ set_wrong codes.now set.now }
{
    !has_byte(set) || holds_code(set, codes)
}

// The same of the set of some code.
fn sets_wrong(codes: &[u8], sets: &[u8]) -> bool
    requires sets_len { length sets.now ≡ set_bytes * length codes.now }
    requires codes_len_bound { length codes.now ≤ codes_most }
    ensures { result ≡ sets_wrong codes.now (codes_of codes.now sets.now) }
{
    for set in sets.chunks_exact(SET_BYTES) {
        if set_wrong(codes, set) {
            return true;
        }
    }
    false
}

// What 15 refuses under every rule.
pub fn wrong(codes: &[u8], sets: &[u8]) -> bool
    ensures { result ≡ codes_wrong codes.now sets.now }
{
    codes.len() > CODES_MOST
        || sets.len() != SET_BYTES * codes.len()
        || named_twice(codes)
        || sets_wrong(codes, sets)
}
