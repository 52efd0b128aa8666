// One reference of document 01: its reader, and the writer of its UTF-8 bytes.
#![tactic(auto)]

ghost use Rattle.std.specs.Prelude.{◌≡◌, ◌+◌, ◌*◌, ◌<◌, ◌≤◌, length, get_or};
ghost use Rattle.model.specs.References.{form_limit, is_char, decodes_to};
ghost use Rattle.reference_reader.specs.Reader.{code_limit, MatchIs, DigitIs, Saturated, base_of, number_reading, NamePlace, NumberPlace, ReadIs};
ghost use Rattle.reference_reader.specs.Utf8.{PutFine, Put};

use limits::FORM_LIMIT;

// What stands at the front of some bytes. `Decoded`: a legal reference, the code point that it decodes
// to and how many bytes spell it. `Literal`: none, so that the first byte stays. `Incomplete`: all the
// bytes are the beginning of a form.
#[derive(Drop)]
pub enum Reference {
    Decoded(u32, usize),
    Literal,
    Incomplete,
}

// The byte at i, and 0 past the end.
fn byte_or_zero(s: &[u8], i: usize) -> u8
    ensures { result ≡ get_or s.now i 0 }
{
    if i < s.len() {
        return s[i];
    }
    0
}

// A name's form against some bytes. `Whole`: they begin with it. `Prefix`: they are shorter, and begin it. `Different`: neither.
#[derive(Drop)]
pub enum NameMatch {
    Whole,
    Prefix,
    Different,
}

// The two, byte by byte.
fn match_name(name: &[u8], s: &[u8]) -> NameMatch
    ensures { MatchIs name.now s.now result }
{
    let mut i = 0;
    while i < name.len() {
        if i == s.len() {
            return NameMatch::Prefix;
        }
        if name[i] != s[i] {
            return NameMatch::Different;
        }
        i += 1;
    }
    NameMatch::Whole
}

// The value of a digit, or 16 for any other byte.
fn digit(c: u8, hex: bool) -> u32
    ensures { DigitIs hex c result }
{
    if c < 48 {
        return 16;
    }
    if c <= 57 {
        return c as u32 - 48;
    }
    if !hex {
        return 16;
    }
    if c < 65 {
        return 16;
    }
    if c <= 70 {
        return c as u32 - 55;
    }
    if c < 97 {
        return 16;
    }
    if c <= 102 {
        return c as u32 - 87;
    }
    16
}

// The first number over all code points.
const CODE_LIMIT: u32 = 1_114_112;

// A number, or the limit for any number from there on: none of these is a Char.
fn saturate(n: u32) -> u32
    ensures { Saturated n result }
{
    if n < CODE_LIMIT {
        return n;
    }
    CODE_LIMIT
}

// The number with one digit more. It never passes the limit, so that no number of digits overflows it.
fn push_digit(value: u32, d: u32, hex: bool) -> u32
    requires value_le_code_limit { value ≤ code_limit }
    requires d_bound { d < 16 }
    ensures { Saturated (value * base_of hex + d) result }
{
    if hex {
        return saturate(value * 16 + d);
    }
    saturate(value * 10 + d)
}

// "a Char of XML 1.0"
fn is_char(n: u32) -> bool
    ensures { result ≡ is_char n }
{
    if n == 9 {
        return true;
    }
    if n == 10 {
        return true;
    }
    if n == 13 {
        return true;
    }
    if n < 32 {
        return false;
    }
    if n <= 55295 {
        return true;
    }
    if n < 57344 {
        return false;
    }
    if n <= 65533 {
        return true;
    }
    if n < 65536 {
        return false;
    }
    if n <= 1114111 {
        return true;
    }
    false
}

// U+FFFD, for a number that is no Char.
const REPLACEMENT: u32 = 65_533;

// The code point that a form of number n decodes to.
fn char_or_replacement(n: u32) -> u32
    ensures { result ≡ decodes_to n }
{
    if is_char(n) {
        return n;
    }
    REPLACEMENT
}

// A number's digits from `from` on, up to a `;`.
fn read_number(s: &[u8], from: usize, hex: bool) -> Reference
    requires { NumberPlace s.now from }
    ensures { result ≡ number_reading hex from s.now }
{
    let mut value = 0;
    let mut i = from;
    while i < s.len() {
        let c = s[i];
        let d = digit(c, hex);
        if d == 16 {
            if c != b';' {
                return Reference::Literal;
            }
            if i == from {
                return Reference::Literal;
            }
            let bytes = i + 1;
            return Reference::Decoded(char_or_replacement(value), bytes);
        }
        value = push_digit(value, d, hex);
        i += 1;
    }
    if i == from {
        if s.len() + 2 <= FORM_LIMIT {
            return Reference::Incomplete;
        }
        return Reference::Literal;
    }
    if s.len() + 1 <= FORM_LIMIT {
        return Reference::Incomplete;
    }
    Reference::Literal
}

// One of the five names, or the beginning of one.
fn read_name(s: &[u8]) -> Reference
    requires { NamePlace s.now }
    ensures { ReadIs s.now result }
{
    let amp = match_name(b"&amp;", s);
    match amp {
        NameMatch::Whole => {
            return Reference::Decoded(38, 5);
        }
        NameMatch::Prefix => {
            return Reference::Incomplete;
        }
        NameMatch::Different => {}
    }
    let lt = match_name(b"&lt;", s);
    match lt {
        NameMatch::Whole => {
            return Reference::Decoded(60, 4);
        }
        NameMatch::Prefix => {
            return Reference::Incomplete;
        }
        NameMatch::Different => {}
    }
    let gt = match_name(b"&gt;", s);
    match gt {
        NameMatch::Whole => {
            return Reference::Decoded(62, 4);
        }
        NameMatch::Prefix => {
            return Reference::Incomplete;
        }
        NameMatch::Different => {}
    }
    let apos = match_name(b"&apos;", s);
    match apos {
        NameMatch::Whole => {
            return Reference::Decoded(39, 6);
        }
        NameMatch::Prefix => {
            return Reference::Incomplete;
        }
        NameMatch::Different => {}
    }
    let quot = match_name(b"&quot;", s);
    match quot {
        NameMatch::Whole => {
            return Reference::Decoded(34, 6);
        }
        NameMatch::Prefix => {
            return Reference::Incomplete;
        }
        NameMatch::Different => {}
    }
    Reference::Literal
}

// The reader, on at most as many bytes as a form has.
fn read_short(s: &[u8]) -> Reference
    requires { length s.now ≤ form_limit }
    ensures { ReadIs s.now result }
{
    if byte_or_zero(s, 0) != b'&' {
        return Reference::Literal;
    }
    if byte_or_zero(s, 1) != b'#' {
        return read_name(s);
    }
    if byte_or_zero(s, 2) == b'x' {
        return read_number(s, 3, true);
    }
    read_number(s, 2, false)
}

// What stands at the front of `s`. The first bytes, as many as a form has at most, decide it.
pub fn read_reference(s: &[u8]) -> Reference
    ensures { ReadIs s.now result }
{
    if s.len() > FORM_LIMIT {
        return read_short(&s[..FORM_LIMIT]);
    }
    read_short(s)
}

// Writes the UTF-8 bytes of a code point at the front of `out`, and returns how many.
pub fn put_utf8(out: &mut [u8], code: u32) -> usize
    requires { PutFine out.old code }
    ensures { Put out.old code result out.new }
{
    if code < 128 {
        out[0] = code as u8;
        return 1;
    }
    if code < 2048 {
        out[0] = (192 + code / 64) as u8;
        out[1] = (128 + code % 64) as u8;
        return 2;
    }
    if code < 65536 {
        out[0] = (224 + code / 4096) as u8;
        out[1] = (128 + code / 64 % 64) as u8;
        out[2] = (128 + code % 64) as u8;
        return 3;
    }
    out[0] = (240 + code / 262144) as u8;
    out[1] = (128 + code / 4096 % 64) as u8;
    out[2] = (128 + code / 64 % 64) as u8;
    out[3] = (128 + code % 64) as u8;
    4
}
