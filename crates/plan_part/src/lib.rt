// The plan's part of a scan value: whether it has finished, the counts of raw and of decoded bytes, and the bytes
// held back. It knows no rule, so that one such part serves any number of them.
#![tactic(auto)]

ghost use Rattle.std.specs.Prelude.{◌≡◌, ◌<◌, ◌^◌, length, MatchResult};
ghost use Rattle.std.proofs.lemmas.List.Edits.{sets};
ghost use Rattle.piece_decoder.specs.Held.{held_of};
ghost use Rattle.plan_part.specs.PlanPart.{plan_length, held_at, held_words, held_byte_of, is_tail, BytePlace, LoadFine, LoadIs, PlanPossibleIs, PlanPossible, PlanLetsIn, PlanTurnsDown, HeldFits, Widened, HeldByteIs, PackFine, Packed, words_of, plan_fields};

use answers::Refusal;
use limits::{FORM_LIMIT, HELD_MOST, PAIR};
use piece_decoder::held::Held;
use reference_reader::Reference;

pub const FINISHED: usize = 0;

pub const RAW: usize = FINISHED + 1;

pub const DECODED: usize = RAW + 1;

pub const HELD: usize = DECODED + 1;

pub const HELD_BYTES: usize = HELD + 1;

// Eight held bytes to a word.
const HELD_WORDS: usize = (HELD_MOST + 7) / 8;

pub const LENGTH: usize = HELD_BYTES + HELD_WORDS;

// The limit as a word.
const TEXT_LIMIT: u64 = limits::TEXT_LIMIT as u64;

// Held byte j: byte j mod 8, the lowest being 0, of held word j / 8.
fn loaded_byte(part: &[u64], j: usize) -> u8
    requires { BytePlace part.now j }
    ensures { result ≡ held_byte_of part.now j }
{
    let w = part[HELD_BYTES + j / 8];
    ((w >> (8 * (j % 8))) % 256) as u8
}

// The held bytes.
pub fn load(part: &[u64]) -> Held
    requires { LoadFine part.now }
    ensures { LoadIs part.now result }
{
    let n = part[HELD] as usize;
    let mut t = [0u8; FORM_LIMIT];
    for j in 0..n {
        t[j] = loaded_byte(part, j);
    }
    Held { bytes: t, len: n }
}

// Whether held bytes, if any, can still grow into a form.
fn tail_fits(h: Held) -> bool
    requires { HeldFits h }
    ensures { result ≡ is_tail (held_of h) }
{
    let n = h.len;
    if n == 0 {
        return true;
    }
    let t = h.bytes;
    matches!(
        reference_reader::read_reference(&t[..n]),
        Reference::Incomplete
    )
}

// Whether the part is possible.
pub fn possible(part: &[u64]) -> bool
    requires { length part.now ≡ plan_length }
    ensures { PlanPossibleIs part.now result }
{
    if part[FINISHED] > 1 {
        return false;
    }
    if part[RAW] > TEXT_LIMIT {
        return false;
    }
    if part[DECODED] > TEXT_LIMIT {
        return false;
    }
    if part[HELD] > HELD_MOST as u64 {
        return false;
    }
    if part[DECODED] + part[HELD] > part[RAW] {
        return false;
    }
    let h = load(part);
    tail_fits(h)
}

// Whether a call with a piece and a list of these lengths is let in, or why not. The list is counted in pairs, as the numbers that it needs
// may be past 64 bits.
pub fn check_call(part: &[u64], piece: usize, list: usize) -> Result<(), Refusal>
    requires plan_possible { PlanPossible part.now }
    requires piece_bound { piece < 2 ^ 63 }
    ensures { MatchResult result (λ _. PlanLetsIn part.now piece list) (PlanTurnsDown part.now piece list) }
{
    if part[FINISHED] > 0 {
        return Err(Refusal::AlreadyFinished);
    }
    let over = part[RAW] + piece as u64 > TEXT_LIMIT;
    let short = list / PAIR < piece + HELD_MOST;
    if over {
        return Err(Refusal::TooMuch);
    }
    if short {
        return Err(Refusal::TooShort);
    }
    Ok(())
}

// A byte as a word. A function of its own, as the range of an array's byte is known only of a parameter.
fn wide(c: u8) -> u64
    ensures { Widened c result }
{
    u64::from(c)
}

// The held byte j, or 0 past them.
fn held_byte(h: Held, j: usize) -> u64
    requires { HeldFits h }
    ensures { HeldByteIs h j result }
{
    let n = h.len;
    if j < n {
        let t = h.bytes;
        return wide(t[j]);
    }
    0
}

// Four held bytes as one number, the first lowest.
fn pack_four(h: Held, j: usize) -> u64
    requires { PackFine h j 4 }
    ensures { Packed h j 4 result }
{
    let a = held_byte(h, j);
    let b = held_byte(h, j + 1);
    let c = held_byte(h, j + 2);
    let d = held_byte(h, j + 3);
    a + 256 * b + 65536 * c + 16777216 * d
}

// Eight of them. Mostly there are none.
fn pack_eight(h: Held, j: usize) -> u64
    requires { PackFine h j 8 }
    ensures { Packed h j 8 result }
{
    if j >= h.len {
        return 0;
    }
    let low = pack_four(h, j);
    let high = pack_four(h, j + 4);
    low + 4294967296 * high
}

// Writes the held words.
fn store_held(part: &mut [u64], h: Held)
    requires part_len { length part.old ≡ plan_length }
    requires held_fits { HeldFits h }
    ensures { part.new ≡ sets part.old held_at (words_of held_words (held_of h)) }
{
    for k in 0..HELD_WORDS {
        let w = pack_eight(h, 8 * k);
        part[HELD_BYTES + k] = w;
    }
}

// Writes the whole part.
pub fn put(part: &mut [u64], finished: u64, raw: u64, decoded: u64, h: Held)
    requires part_len { length part.old ≡ plan_length }
    requires held_fits { HeldFits h }
    ensures { part.new ≡ plan_fields finished raw decoded (held_of h) }
{
    part[FINISHED] = finished;
    part[RAW] = raw;
    part[DECODED] = decoded;
    part[HELD] = h.len as u64;
    store_held(part, h);
}
