// The rule's part of a scan value: the table B in four planes, plane j having word j of each byte's entry, and
// then R, A, the number of positions and the state D. It knows no plan, so that a plan may be scanned for
// several of them.
#![tactic(auto)]

ghost use Rattle.std.specs.Prelude.{◌≡◌, ◌+◌, ◌≤◌, length};
ghost use Rattle.rule_part.specs.RulePart.{rule_length, words_at, masks_of, RulePossibleIs, WordsPut, begun};

use shift_and_wide::{Wide, WideMasks};

pub const TABLE: usize = 1024;

pub const REPEATS: usize = TABLE;

pub const OPTIONAL: usize = REPEATS + 4;

pub const POSITIONS: usize = OPTIONAL + 4;

pub const STATE: usize = POSITIONS + 1;

pub const LENGTH: usize = STATE + 4;

// The limit as a word.
const POSITION_LIMIT: u64 = limits::POSITION_LIMIT as u64;

// The four words from k on.
pub fn words_at(part: &[u64], k: usize) -> Wide
    requires { k + 4 ≤ length part.now }
    ensures { result ≡ words_at k part.now }
{
    let k1 = k + 1;
    let k2 = k + 2;
    let k3 = k + 3;
    Wide {
        w0: part[k],
        w1: part[k1],
        w2: part[k2],
        w3: part[k3],
    }
}

// Stores four words from k on.
pub fn put_words(part: &mut [u64], k: usize, x: Wide)
    requires { k + 4 ≤ length part.old }
    ensures { WordsPut part.old k x part.new }
{
    let k1 = k + 1;
    let k2 = k + 2;
    let k3 = k + 3;
    part[k] = x.w0;
    part[k1] = x.w1;
    part[k2] = x.w2;
    part[k3] = x.w3;
}

// The masks.
pub fn masks_of(part: &[u64]) -> WideMasks
    requires { length part.now ≡ rule_length }
    ensures { result ≡ masks_of part.now }
{
    let repeats = words_at(part, REPEATS);
    let optional = words_at(part, OPTIONAL);
    let top = part[POSITIONS];
    WideMasks {
        repeats: repeats,
        optional: optional,
        top: top,
    }
}

// Whether the part is possible. Any table, masks and state are.
pub fn possible(part: &[u64]) -> bool
    requires { length part.now ≡ rule_length }
    ensures { RulePossibleIs part.now result }
{
    if part[POSITIONS] < 1 {
        return false;
    }
    part[POSITIONS] <= POSITION_LIMIT
}

// Writes all but the table: the masks, and the state before the first byte.
pub fn begin(part: &mut [u64], masks: WideMasks)
    requires { length part.old ≡ rule_length }
    ensures { part.new ≡ begun part.old masks }
{
    let repeats = masks.repeats;
    let optional = masks.optional;
    put_words(part, REPEATS, repeats);
    put_words(part, OPTIONAL, optional);
    part[POSITIONS] = masks.top;
    let d = shift_and_wide::start_state(optional);
    put_words(part, STATE, d);
}
