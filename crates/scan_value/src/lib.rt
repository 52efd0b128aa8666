// A scan value: a lent slice of numbers, the rule's part and then the plan's. Which values are impossible, when a
// scan call is refused, and how a value is read and written.
#![tactic(auto)]

ghost use Rattle.std.specs.Prelude.{◌≡◌, ◌<◌, ◌^◌, length, MatchResult};
ghost use Rattle.piece_decoder.specs.Held.{held_of};
ghost use Rattle.plan_part.specs.PlanPart.{LoadIs, HeldFits};
ghost use Rattle.scan_value.specs.Value.{scan_length, plan_of, low_masks_in, state_in, raw_in, read_in, decoded_in, Possible, PossibleIs, LetsIn, TurnsDown, written};

use answers::Refusal;
use piece_decoder::held::Held;
use shift_and_step::Masks;
use shift_and_wide::Wide;

// The rule's part comes first; the plan's begins here.
pub const PLAN: usize = rule_part::LENGTH;

pub const LENGTH: usize = PLAN + plan_part::LENGTH;

// The lowest words of the rule's masks.
pub fn low_masks_of(scan: &[u64]) -> Masks
    requires { length scan.now ≡ scan_length }
    ensures { result ≡ low_masks_in scan.now }
{
    Masks {
        repeats: scan[rule_part::REPEATS],
        optional: scan[rule_part::OPTIONAL],
        top: scan[rule_part::POSITIONS],
    }
}

// The state.
pub fn state_of(scan: &[u64]) -> Wide
    requires { length scan.now ≡ scan_length }
    ensures { result ≡ state_in scan.now }
{
    rule_part::words_at(scan, rule_part::STATE)
}

// The count of raw bytes taken.
pub fn raw_of(scan: &[u64]) -> u64
    requires { length scan.now ≡ scan_length }
    ensures { result ≡ raw_in scan.now }
{
    scan[PLAN + plan_part::RAW]
}

// The count of raw bytes read: those taken, without those held back.
pub fn read_of(scan: &[u64]) -> u64
    requires { Possible scan.now }
    ensures { result ≡ read_in scan.now }
{
    scan[PLAN + plan_part::RAW] - scan[PLAN + plan_part::HELD]
}

// The count of bytes decoded.
pub fn decoded_of(scan: &[u64]) -> u64
    requires { length scan.now ≡ scan_length }
    ensures { result ≡ decoded_in scan.now }
{
    scan[PLAN + plan_part::DECODED]
}

// The bytes held back.
pub fn load(scan: &[u64]) -> Held
    requires { Possible scan.now }
    ensures { LoadIs (plan_of scan.now) result }
{
    plan_part::load(&scan[PLAN..])
}

// Whether a scan value is possible: its length, and both parts.
fn possible(scan: &[u64]) -> bool
    ensures { PossibleIs scan.now result }
{
    if scan.len() != LENGTH {
        return false;
    }
    if rule_part::possible(&scan[..PLAN]) {
        return plan_part::possible(&scan[PLAN..]);
    }
    false
}

// Whether a call with a piece and a list of these lengths is let in, or why not.
pub fn check_call(scan: &[u64], piece: usize, list: usize) -> Result<(), Refusal>
    requires { piece < 2 ^ 63 }
    ensures { MatchResult result (λ _. LetsIn scan.now piece list) (TurnsDown scan.now piece list) }
{
    if possible(scan) {
        return plan_part::check_call(&scan[PLAN..], piece, list);
    }
    Err(Refusal::Impossible)
}

// Writes the state and the plan's part.
pub fn put(scan: &mut [u64], d: Wide, finished: u64, raw: u64, decoded: u64, h: Held)
    requires scan_len { length scan.old ≡ scan_length }
    requires held_fits { HeldFits h }
    ensures { scan.new ≡ written scan.old d finished raw decoded (held_of h) }
{
    rule_part::put_words(scan, rule_part::STATE, d);
    plan_part::put(&mut scan[PLAN..], finished, raw, decoded, h);
}
