// Whether a rule covers a seat name from its first byte to its last (note 2). The name is read once, forwards and without new beginnings, and
// no further where no state is left. It takes no codes, and decodes nothing.
#![tactic(auto)]

ghost use Rattle.std.specs.Prelude.{◌≡◌};
ghost use Rattle.model.specs.RuleText.{fold_flag};
ghost use Rattle.model.specs.NumberedAnswers.{rule_positions};
ghost use Rattle.model.specs.WholeNames.{covers};
ghost use Rattle.whole_match.specs.Covering.{reads_whole, Coverable, CoverableLow, CoversIs, CoversTried};

use answers::{Covered, Refusal, Refused};
use limits::TEXT_LIMIT;
use rule_parser::Prepared;
use shift_and_step::Masks;
use shift_and_wide::WideMasks;
use window_reader::{Reader, States, WideReader, WordReader};

// Reads a name by the forward automaton: whether the top position is reached with its last byte.
fn reads<R: Reader>(forward: &R, name: &[u8]) -> bool
    ensures { result ≡ reads_whole (R.automaton forward.now) name.now }
{
    let mut d = forward.start_state();
    for b in name {
        let c = byte_search::byte_index(*b);
        d = forward.step_on(0, d, c);
        if d.is_empty() {
            return false;
        }
    }
    forward.accepts(d)
}

// Whether a rule of at most 63 positions covers the name.
fn covers_low(rule: &[u8], fold: u32, p: Prepared, name: &[u8]) -> bool
    requires { CoverableLow fold rule.now p }
    ensures { result ≡ covers (rule_positions (fold_flag fold) rule.now) name.now }
{
    let total = p.positions;
    let repeats = p.repeats;
    let optional = p.optional;
    let masks = Masks {
        repeats: repeats.w0,
        optional: optional.w0,
        top: total as u64,
    };
    let mut forward = [0u64; 256];
    rule_table::fill_plane(rule, fold, total, &mut forward, false, 0);
    let reader = WordReader::new(&forward, masks);
    reads(&reader, name)
}

// The same for a rule of any number of positions.
fn covers_wide(rule: &[u8], fold: u32, p: Prepared, name: &[u8]) -> bool
    requires { Coverable fold rule.now p }
    ensures { result ≡ covers (rule_positions (fold_flag fold) rule.now) name.now }
{
    let total = p.positions;
    let repeats = p.repeats;
    let optional = p.optional;
    let masks = WideMasks {
        repeats: repeats,
        optional: optional,
        top: total as u64,
    };
    let mut forward = [0u64; 1024];
    rule_table::fill(rule, fold, total, &mut forward, false);
    let reader = WideReader::new(&forward, masks);
    reads(&reader, name)
}

// Whether an accepted rule covers the name: in one word where that does.
fn covers_accepted(rule: &[u8], fold: u32, p: Prepared, name: &[u8]) -> bool
    requires { Coverable fold rule.now p }
    ensures { result ≡ covers (rule_positions (fold_flag fold) rule.now) name.now }
{
    if p.positions < rule_parser::ONE_WORD {
        return covers_low(rule, fold, p, name);
    }
    covers_wide(rule, fold, p, name)
}

// Whether the rule covers the name: refused as the rule is, then by 10.
fn try_covers(rule: &[u8], fold: u32, name: &[u8]) -> Result<bool, Refused>
    ensures { CoversTried fold rule.now name.now result }
{
    let p = rule_parser::prepare(rule, fold)?;
    if TEXT_LIMIT < name.len() {
        return Err(Refusal::TooMuch.at(0));
    }
    Ok(covers_accepted(rule, fold, p, name))
}

// The same, as a host is answered.
pub fn covers_name(rule: &[u8], fold: u32, name: &[u8]) -> Covered
    ensures { CoversIs fold rule.now name.now result }
{
    match try_covers(rule, fold, name) {
        Ok(covers) => Covered::judged(covers),
        Err(refused) => Covered::from(refused),
    }
}
