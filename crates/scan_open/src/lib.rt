// Opens a scan: the parts of a scan value for a rule, of whose plan nothing is read yet.
#![tactic(auto)]

ghost use Rattle.std.specs.Prelude.{◌≡◌};
ghost use Rattle.model.specs.Codes.{smudged};
ghost use Rattle.model.specs.RuleText.{fold_flag};
ghost use Rattle.rule_part.specs.RulePart.{rule_length};
ghost use Rattle.scan_value.specs.Value.{scan_length};
ghost use Rattle.scan_open.specs.Opening.{Openable, opening_rule, opening_of, OpenIs, OpenTried};

use answers::{Opened, Refusal, Refused};
use rule_parser::Prepared;
use shift_and_wide::WideMasks;

// The rule's part: its table, its masks and the state before the first byte.
fn open_rule(rule: &[u8], fold: u32, codes: &[u8], sets: &[u8], p: Prepared, part: &mut [u64])
    requires { Openable fold rule.now codes.now sets.now p rule_length part.old }
    ensures { part.new ≡ opening_rule (smudged (fold_flag fold) rule.now codes.now sets.now) }
{
    code_table::fill(
        rule,
        fold,
        codes,
        sets,
        p.positions,
        &mut part[..rule_part::TABLE],
        false,
    );
    let repeats = p.repeats;
    let optional = p.optional;
    let masks = WideMasks {
        repeats,
        optional,
        top: p.positions as u64,
    };
    rule_part::begin(part, masks);
}

// Both parts, of an accepted rule with accepted codes.
fn open_accepted(rule: &[u8], fold: u32, codes: &[u8], sets: &[u8], p: Prepared, scan: &mut [u64])
    requires { Openable fold rule.now codes.now sets.now p scan_length scan.old }
    ensures { scan.new ≡ opening_of (smudged (fold_flag fold) rule.now codes.now sets.now) }
{
    open_rule(rule, fold, codes, sets, p, &mut scan[..scan_value::PLAN]);
    let none = piece_decoder::held::nothing_held();
    plan_part::put(&mut scan[scan_value::PLAN..], 0, 0, 0, none);
}

// Opens a scan for a rule with codes, and returns what is prepared of the rule.
fn try_open(
    rule: &[u8],
    fold: u32,
    codes: &[u8],
    sets: &[u8],
    scan: &mut [u64],
) -> Result<Prepared, Refused>
    ensures { OpenTried fold rule.now codes.now sets.now scan.old result scan.new }
{
    let p = rule_codes::prepare(rule, fold, codes, sets)?;
    if scan.len() != scan_value::LENGTH {
        return Err(Refusal::Impossible.at(0));
    }
    open_accepted(rule, fold, codes, sets, p, scan);
    Ok(p)
}

// The same, as a host is answered.
pub fn open(rule: &[u8], fold: u32, codes: &[u8], sets: &[u8], scan: &mut [u64]) -> Opened
    ensures { OpenIs fold rule.now codes.now sets.now scan.old result scan.new }
{
    match try_open(rule, fold, codes, sets, scan) {
        Ok(p) => Opened::accepted(p.positions, p.shortest),
        Err(refused) => Opened::from(refused),
    }
}
