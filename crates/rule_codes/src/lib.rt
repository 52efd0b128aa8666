// A rule with codes: what refuses the rule, and then, by row 15, the codes beside it.
#![tactic(auto)]

ghost use Rattle.std.specs.Prelude.{◌≡◌, ◌<◌};
ghost use Rattle.model.specs.RuleText.{fold_flag};
ghost use Rattle.model.specs.NumberedAnswers.{rule_positions};
ghost use Rattle.model.specs.Codes.{codes_alone};
ghost use Rattle.byte_set.specs.Sets.{none};
ghost use Rattle.rule_codes.specs.RuleCodes.{add_codes, byte_alone, KindAloneIs, Judgeable, PreparesWith};

use answers::{Refusal, Refused};
use byte_set::ByteSet;
use rule_element::Kind;
use rule_parser::Prepared;

// The codes as a set.
fn code_set(codes: &[u8]) -> ByteSet
    ensures { result.words ≡ add_codes none codes.now }
{
    let mut set = ByteSet::new();
    for code in codes {
        set.insert(*code);
    }
    set
}

// Whether a byte, and with the fold flag set its other case, is a code.
fn byte_alone(i: usize, fold: bool, codes: ByteSet) -> bool
    requires { i < 256 }
    ensures { result ≡ byte_alone fold i codes.words }
{
    codes.contains(i as u8) && (!fold || codes.contains(byte_set::other_case(i)))
}

// Whether an element admits codes alone. Eight codes leave a byte, so that any byte and a gap do not.
fn kind_alone(kind: Kind, fold: bool, codes: ByteSet) -> bool
    ensures { KindAloneIs fold kind codes.words result }
{
    match kind {
        Kind::Byte(b) => byte_alone(byte_search::byte_index(b), fold, codes),
        Kind::Class(set) => set.without(codes).is_empty(),
        Kind::Any | Kind::Gap(_, _) => false,
    }
}

// "a position holds codes alone", of an accepted rule, element by element.
fn some_alone(rule: &[u8], fold: u32, codes: &[u8]) -> bool
    requires { Judgeable fold rule.now codes.now }
    ensures { result ≡ codes_alone codes.now (rule_positions (fold_flag fold) rule.now) }
{
    let f = rule_parser::folds(fold);
    let all = code_set(codes);
    let mut at = 0;
    let mut used = 0u32;
    while at < rule.len() {
        let Ok((element, next)) = rule_element::read_element(rule, at, f, used) else {
            return false;
        };
        if kind_alone(element.kind, f, all) {
            return true;
        }
        used += rule_element::size(element.kind);
        at = next;
    }
    false
}

// The same; but without codes the rule is not read again.
fn alone(rule: &[u8], fold: u32, codes: &[u8]) -> bool
    requires { Judgeable fold rule.now codes.now }
    ensures { result ≡ codes_alone codes.now (rule_positions (fold_flag fold) rule.now) }
{
    if codes.len() == 0 {
        return false;
    }
    some_alone(rule, fold, codes)
}

// What a rule with codes says, or why and where it is refused: the rule's own refusals, then 15.
pub fn prepare(rule: &[u8], fold: u32, codes: &[u8], sets: &[u8]) -> Result<Prepared, Refused>
    ensures { PreparesWith fold rule.now codes.now sets.now result }
{
    let p = rule_parser::prepare(rule, fold)?;
    if code_list::wrong(codes, sets) {
        return Err(Refusal::CodesFault.at(0));
    }
    if alone(rule, fold, codes) {
        return Err(Refusal::CodesFault.at(0));
    }
    Ok(p)
}
