// Note 10's rewriter of stored rules: an outer gap of unequal bounds becomes dots, from the front and then from the back. What is left
// of a rule is a stretch of its bytes, with dots before and after it, so that the finished text is judged before a byte is written.
#![tactic(auto)]

ghost use Rattle.std.specs.Prelude.{◌≡◌, ◌≤◌, length};
ghost use Rattle.model.specs.RuleText.{rule_limit};
ghost use Rattle.model.specs.NumberedAnswers.{overwrite};
ghost use Rattle.rule_element.specs.declared.Kind.TheVariants.{Gap};
ghost use Rattle.rule_rewriter.specs.Rewriting.{ReadableFrom, Readable, step_of, cut_by, FrontIs, BackIs, text_of, length_of, Fits, RewritingIs, RewriteIs, RewriteTried};

use answers::{Refusal, Refused, Text};
use limits::RULE_LIMIT;
use rule_element::Kind;

// What the front steps leave: so many dots, and the rule from a place on, before which `used` positions stood.
#[derive(Drop)]
pub struct Front {
    pub dots: u32,
    pub from: usize,
    pub used: u32,
}

// What the back steps leave: the rule up to a place, and so many dots.
#[derive(Drop)]
pub struct Cut {
    pub to: usize,
    pub dots: u32,
}

// The finished text: dots, the rule's bytes from `from` up to `to`, and dots.
#[derive(Clone, Copy)]
pub struct Rewriting {
    pub front: u32,
    pub from: usize,
    pub to: usize,
    pub back: u32,
}

// "turns such an outer `{a,b}` into a dots": how many dots stand in its place, or none at all if it stays.
fn gap_step(a: u32, b: u32) -> Option<u32>
    ensures { result ≡ step_of (Gap a b) }
{
    if a < b {
        return Some(a);
    }
    None
}

// The same of an outer element.
fn step_of(kind: Kind) -> Option<u32>
    ensures { result ≡ step_of kind }
{
    match kind {
        Kind::Gap(a, b) => gap_step(a, b),
        Kind::Byte(_) | Kind::Any | Kind::Class(_) => None,
    }
}

// The steps from the front: "goes on where a gap that became no dots bares another".
fn front_steps(rule: &[u8], fold: bool) -> Front
    requires { Readable fold rule.now }
    ensures { FrontIs fold rule.now result }
{
    let mut at = 0;
    let mut used = 0u32;
    while at < rule.len() {
        let Ok((element, next)) = rule_element::read_element(rule, at, fold, used) else {
            return Front {
                dots: 0,
                from: at,
                used,
            };
        };
        let Some(a) = step_of(element.kind) else {
            return Front {
                dots: 0,
                from: at,
                used,
            };
        };
        used += rule_element::size(element.kind);
        at = next;
        if 0 < a {
            return Front {
                dots: a,
                from: at,
                used,
            };
        }
    }
    Front {
        dots: 0,
        from: at,
        used,
    }
}

// What the back steps leave where the rule ends after this element, which stands from `at` up to `next`: `before` is what they left
// where it ended before it.
fn cut_after(kind: Kind, at: usize, next: usize, before: Cut) -> Cut
    ensures { result ≡ cut_by (step_of kind) at next before }
{
    let Some(a) = step_of(kind) else {
        return Cut { to: next, dots: 0 };
    };
    if a == 0 {
        return before;
    }
    Cut { to: at, dots: a }
}

// The steps from the back, of what stands from a place on, before which `before` positions stood. Dots before it stay.
fn back_steps(rule: &[u8], fold: bool, from: usize, before: u32) -> Cut
    requires { ReadableFrom fold rule.now from before }
    ensures { BackIs fold rule.now from result }
{
    let mut at = from;
    let mut used = before;
    let mut cut = Cut { to: from, dots: 0 };
    while at < rule.len() {
        let Ok((element, next)) = rule_element::read_element(rule, at, fold, used) else {
            return cut;
        };
        cut = cut_after(element.kind, at, next, cut);
        used += rule_element::size(element.kind);
        at = next;
    }
    cut
}

// All the steps.
fn steps(rule: &[u8], fold: bool) -> Rewriting
    requires { Readable fold rule.now }
    ensures { RewritingIs fold rule.now result }
{
    let front = front_steps(rule, fold);
    let cut = back_steps(rule, fold, front.from, front.used);
    Rewriting {
        front: front.dots,
        from: front.from,
        to: cut.to,
        back: cut.dots,
    }
}

// How long the finished text is.
fn text_length(r: Rewriting) -> usize
    requires { Fits rule_limit r }
    ensures { result ≡ length_of r }
{
    r.front as usize + (r.to - r.from) + r.back as usize
}

// Writes it.
fn write(rule: &[u8], r: Rewriting, out: &mut [u8])
    requires fits { Fits (length rule.now) r }
    requires r_in_bounds { length_of r ≤ length out.old }
    ensures { out.new ≡ overwrite out.old (text_of rule.now r) }
{
    let end = r.to;
    let from = r.from;
    let middle = text_writer::fill(out, 0, b'.', r.front as usize);
    let back = text_writer::copy_tail(&rule[0..end], from, out, middle);
    text_writer::fill(out, back, b'.', r.back as usize);
}

// Rewrites a stored rule into the lent buffer, and returns the text's length: refused by 9 if the buffer is shorter than a rule may be, then
// as a stored rule, then by 2 if the finished text is past the limit.
fn try_rewrite(rule: &[u8], fold: u32, out: &mut [u8]) -> Result<u32, Refused>
    ensures { RewriteTried fold rule.now out.old result out.new }
{
    if out.len() < RULE_LIMIT {
        return Err(Refusal::TooShort.at(0));
    }
    rule_parser::prepare_stored(rule, fold)?;
    let f = rule_parser::folds(fold);
    let r = steps(rule, f);
    let n = text_length(r);
    if RULE_LIMIT < n {
        return Err(Refusal::RuleLong.at(RULE_LIMIT as u32));
    }
    write(rule, r, out);
    Ok(n as u32)
}

// The same, as a host is answered.
pub fn rewrite(rule: &[u8], fold: u32, out: &mut [u8]) -> Text
    ensures { RewriteIs fold rule.now out.old result out.new }
{
    match try_rewrite(rule, fold, out) {
        Ok(length) => Text::written(length),
        Err(refused) => Text::from(refused),
    }
}
