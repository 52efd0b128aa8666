// The part of a decoded text that is shown: an occurrence, from its start to the earliest end there. It takes no codes.
#![tactic(auto)]

ghost use Rattle.rule_parser.specs.Preparing.{PreparedRule};
ghost use Rattle.text_show.specs.Showing.{Showable, ShowableLow, PartIs, ShownIs, ShowsPart};
ghost use Rattle.std.specs.Prelude.{length};

use answers::Span;
use rule_parser::Prepared;
use shift_and_step::Masks;
use shift_and_wide::WideMasks;
use window_reader::{WideReader, WordReader};

// The work of showing, for a rule of at most 63 positions.
fn span_low(rule: &[u8], fold: u32, p: Prepared, text: &[u8], start: usize) -> Span
    requires { ShowableLow fold rule.now p (length text.now) start }
    ensures { PartIs fold rule.now text.now start result }
{
    let total = p.positions;
    let repeats = p.repeats;
    let optional = p.optional;
    let masks = Masks {
        repeats: repeats.w0,
        optional: optional.w0,
        top: total as u64,
    };
    let mut forward = [0u64; 256];
    rule_table::fill_plane(rule, fold, total, &mut forward, false, 0);
    let reader = WordReader::new(&forward, masks);
    window_search::part_from(&reader, text, start)
}

// The same for a rule of any number of positions.
fn span_wide(rule: &[u8], fold: u32, p: Prepared, text: &[u8], start: usize) -> Span
    requires { Showable fold rule.now p (length text.now) start }
    ensures { PartIs fold rule.now text.now start result }
{
    let total = p.positions;
    let repeats = p.repeats;
    let optional = p.optional;
    let masks = WideMasks {
        repeats: repeats,
        optional: optional,
        top: total as u64,
    };
    let mut forward = [0u64; 1024];
    rule_table::fill(rule, fold, total, &mut forward, false);
    let reader = WideReader::new(&forward, masks);
    window_search::part_from(&reader, text, start)
}

// The work of showing, for an accepted rule: in one word where that does.
fn span_accepted(rule: &[u8], fold: u32, p: Prepared, text: &[u8], start: usize) -> Span
    requires { Showable fold rule.now p (length text.now) start }
    ensures { PartIs fold rule.now text.now start result }
{
    if p.positions < rule_parser::ONE_WORD {
        return span_low(rule, fold, p, text, start);
    }
    span_wide(rule, fold, p, text, start)
}

// The work of showing, for an accepted rule: nothing in a text over the limit or from a start past its end.
fn span_prepared(rule: &[u8], fold: u32, p: Prepared, text: &[u8], start: usize) -> Span
    requires { PreparedRule fold rule.now p }
    ensures { ShownIs fold rule.now text.now start result }
{
    let len = text.len();
    if len > limits::TEXT_LIMIT {
        return Span { from: len, to: len };
    }
    if start > len {
        return Span { from: len, to: len };
    }
    span_accepted(rule, fold, p, text, start)
}

// The part of the text that is shown, as its two places.
pub fn span(rule: &[u8], fold: u32, text: &[u8], start: usize) -> Span
    ensures { ShownIs fold rule.now text.now start result }
{
    match rule_parser::prepare(rule, fold) {
        Ok(p) => span_prepared(rule, fold, p, text, start),
        Err(_) => Span {
            from: text.len(),
            to: text.len(),
        },
    }
}

// Shows an occurrence: that part of the caller's text from the start to the earliest end there, or the
// empty part at the text's end.
pub fn show<'a>(rule: &[u8], fold: u32, text: &'a [u8], start: usize) -> &'a [u8]
    ensures { ShowsPart fold rule.now text.now text.entry.ref_ptr start result.now result.ref_ptr }
{
    let s = span(rule, fold, text, start);
    let from = s.from;
    let to = s.to;
    &text[from..to]
}
