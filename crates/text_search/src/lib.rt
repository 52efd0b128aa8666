// The window search of a whole decoded text.
#![tactic(auto)]

ghost use Rattle.std.specs.Prelude.{◌≡◌, ◌<◌, ◌≤◌, length, MatchResult};
ghost use Rattle.model.specs.RuleText.{position_limit};
ghost use Rattle.text_search.specs.Searching.{WholeFits, WholeRefused, Ready, ReadyLow, PreparedIs, low_masks, FoundIs, WorkIs, SearchIs, SearchTried};

use answers::{Answer, Refusal, Refused};
use rule_parser::Prepared;
use shift_and_step::Masks;
use shift_and_wide::WideMasks;
use window_reader::{WideReader, WordReader};
use window_search::Found;

// Whether a call on a whole text with a list of so many entries is let in, or why not.
fn whole(text: usize, list: usize) -> Result<(), Refusal>
    ensures { MatchResult result (λ _. WholeFits text list) (WholeRefused text list) }
{
    if text > limits::TEXT_LIMIT {
        return Err(Refusal::TooMuch);
    }
    if list < text {
        return Err(Refusal::TooShort);
    }
    Ok(())
}

// A prepared rule's masks in both directions.
#[derive(Clone, Copy)]
struct BothMasks {
    forward: WideMasks,
    reversed: WideMasks,
}

fn masks_of(p: Prepared) -> BothMasks
    requires { p.positions ≤ position_limit }
    ensures { PreparedIs p result }
{
    let top = p.positions as u64;
    let repeats = p.repeats;
    let optional = p.optional;
    BothMasks {
        forward: WideMasks {
            repeats,
            optional,
            top,
        },
        reversed: WideMasks {
            repeats: rule_table::mirrored(repeats, p.positions),
            optional: rule_table::mirrored(optional, p.positions),
            top,
        },
    }
}

// The lowest words of masks.
fn low_masks(m: WideMasks) -> Masks
    ensures { result ≡ low_masks m }
{
    let again = m.repeats;
    let free = m.optional;
    Masks {
        repeats: again.w0,
        optional: free.w0,
        top: m.top,
    }
}

// The search for a rule of at most 63 positions, in one word.
fn search_low(
    rule: &[u8],
    fold: u32,
    codes: &[u8],
    sets: &[u8],
    p: Prepared,
    text: &[u8],
    starts: &mut [u32],
) -> Found
    requires { ReadyLow fold rule.now codes.now sets.now p (length text.now) (length starts.old) }
    ensures { FoundIs fold rule.now codes.now sets.now text.now starts.old result starts.new }
{
    let total = p.positions;
    let size = p.shortest as usize;
    let masks = masks_of(p);
    let mut forward = [0u64; 256];
    code_table::fill_plane(rule, fold, codes, sets, total, &mut forward, false, 0);
    let mut reversed = [0u64; 256];
    code_table::fill_plane(rule, fold, codes, sets, total, &mut reversed, true, 0);
    let mut first = [0u64; 256];
    let on = WordReader::new(&forward, low_masks(masks.forward));
    let back = WordReader::new(&reversed, low_masks(masks.reversed));
    window_reader::last_byte_states(&back, &mut first);
    window_search::search_tables(&on, &back, &first, size, text, starts)
}

// The same for a rule of any number of positions, in four.
fn search_wide(
    rule: &[u8],
    fold: u32,
    codes: &[u8],
    sets: &[u8],
    p: Prepared,
    text: &[u8],
    starts: &mut [u32],
) -> Found
    requires { Ready fold rule.now codes.now sets.now p (length text.now) (length starts.old) }
    ensures { FoundIs fold rule.now codes.now sets.now text.now starts.old result starts.new }
{
    let total = p.positions;
    let size = p.shortest as usize;
    let masks = masks_of(p);
    let mut forward = [0u64; 1024];
    code_table::fill(rule, fold, codes, sets, total, &mut forward, false);
    let mut reversed = [0u64; 1024];
    code_table::fill(rule, fold, codes, sets, total, &mut reversed, true);
    let mut first = [0u64; 1024];
    let on = WideReader::new(&forward, masks.forward);
    let back = WideReader::new(&reversed, masks.reversed);
    window_reader::last_byte_states(&back, &mut first);
    window_search::search_tables(&on, &back, &first, size, text, starts)
}

// What a search finds, in one word where that does.
fn search_found(
    rule: &[u8],
    fold: u32,
    codes: &[u8],
    sets: &[u8],
    p: Prepared,
    text: &[u8],
    starts: &mut [u32],
) -> Found
    requires { Ready fold rule.now codes.now sets.now p (length text.now) (length starts.old) }
    ensures { FoundIs fold rule.now codes.now sets.now text.now starts.old result starts.new }
{
    if p.positions < rule_parser::ONE_WORD {
        return search_low(rule, fold, codes, sets, p, text, starts);
    }
    search_wide(rule, fold, codes, sets, p, text, starts)
}

// The work of an accepted search.
fn search_accepted(
    rule: &[u8],
    fold: u32,
    codes: &[u8],
    sets: &[u8],
    p: Prepared,
    text: &[u8],
    starts: &mut [u32],
) -> Answer
    requires { Ready fold rule.now codes.now sets.now p (length text.now) (length starts.old) }
    ensures { WorkIs fold rule.now codes.now sets.now text.now starts.old result starts.new }
{
    let f = search_found(rule, fold, codes, sets, p, text, starts);
    Answer::counted(f.count as u32, f.windows as u32)
}

// Searches a whole decoded text for a rule with codes: the starts of occurrences, and how many windows were tried.
fn try_search(
    rule: &[u8],
    fold: u32,
    codes: &[u8],
    sets: &[u8],
    text: &[u8],
    starts: &mut [u32],
) -> Result<Answer, Refused>
    ensures { SearchTried fold rule.now codes.now sets.now text.now starts.old result starts.new }
{
    let p = rule_codes::prepare(rule, fold, codes, sets)?;
    whole(text.len(), starts.len())?;
    Ok(search_accepted(rule, fold, codes, sets, p, text, starts))
}

// The same, as a host is answered.
pub fn search(
    rule: &[u8],
    fold: u32,
    codes: &[u8],
    sets: &[u8],
    text: &[u8],
    starts: &mut [u32],
) -> Answer
    ensures { SearchIs fold rule.now codes.now sets.now text.now starts.old result starts.new }
{
    match try_search(rule, fold, codes, sets, text, starts) {
        Ok(answer) => answer,
        Err(refused) => Answer::from(refused),
    }
}
