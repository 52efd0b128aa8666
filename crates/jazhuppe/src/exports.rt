// The calls of the C interface, include/jazhuppe.h, for callers in Rattle; `jazhuppe_c` exports them to C.
ghost use Rattle.decoder.specs.Decoder.{DecodeIs};
ghost use Rattle.scan_open.specs.Opening.{OpenIs};
ghost use Rattle.scan.specs.Calls.{FeedIs, FinishIs};
ghost use Rattle.jazhuppe.specs.Preparing.{PrepareIs};
ghost use Rattle.rule_rewriter.specs.Rewriting.{RewriteIs};
ghost use Rattle.like_importer.specs.Importing.{ImportIs};
ghost use Rattle.whole_match.specs.Covering.{CoversIs};
ghost use Rattle.dispatcher.specs.Dispatching.{OfferIs, TurnIs};
ghost use Rattle.text_search.specs.Searching.{SearchIs};
ghost use Rattle.text_show.specs.Showing.{ShownIs};

use answers::{Answer, Covered, Offered, Opened, Served, Span, Text};

// Prepares a rule: its refusal, or its counts.
pub fn jazhuppe_prepare(rule: &[u8], fold: u32) -> Opened
    ensures { PrepareIs fold rule.now result }
{
    match rule_parser::prepare(rule, fold) {
        Ok(p) => Opened::accepted(p.positions, p.shortest),
        Err(refused) => Opened::from(refused),
    }
}

// Rewrites a stored rule without outer gaps of unequal bounds.
pub fn jazhuppe_rewrite(rule: &[u8], fold: u32, out: &mut [u8]) -> Text
    ensures { RewriteIs fold rule.now out.old result out.new }
{
    rule_rewriter::rewrite(rule, fold, out)
}

// Imports a LIKE pattern as a rule.
pub fn jazhuppe_import_like(pattern: &[u8], out: &mut [u8]) -> Text
    ensures { ImportIs pattern.now out.old result out.new }
{
    like_importer::import_like(pattern, out)
}

// Says whether a rule covers a whole name.
pub fn jazhuppe_covers(rule: &[u8], fold: u32, name: &[u8]) -> Covered
    ensures { CoversIs fold rule.now name.now result }
{
    whole_match::covers_name(rule, fold, name)
}

// Opens a scan for a rule with codes.
pub fn jazhuppe_open(rule: &[u8], fold: u32, codes: &[u8], sets: &[u8], scan: &mut [u64]) -> Opened
    ensures { OpenIs fold rule.now codes.now sets.now scan.old result scan.new }
{
    scan_open::open(rule, fold, codes, sets, scan)
}

// Feeds a piece to a scan.
pub fn jazhuppe_feed(scan: &mut [u64], piece: &[u8], ends: &mut [u32]) -> Answer
    ensures { FeedIs scan.old piece.now ends.old result scan.new ends.new }
{
    scan::feed(scan, piece, ends)
}

// Finishes a scan.
pub fn jazhuppe_finish(scan: &mut [u64], ends: &mut [u32]) -> Answer
    ensures { FinishIs scan.old ends.old result scan.new ends.new }
{
    scan::finish(scan, ends)
}

// Offers a piece of a feed, which waits for its turn.
pub fn jazhuppe_offer(waiting: u32, last: u32, feed: u32) -> Offered
    ensures { OfferIs waiting last feed result }
{
    dispatcher::offer(waiting, last, feed)
}

// Names the feed that has its turn.
pub fn jazhuppe_turn(waiting: u32, last: u32) -> Served
    ensures { TurnIs waiting last result }
{
    dispatcher::turn(waiting, last)
}

// Decodes a whole plan.
pub fn jazhuppe_decode(raw: &[u8], out: &mut [u8]) -> Answer
    ensures { DecodeIs raw.now out.old result out.new }
{
    decoder::decode(raw, out)
}

// Searches a whole decoded text for a rule with codes.
pub fn jazhuppe_search(
    rule: &[u8],
    fold: u32,
    codes: &[u8],
    sets: &[u8],
    text: &[u8],
    starts: &mut [u32],
) -> Answer
    ensures { SearchIs fold rule.now codes.now sets.now text.now starts.old result starts.new }
{
    text_search::search(rule, fold, codes, sets, text, starts)
}

// The part of a text that is shown, as its two places: no reference is returned through this interface.
pub fn jazhuppe_show(rule: &[u8], fold: u32, text: &[u8], start: usize) -> Span
    ensures { ShownIs fold rule.now text.now start result }
{
    text_show::span(rule, fold, text, start)
}
