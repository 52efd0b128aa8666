// The forward scan of a plan that comes in pieces: feed and finish, over a lent scan value.
#![tactic(auto)]

ghost use Rattle.std.specs.Prelude.{length};
ghost use Rattle.scan_value.specs.Value.{Fine};
ghost use Rattle.scan.specs.Calls.{FeedTaken, FinishTaken, FeedIs, FinishIs};

use answers::Answer;

// The work of an accepted feed.
fn feed_accepted(scan: &mut [u64], piece: &[u8], ends: &mut [u32]) -> Answer
    requires { Fine scan.old (length piece.now) (length ends.old) }
    ensures { FeedTaken scan.old piece.now ends.old result scan.new ends.new }
{
    let f = scan_step::step_piece(scan, piece, ends);
    let raw = scan_value::raw_of(scan);
    let u = f.state;
    let k = f.held;
    let taken = raw + piece.len() as u64;
    scan_value::put(scan, u.d, 0, taken, u.at as u64, k);
    Answer::counted(u.count as u32, 0)
}

// The work of an accepted finish.
fn finish_accepted(scan: &mut [u64], ends: &mut [u32]) -> Answer
    requires { Fine scan.old 0 (length ends.old) }
    ensures { FinishTaken scan.old ends.old result scan.new ends.new }
{
    let u = scan_step::step_tail(scan, ends);
    let raw = scan_value::raw_of(scan);
    let none = piece_decoder::held::nothing_held();
    scan_value::put(scan, u.d, 1, raw, u.at as u64, none);
    Answer::counted(u.count as u32, 0)
}

// Feeds a piece to the scan.
pub fn feed(scan: &mut [u64], piece: &[u8], ends: &mut [u32]) -> Answer
    ensures { FeedIs scan.old piece.now ends.old result scan.new ends.new }
{
    match scan_value::check_call(scan, piece.len(), ends.len()) {
        Ok(()) => feed_accepted(scan, piece, ends),
        Err(refusal) => Answer::from(refusal.at(0)),
    }
}

// Finishes the scan.
pub fn finish(scan: &mut [u64], ends: &mut [u32]) -> Answer
    ensures { FinishIs scan.old ends.old result scan.new ends.new }
{
    match scan_value::check_call(scan, 0, ends.len()) {
        Ok(()) => finish_accepted(scan, ends),
        Err(refusal) => Answer::from(refusal.at(0)),
    }
}
