// A call's bytes stepped over from the state of a scan value: those that a piece lets out after the bytes held back, by the
// lowest word alone or in four; and those held back, at the finish.
#![tactic(auto)]

ghost use Rattle.std.specs.Prelude.{◌≡◌, length};
ghost use Rattle.scan_value.specs.Value.{Possible, Fine};
ghost use Rattle.scan_step.specs.Stepping.{start_at, FedFrom, LowFine, PieceStepped, TailStepped};

use piece_stepping::{Progress, Scanner};
use prefilter::Prefilter;
use scan_piece::Fed;
use shift_and_wide::Wide;
use word_scanners::{FourWords, OneWord, Unfiltered};

// Where a call stands before its first byte, in the state d.
fn start<S>(scan: &[u64], d: S) -> Progress<S>
    requires { Possible scan.now }
    ensures { result ≡ start_at scan.now d }
{
    let at = scan_value::decoded_of(scan) as u32;
    let raw = scan_value::read_of(scan) as u32;
    Progress {
        d,
        at,
        raw,
        count: 0,
    }
}

// Steps over what a piece lets out, after the bytes held back, from the state d.
fn step_piece_by<A: Scanner>(
    scanner: &A,
    d: A::State,
    scan: &[u64],
    piece: &[u8],
    ends: &mut [u32],
) -> Fed<A::State>
    requires { Fine scan.now (length piece.now) (length ends.old) }
    ensures { FedFrom (A.runner scanner.now) d scan.now piece.now ends.old result.state result.held ends.new }
{
    let h = scan_value::load(scan);
    let g = start(scan, d);
    scan_piece::feed_bytes(scanner, g, h, piece, ends)
}

// The same by the lowest word alone.
fn step_piece_low(scan: &[u64], filter: Prefilter, piece: &[u8], ends: &mut [u32]) -> Fed<Wide>
    requires { LowFine scan.now filter (length piece.now) (length ends.old) }
    ensures { PieceStepped scan.now piece.now ends.old result ends.new }
{
    let word = OneWord {
        table: &scan[0..256],
        masks: scan_value::low_masks_of(scan),
        filter,
    };
    let d = scan_value::state_of(scan);
    let f = step_piece_by(&word, d.w0, scan, piece, ends);
    let u = f.state;
    let state = Progress {
        d: wide_prefilter::low_of(u.d),
        at: u.at,
        raw: u.raw,
        count: u.count,
    };
    Fed {
        state,
        held: f.held,
    }
}

// The same in four words, in the way chosen for it.
fn step_piece_wide(scan: &[u64], piece: &[u8], ends: &mut [u32]) -> Fed<Wide>
    requires { Fine scan.now (length piece.now) (length ends.old) }
    ensures { PieceStepped scan.now piece.now ends.old result ends.new }
{
    let rule = &scan[0..scan_value::PLAN];
    let words = FourWords {
        rule,
        filter: wide_prefilter::choose(rule, piece.len()),
    };
    let d = scan_value::state_of(scan);
    step_piece_by(&words, d, scan, piece, ends)
}

// Steps over what a piece lets out, after the bytes held back: by the lowest word alone where that does. Its
// prefilter is chosen here, and not kept in a struct with the way, which was copied once more at each feed.
pub fn step_piece(scan: &[u64], piece: &[u8], ends: &mut [u32]) -> Fed<Wide>
    requires { Fine scan.now (length piece.now) (length ends.old) }
    ensures { PieceStepped scan.now piece.now ends.old result ends.new }
{
    if wide_prefilter::may_run_low(&scan[0..scan_value::PLAN], piece.len()) {
        let p = wide_prefilter::choose_low(&scan[0..scan_value::PLAN], piece.len());
        if wide_prefilter::fits_one(&scan[0..scan_value::PLAN], p) {
            return step_piece_low(scan, p, piece, ends);
        }
    }
    step_piece_wide(scan, piece, ends)
}

// Steps over the bytes held back, as they came.
pub fn step_tail(scan: &[u64], ends: &mut [u32]) -> Progress<Wide>
    requires { Fine scan.now 0 (length ends.old) }
    ensures { TailStepped scan.now ends.old result ends.new }
{
    let h = scan_value::load(scan);
    let g = start(scan, scan_value::state_of(scan));
    let words = Unfiltered {
        rule: &scan[0..scan_value::PLAN],
    };
    let b = h.bytes;
    let n = h.len;
    scan_pairs::step_literals(&words, g, &b[..n], ends)
}
