// A text that a piece lets out, stepped over by any scanner, and its ends stored as pairs.
#![tactic(auto)]

ghost use Rattle.std.specs.Prelude.{◌+◌, ◌*◌, ◌<◌, ◌≤◌, ◌^◌, length};
ghost use Rattle.model.specs.RawPlaces.{pair_numbers};
ghost use Rattle.model.specs.References.{byte_tokens};
ghost use Rattle.piece_stepping.specs.Stepping.{PairsRan, SteppedBy, Space, LaidFits, LaidRan, LaidStepped, CodeFits, code_token};

use entry_list::MARK;
use limits::PAIR;
use piece_stepping::{Progress, Scanned, Scanner};

// Scans bytes that go out as they came, after `at` decoded and `raw` raw ones; its ends become pairs where they
// stand, from the last on.
fn scan_literals<A: Scanner>(
    scanner: &A,
    d: A::State,
    at: u32,
    raw: u32,
    text: &[u8],
    list: &mut [u32],
) -> Scanned<A::State>
    requires text_in_bounds { pair_numbers * length text.now ≤ length list.old }
    requires text_bound { at + length text.now < 2 ^ 32 }
    requires text_bound_2 { raw + length text.now < 2 ^ 32 }
    ensures { PairsRan (A.runner scanner.now) d at raw (byte_tokens text.now) list.old result.d result.count list.new }
{
    let r = scanner.scan(d, at, text, list);
    entry_list::pair_evenly(list, r.count, at, raw);
    r
}

// Scans a text that was decoded, with its first m marks.
fn scan_decoded<A: Scanner>(
    scanner: &A,
    d: A::State,
    at: u32,
    raw: u32,
    text: &[u8],
    marks: &[u16],
    m: usize,
    list: &mut [u32],
) -> Scanned<A::State>
    requires text_in_bounds { pair_numbers * length text.now ≤ length list.old }
    requires text_bound { at + length text.now < 2 ^ 32 }
    requires laid_fits { LaidFits text.now marks.now m raw }
    ensures { LaidRan (A.runner scanner.now) d at raw text.now marks.now m list.old result.d result.count list.new }
{
    let r = scanner.scan(d, at, text, list);
    entry_list::pair_unevenly(list, r.count, at, raw, marks, m);
    r
}

// Steps over bytes that go out as they came, and stores their pairs after those stored.
pub fn step_literals<A: Scanner>(
    scanner: &A,
    g: Progress<A::State>,
    text: &[u8],
    ends: &mut [u32],
) -> Progress<A::State>
    requires space { Space g (length text.now) (length ends.old) }
    ensures { SteppedBy (A.runner scanner.now) g (byte_tokens text.now) ends.old result ends.new }
{
    let first = PAIR * g.count;
    let r = scan_literals(scanner, g.d, g.at, g.raw, text, &mut ends[first..]);
    let n = text.len() as u32;
    let at = g.at + n;
    let raw = g.raw + n;
    let count = g.count + r.count;
    Progress {
        d: r.d,
        at,
        raw,
        count,
    }
}

// The same of a text that was decoded, from so many raw bytes.
pub fn step_decoded<A: Scanner>(
    scanner: &A,
    g: Progress<A::State>,
    text: &[u8],
    marks: &[u16],
    m: usize,
    took: u32,
    ends: &mut [u32],
) -> Progress<A::State>
    requires space { Space g (length text.now) (length ends.old) }
    requires laid_fits { LaidFits text.now marks.now m g.raw }
    requires took_bound { g.raw + took < 2 ^ 32 }
    ensures { LaidStepped (A.runner scanner.now) g text.now marks.now m took ends.old result ends.new }
{
    let first = PAIR * g.count;
    let r = scan_decoded(
        scanner,
        g.d,
        g.at,
        g.raw,
        text,
        marks,
        m,
        &mut ends[first..],
    );
    let at = g.at + text.len() as u32;
    let raw = g.raw + took;
    let count = g.count + r.count;
    Progress {
        d: r.d,
        at,
        raw,
        count,
    }
}

// Steps over the UTF-8 bytes of a reference of k bytes: they share the raw count after it.
pub fn step_code_point<A: Scanner>(
    scanner: &A,
    g: Progress<A::State>,
    code: u32,
    k: usize,
    ends: &mut [u32],
) -> Progress<A::State>
    requires code_fits { CodeFits code k }
    requires space { Space g k (length ends.old) }
    ensures { SteppedBy (A.runner scanner.now) g (code_token code k) ends.old result ends.new }
{
    let mut t = [0u8; 4];
    let n = reference_reader::put_utf8(&mut t, code);
    let ahead = k - n;
    let mut mark = [0u16; MARK];
    mark[1] = n as u16;
    mark[2] = ahead as u16;
    let took = k as u32;
    step_decoded(scanner, g, &t[..n], &mark, 1, took, ends)
}
