// A piece of a plan, after held bytes: what it lets out is decoded and stepped over, its ends are stored as pairs, and what
// it holds back is kept. By any scanner.
#![tactic(auto)]

ghost use Rattle.std.specs.Prelude.{◌+◌, ◌-◌, ◌<◌, ◌≤◌, length};
ghost use Rattle.piece_decoder.specs.Held.{HeldFine};
ghost use Rattle.piece_stepping.specs.Stepping.{Space, PartStepped, RestStepped, RestFedBy, FedBy};

use piece_decoder::held::{Held, HeldOutcome};
use piece_decoder::{CHUNK, MARKS};
use piece_stepping::{Progress, Scanner};

// After some bytes of a piece: the state, how far the piece is read, and whether the rest of it is held
// back.
#[derive(Drop)]
pub struct Next<S> {
    pub state: Progress<S>,
    pub read: usize,
    pub held: bool,
}

// A chunk of a piece, with nothing held, through a room. Apart, so that the room is cleared only where it
// is used.
fn step_chunk<A: Scanner>(
    scanner: &A,
    g: Progress<A::State>,
    piece: &[u8],
    i: usize,
    ends: &mut [u32],
) -> Next<A::State>
    requires i_in_bounds { i < length piece.now }
    requires space { Space g (length piece.now - i) (length ends.old) }
    ensures { PartStepped (A.runner scanner.now) g piece.now i ends.old result.state result.read result.held ends.new }
{
    let mut room = [0u8; CHUNK];
    let mut marks = [0u16; MARKS];
    let f = piece_decoder::decode_chunk(piece, i, &mut room, &mut marks);
    let n = f.written;
    let took = (f.read - i) as u32;
    let state = scan_pairs::step_decoded(scanner, g, &room[0..n], &marks, f.marks, took, ends);
    Next {
        state,
        read: f.read,
        held: f.held,
    }
}

// A chunk of a piece, with nothing held: literal bytes where they stand, or else through a room.
fn next_part<A: Scanner>(
    scanner: &A,
    g: Progress<A::State>,
    piece: &[u8],
    i: usize,
    ends: &mut [u32],
) -> Next<A::State>
    requires i_in_bounds { i < length piece.now }
    requires space { Space g (length piece.now - i) (length ends.old) }
    ensures { PartStepped (A.runner scanner.now) g piece.now i ends.old result.state result.read result.held ends.new }
{
    let e = piece_decoder::literal_chunk(piece, i);
    if i < e {
        let state = scan_pairs::step_literals(scanner, g, &piece[i..e], ends);
        return Next {
            state,
            read: e,
            held: false,
        };
    }
    step_chunk(scanner, g, piece, i, ends)
}

// After the rest of a piece: the state, and from where on the piece is held back.
#[derive(Drop)]
pub struct Rest<S> {
    pub state: Progress<S>,
    pub kept: usize,
}

// The piece from `from` on, with nothing held.
fn scan_rest<A: Scanner>(
    scanner: &A,
    g: Progress<A::State>,
    piece: &[u8],
    from: usize,
    ends: &mut [u32],
) -> Rest<A::State>
    requires from_in_bounds { from ≤ length piece.now }
    requires space { Space g (length piece.now - from) (length ends.old) }
    ensures { RestStepped (A.runner scanner.now) g piece.now from ends.old result.state result.kept ends.new }
{
    let mut s = g;
    let mut i = from;
    while i < piece.len() {
        let t = next_part(scanner, s, piece, i, ends);
        if t.held {
            return Rest {
                state: t.state,
                kept: t.read,
            };
        }
        s = t.state;
        i = t.read;
    }
    Rest { state: s, kept: i }
}

// After a piece: the state, and the bytes held back.
#[derive(Drop)]
pub struct Fed<S> {
    pub state: Progress<S>,
    pub held: Held,
}

// The same, and what it holds back is taken out of the piece.
fn feed_rest<A: Scanner>(
    scanner: &A,
    g: Progress<A::State>,
    piece: &[u8],
    from: usize,
    ends: &mut [u32],
) -> Fed<A::State>
    requires from_in_bounds { from ≤ length piece.now }
    requires space { Space g (length piece.now - from) (length ends.old) }
    ensures { RestFedBy (A.runner scanner.now) g piece.now from ends.old result.state result.held ends.new }
{
    let r = scan_rest(scanner, g, piece, from, ends);
    let kept = r.kept;
    let none = piece_decoder::held::nothing_held();
    let held = piece_decoder::held::top_up(none, &piece[kept..]);
    Fed {
        state: r.state,
        held,
    }
}

// A piece after held bytes: these become a reference with its head, or are let out as they came, or all
// is held back still.
fn feed_held<A: Scanner>(
    scanner: &A,
    g: Progress<A::State>,
    h: Held,
    piece: &[u8],
    ends: &mut [u32],
) -> Fed<A::State>
    requires held_fine { HeldFine h }
    requires space { Space g (h.len + length piece.now) (length ends.old) }
    ensures { FedBy (A.runner scanner.now) g h piece.now ends.old result.state result.held ends.new }
{
    let x = piece_decoder::held::resolve_held(h, piece);
    match x.case {
        HeldOutcome::Completed(code, taken) => {
            let k = h.len + taken;
            let s = scan_pairs::step_code_point(scanner, g, code, k, ends);
            feed_rest(scanner, s, piece, taken, ends)
        }
        HeldOutcome::Literal => {
            let b = h.bytes;
            let l = h.len;
            let s = scan_pairs::step_literals(scanner, g, &b[..l], ends);
            feed_rest(scanner, s, piece, 0, ends)
        }
        HeldOutcome::Pending => Fed {
            state: g,
            held: x.joined,
        },
    }
}

// The same. Mostly nothing is held.
pub fn feed_bytes<A: Scanner>(
    scanner: &A,
    g: Progress<A::State>,
    h: Held,
    piece: &[u8],
    ends: &mut [u32],
) -> Fed<A::State>
    requires held_fine { HeldFine h }
    requires space { Space g (h.len + length piece.now) (length ends.old) }
    ensures { FedBy (A.runner scanner.now) g h piece.now ends.old result.state result.held ends.new }
{
    if h.len == 0 {
        return feed_rest(scanner, g, piece, 0, ends);
    }
    feed_held(scanner, g, h, piece, ends)
}
