// Bytes held back at the end of a piece, and what they become when the next one follows.
ghost use Rattle.std.specs.Prelude.{◌≤◌};
ghost use Rattle.model.specs.References.{form_limit, held_most};
ghost use Rattle.piece_decoder.specs.Held.{NothingHeld, HeldFine, TopUpIs, ResolvedIs};

use limits::FORM_LIMIT;
use reference_reader::Reference;

// Bytes held back between pieces: as many as `len` says. The array has room for a whole form, so that
// it can be topped up with the head of the next piece.
#[derive(Clone, Copy)]
pub struct Held {
    pub bytes: [u8; FORM_LIMIT],
    pub len: usize,
}

// No bytes held back.
pub fn nothing_held() -> Held
    ensures { NothingHeld result }
{
    Held {
        bytes: [0u8; FORM_LIMIT],
        len: 0,
    }
}

// What becomes of held bytes when a piece follows. `Completed`: with so many bytes of the piece they
// are a reference to the code point. `Literal`: they go out as they came, and reading goes on at the
// piece's first byte. `Pending`: all can still grow into a form, and is held now. Three answers, so
// neither an Option nor a Result.
#[derive(Drop)]
pub enum HeldOutcome {
    Completed(u32, usize),
    Literal,
    Pending,
}

// The case, and beside it the held bytes topped up with the first of the piece.
#[derive(Drop)]
pub struct Resolved {
    pub case: HeldOutcome,
    pub joined: Held,
}

// The held bytes and the first of the piece, together as many as a form has at most. With nothing
// held, it takes up what a piece leaves open.
pub fn top_up(h: Held, piece: &[u8]) -> Held
    requires { h.len ≤ held_most form_limit }
    ensures { TopUpIs h piece.now result }
{
    let mut t = h.bytes;
    let mut n = h.len;
    let mut i = 0;
    // Not a `for` over the piece: the compiler makes a call of `memcpy` of that, and the archive needs `memset` alone.
    while n < FORM_LIMIT {
        if i == piece.len() {
            return Held { bytes: t, len: n };
        }
        t[n] = piece[i];
        n += 1;
        i += 1;
    }
    Held { bytes: t, len: n }
}

// Held bytes and the head of the next piece, read once: what becomes of them at the cut.
pub fn resolve_held(h: Held, piece: &[u8]) -> Resolved
    requires { HeldFine h }
    ensures { ResolvedIs h piece.now result }
{
    let joined = top_up(h, piece);
    let t = joined.bytes;
    let n = joined.len;
    match reference_reader::read_reference(&t[..n]) {
        Reference::Decoded(code, k) => Resolved {
            case: HeldOutcome::Completed(code, k - h.len),
            joined,
        },
        Reference::Literal => Resolved {
            case: HeldOutcome::Literal,
            joined,
        },
        Reference::Incomplete => Resolved {
            case: HeldOutcome::Pending,
            joined,
        },
    }
}
