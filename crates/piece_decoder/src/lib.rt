// What raw bytes let out, as tokens: one loop decodes them, for a whole text and for the parts of a
// piece; and a piece goes chunk by chunk, literal bytes where they stand and others through a room.
#![tactic(auto)]

pub mod held;

ghost use Rattle.std.specs.Prelude.{◌≡◌, ◌+◌, ◌≤◌, ◌<◌, length};
ghost use Rattle.piece_decoder.specs.Chunks.{TokenIs, TokensDecodedIs, NoteFits, NotedIs, MarkedIs, chunk_size, marks_size, PartEnd, InPlaceIs, ChunkIs};

use entry_list::MARK;
use reference_reader::Reference;

// ---- tokens

// After some tokens: how far the raw bytes are read and the buffer written, whether the rest is held back,
// and whether they were one reference, and not bytes that stay.
#[derive(Drop)]
pub struct TokenRead {
    pub read: usize,
    pub written: usize,
    pub held: bool,
    pub reference: bool,
}

// One reference, or one byte that begins none; or all the rest is held back, if it can still grow.
fn decode_amp(raw: &[u8], i: usize, out: &mut [u8], at: usize) -> TokenRead
    requires i_in_bounds { i < length raw.now }
    requires raw_in_bounds { at + length raw.now ≤ length out.old + i }
    ensures { TokenIs raw.now i out.old at result out.new }
{
    match reference_reader::read_reference(&raw[i..]) {
        Reference::Decoded(code, k) => {
            let n = reference_reader::put_utf8(&mut out[at..], code);
            let after = i + k;
            TokenRead {
                read: after,
                written: at + n,
                held: false,
                reference: true,
            }
        }
        Reference::Literal => {
            out[at] = raw[i];
            TokenRead {
                read: i + 1,
                written: at + 1,
                held: false,
                reference: false,
            }
        }
        Reference::Incomplete => TokenRead {
            read: i,
            written: at,
            held: true,
            reference: false,
        },
    }
}

// The same, or a run of bytes up to the next `&`.
fn decode_token(raw: &[u8], i: usize, out: &mut [u8], at: usize) -> TokenRead
    requires i_in_bounds { i < length raw.now }
    requires raw_in_bounds { at + length raw.now ≤ length out.old + i }
    ensures { TokenIs raw.now i out.old at result out.new }
{
    if raw[i] == b'&' {
        return decode_amp(raw, i, out, at);
    }
    let n = literal_run::copy_literals(&raw[i..], &mut out[at..]);
    TokenRead {
        read: i + n,
        written: at + n,
        held: false,
        reference: false,
    }
}

// How far the raw bytes are let out, and the buffer written.
#[derive(Drop)]
pub struct TokensDecoded {
    pub read: usize,
    pub written: usize,
}

// Decodes all that the raw bytes let out to the front of `out`. What they hold back is their end.
// A `while`, since each token says how far it reads.
pub fn decode_tokens(raw: &[u8], out: &mut [u8]) -> TokensDecoded
    requires { length raw.now ≤ length out.old }
    ensures { TokensDecodedIs raw.now out.old result out.new }
{
    let mut i = 0;
    let mut at = 0;
    while i < raw.len() {
        let t = decode_token(raw, i, out, at);
        if t.held {
            return TokensDecoded {
                read: t.read,
                written: t.written,
            };
        }
        i = t.read;
        at = t.written;
    }
    TokensDecoded {
        read: i,
        written: at,
    }
}

// ---- tokens with marks

// As many marks as a chunk has at most. They are cleared with the room: few of them, so that this costs little.
pub const MARK_LIMIT: usize = 256;

// After some tokens of a part: how far it is read and the buffer written, how many marks were, and whether reading
// stopped because no more fit.
#[derive(Drop)]
pub struct MarkedDecoded {
    pub read: usize,
    pub written: usize,
    pub marks: usize,
    pub full: bool,
}

// Writes the mark of a token from `at` on, after m of them, if it is a reference; and returns how many there are.
fn note(
    marks: &mut [u16],
    m: usize,
    reference: bool,
    at: usize,
    written: usize,
    read: usize,
) -> usize
    requires { NoteFits marks.old m at written read }
    ensures { NotedIs marks.old m reference at written read result marks.new }
{
    if reference {
        let first = MARK * m;
        let second = first + 1;
        let third = first + 2;
        let ahead = read - written;
        marks[first] = at as u16;
        marks[second] = written as u16;
        marks[third] = ahead as u16;
        return m + 1;
    }
    m
}

// Decodes what a part of a piece lets out to the front of `out`, as far as the marks of its references go.
// A `while`, as above.
fn decode_marked(raw: &[u8], out: &mut [u8], marks: &mut [u16]) -> MarkedDecoded
    requires raw_in_bounds { length raw.now ≤ length out.old }
    requires raw_len_bound { length raw.now ≤ chunk_size }
    requires marks_len { length marks.old ≡ marks_size }
    ensures { MarkedIs raw.now out.old result out.new marks.new }
{
    let mut i = 0;
    let mut at = 0;
    let mut m = 0;
    while i < raw.len() {
        if MARK_LIMIT <= m {
            return MarkedDecoded {
                read: i,
                written: at,
                marks: m,
                full: true,
            };
        }
        let t = decode_token(raw, i, out, at);
        if t.held {
            return MarkedDecoded {
                read: t.read,
                written: t.written,
                marks: m,
                full: false,
            };
        }
        m = note(marks, m, t.reference, at, t.written, t.read);
        i = t.read;
        at = t.written;
    }
    MarkedDecoded {
        read: i,
        written: at,
        marks: m,
        full: false,
    }
}

// ---- chunks of a piece

// From so many literal bytes on they are handed on where they stand: a copy would cost more than it saves.
const IN_PLACE_FROM: usize = 1024;

// Whether those from i to e are: they are so many, or all the rest. Only speed depends on the choice.
fn in_place(i: usize, e: usize, len: usize) -> bool
    requires { i ≤ e }
{
    if e == len {
        return true;
    }
    IN_PLACE_FROM <= e - i
}

// The end of the literal bytes from i on that are handed on where they stand; i itself, if the next
// bytes go through the room.
pub fn literal_chunk(piece: &[u8], i: usize) -> usize
    requires { i < length piece.now }
    ensures { InPlaceIs piece.now i result }
{
    let e = reference_search::literal_end(piece, i);
    if in_place(i, e, piece.len()) {
        return e;
    }
    i
}

// As many bytes as the room takes: a part of a piece with references is decoded there first, so that it is
// one text, since many short texts are slow to step over.
pub const CHUNK: usize = 4096;

// As many numbers as the marks of a chunk take.
pub const MARKS: usize = MARK * MARK_LIMIT;

// The end of the part that begins at i.
fn part_end(i: usize, len: usize) -> usize
    requires { i < len }
    ensures { PartEnd i len result }
{
    if len - i <= CHUNK {
        return len;
    }
    i + CHUNK
}

// After a chunk: how far the piece is read and the room written, how many marks were, and whether the rest of
// the piece is held back.
#[derive(Drop)]
pub struct Chunk {
    pub read: usize,
    pub written: usize,
    pub marks: usize,
    pub held: bool,
}

// A part of a piece, from i on, decoded into the room, with its marks, up to its end or as far as they go. What the
// part holds back begins the next one, and is held back if the piece ends there.
pub fn decode_chunk(piece: &[u8], i: usize, room: &mut [u8], marks: &mut [u16]) -> Chunk
    requires i_in_bounds { i < length piece.now }
    requires room_len { length room.old ≡ chunk_size }
    requires marks_len { length marks.old ≡ marks_size }
    ensures { ChunkIs piece.now i room.old result room.new marks.new }
{
    let k = part_end(i, piece.len());
    let f = decode_marked(&piece[i..k], room, marks);
    let after = i + f.read;
    if f.full {
        return Chunk {
            read: after,
            written: f.written,
            marks: f.marks,
            held: false,
        };
    }
    if k < piece.len() {
        return Chunk {
            read: after,
            written: f.written,
            marks: f.marks,
            held: false,
        };
    }
    Chunk {
        read: after,
        written: f.written,
        marks: f.marks,
        held: after < k,
    }
}
