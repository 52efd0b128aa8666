// The forward step on four words of 64 bits, lowest first: the bit shifted out and the flood's borrow
// pass from word to word. Each contract is an equation with a definition of `specs/`, over words;
// `proofs/OverWords.antt` says that this is document 01's formula on one number of 256 bits.
#![tactic(auto)]

ghost use Rattle.std.specs.Prelude.{◌≡◌, ◌+◌, ◌-◌, ◌*◌, ◌/◌, ◌%◌, ◌^◌, ◌<◌, ◌≤◌, length};
ghost use Rattle.shift_and.specs.ForwardStep as Step;
ghost use Rattle.shift_and_wide.specs.ManyWords.{move_word, carry, borrows, half, double_of};
ghost use Rattle.shift_and_wide.specs.Wides.{moved, flooded, starts_of, ends_of, opening_of, number, word_of, no_bits, ones_from, laid_on, top_bit_of, Passes};
ghost use Rattle.shift_and_wide.specs.Stepping.{RequiredIs, BlocksAre, step_w, entry_of};

#[derive(Clone, Copy, PartialEq, Eq)]
pub struct Wide {
    pub w0: u64,
    pub w1: u64,
    pub w2: u64,
    pub w3: u64,
}

// A word moves up by one where b has the byte, and stays where r repeats too; c comes in from below.
fn move_word(c: u64, d: u64, b: u64, r: u64, k: u64) -> u64
    requires { c < 2 }
    ensures { result ≡ move_word 64 c d b r k }
{
    (((d << 1) + c) & b) | (d & (b & r)) | k
}

// The bit that goes out to the word above.
fn carried(c: u64, d: u64) -> u64
    requires { c < 2 }
    ensures { Passes (carry 64 c d) result }
{
    d >> 63
}

// A word floods, with the borrow o of the word below.
fn flood_word(o: u64, d: u64, q: u64, i: u64, f: u64) -> u64
    requires { o < 2 }
    ensures { result ≡ Step.flood 64 d q (i + o) f }
{
    let g = d | f;
    let t = std::num::wrapping_sub_u64(g, i);
    let r = std::num::wrapping_sub_u64(t, o);
    d | (q & (!r ^ g))
}

// The same, the subtraction turned round: not (g - i - o) is (not g) + i + o.
fn flood_word_turned(o: u64, d: u64, q: u64, i: u64, f: u64) -> u64
    requires { o < 2 }
    ensures { result ≡ Step.flood 64 d q (i + o) f }
{
    let g = d | f;
    let s = std::num::wrapping_add_u64(!g, i);
    let r = std::num::wrapping_add_u64(s, o);
    d | (q & (r ^ g))
}

// What it borrows from the word above: what that sum carries, so that the processor's carry does both.
fn borrowed(o: u64, d: u64, i: u64, f: u64) -> u64
    requires { o < 2 }
    ensures { Passes (borrows o d i f) result }
{
    let g = d | f;
    let s = std::num::wrapping_add_u64(!g, i);
    if s < i {
        return 1;
    }
    let r = std::num::wrapping_add_u64(s, o);
    if r < o {
        return 1;
    }
    0
}

// A word shifted down by one, with c coming in above.
fn half_word(c: u64, q: u64) -> u64
    requires { c < 2 }
    ensures { result ≡ half 64 c q }
{
    if c == 0 {
        return q >> 1;
    }
    (q >> 1) + 0x8000_0000_0000_0000
}

pub fn move_up(d: Wide, b: Wide, r: Wide, k: u64) -> Wide
    ensures { result ≡ moved d b r k }
{
    let c0 = carried(0, d.w0);
    let c1 = carried(c0, d.w1);
    let c2 = carried(c1, d.w2);
    Wide {
        w0: move_word(0, d.w0, b.w0, r.w0, k),
        w1: move_word(c0, d.w1, b.w1, r.w1, 0),
        w2: move_word(c1, d.w2, b.w2, r.w2, 0),
        w3: move_word(c2, d.w3, b.w3, r.w3, 0),
    }
}

pub fn flood(d: Wide, q: Wide, i: Wide, f: Wide) -> Wide
    ensures { result ≡ flooded d q i f }
{
    let o0 = borrowed(0, d.w0, i.w0, f.w0);
    let o1 = borrowed(o0, d.w1, i.w1, f.w1);
    let o2 = borrowed(o1, d.w2, i.w2, f.w2);
    Wide {
        w0: flood_word(0, d.w0, q.w0, i.w0, f.w0),
        w1: flood_word(o0, d.w1, q.w1, i.w1, f.w1),
        w2: flood_word(o1, d.w2, q.w2, i.w2, f.w2),
        w3: flood_word(o2, d.w3, q.w3, i.w3, f.w3),
    }
}

// The same by the subtraction turned round, for steps.
pub fn flood_turned(d: Wide, q: Wide, i: Wide, f: Wide) -> Wide
    ensures { result ≡ flooded d q i f }
{
    let o0 = borrowed(0, d.w0, i.w0, f.w0);
    let o1 = borrowed(o0, d.w1, i.w1, f.w1);
    let o2 = borrowed(o1, d.w2, i.w2, f.w2);
    Wide {
        w0: flood_word_turned(0, d.w0, q.w0, i.w0, f.w0),
        w1: flood_word_turned(o0, d.w1, q.w1, i.w1, f.w1),
        w2: flood_word_turned(o1, d.w2, q.w2, i.w2, f.w2),
        w3: flood_word_turned(o2, d.w3, q.w3, i.w3, f.w3),
    }
}

// The bit before each block of q.
pub fn block_starts(q: Wide) -> Wide
    ensures { result ≡ starts_of q }
{
    Wide {
        w0: half_word(q.w1 % 2, q.w0) & !q.w0,
        w1: half_word(q.w2 % 2, q.w1) & !q.w1,
        w2: half_word(q.w3 % 2, q.w2) & !q.w2,
        w3: half_word(0, q.w3) & !q.w3,
    }
}

// The last bit of each block of q.
pub fn block_ends(q: Wide) -> Wide
    ensures { result ≡ ends_of q }
{
    Wide {
        w0: q.w0 & !half_word(q.w1 % 2, q.w0),
        w1: q.w1 & !half_word(q.w2 % 2, q.w1),
        w2: q.w2 & !half_word(q.w3 % 2, q.w2),
        w3: q.w3 & !half_word(0, q.w3),
    }
}

// A rule's masks, and the number of its top position.
#[derive(Clone, Copy)]
pub struct WideMasks {
    pub repeats: Wide,
    pub optional: Wide,
    pub top: u64,
}

// What a run keeps at hand of the optional positions: the bit before each block, the last bit of each,
// and whether there is any.
#[derive(Clone, Copy)]
pub struct WideBlocks {
    pub starts: Wide,
    pub ends: Wide,
    pub some: bool,
}

pub fn blocks_of(q: Wide) -> WideBlocks
    ensures { BlocksAre q result }
{
    let starts = block_starts(q);
    let ends = block_ends(q);
    WideBlocks {
        starts,
        ends,
        some: q != no_bits(),
    }
}

// One step at a table entry b; k is what every step sets. Where nothing is optional there is nothing to
// flood.
pub fn step(d: Wide, b: Wide, k: u64, m: WideMasks, x: WideBlocks) -> Wide
    requires { BlocksAre m.optional x }
    ensures { result ≡ step_w m k d b }
{
    let again = m.repeats;
    let y = move_up(d, b, again, k);
    if x.some {
        let q = m.optional;
        let i = x.starts;
        let f = x.ends;
        return flood_turned(y, q, i, f);
    }
    y
}

// The states before any byte.
pub fn start_state(q: Wide) -> Wide
    ensures { result ≡ opening_of q }
{
    let one = Wide {
        w0: 1,
        w1: 0,
        w2: 0,
        w3: 0,
    };
    let i = block_starts(q);
    let f = block_ends(q);
    flood(one, q, i, f)
}

// Whether the bit of the top position reports an end.
pub fn accepts(d: Wide, top: u64) -> bool
    requires { top < 256 }
    ensures { result ≡ top_bit_of top d }
{
    if top < 64 {
        return shift_and::accepts(d.w0, top);
    }
    if top < 128 {
        return shift_and::accepts(d.w1, top - 64);
    }
    if top < 192 {
        return shift_and::accepts(d.w2, top - 128);
    }
    shift_and::accepts(d.w3, top - 192)
}

// A byte's entry of a table in four planes: word j of it stands in plane j.
pub fn entry(table: &[u64], c: usize) -> Wide
    requires table_len { length table.now ≡ 1024 }
    requires c_bound { c < 256 }
    ensures { result ≡ entry_of table.now c }
{
    let c1 = c + 256;
    let c2 = c + 512;
    let c3 = c + 768;
    Wide {
        w0: table[c],
        w1: table[c1],
        w2: table[c2],
        w3: table[c3],
    }
}

// How many of a word's positions p are not optional.
fn required(p: u64, q: u64) -> u32
    ensures { RequiredIs p q result }
{
    shift_and::shortest(p, q)
}

// How many of the positions p are not optional.
pub fn shortest(p: Wide, q: Wide) -> u32
    ensures { result ≡ Step.shortest 256 (number p) (number q) }
{
    let n3 = required(p.w3, q.w3);
    let n2 = required(p.w2, q.w2);
    let n1 = required(p.w1, q.w1);
    let n0 = required(p.w0, q.w0);
    n3 + n2 + n1 + n0
}

// The lowest n bits.
fn low_ones(n: u32) -> u64
    requires { n < 64 }
    ensures { result ≡ 2 ^ n - 1 }
{
    (1 << n) - 1
}

// A word of a mask that has its lowest k bits set.
fn below(k: u32, word: u32) -> u64
    requires k_bound { k ≤ 256 }
    requires word_bound { word < 4 }
    ensures { result ≡ word_of word (2 ^ k - 1) }
{
    let from = word * 64;
    if k <= from {
        return 0;
    }
    let left = k - from;
    if left < 64 {
        return low_ones(left);
    }
    0xffff_ffff_ffff_ffff
}

// A word of the mask of n bits from bit `from` on.
pub fn bits_of(n: u32, from: u32, word: u32) -> u64
    requires n_bound { from + n ≤ 256 }
    requires word_bound { word < 4 }
    ensures { result ≡ word_of word (ones_from n from) }
{
    below(from + n, word) & !below(from, word)
}

// No bit at all.
pub fn no_bits() -> Wide
    ensures { result ≡ no_bits }
{
    Wide {
        w0: 0,
        w1: 0,
        w2: 0,
        w3: 0,
    }
}

// The mask with n bits more, from bit `from` on.
pub fn laid(mask: Wide, n: u32, from: u32) -> Wide
    requires { from + n ≤ 256 }
    ensures { result ≡ laid_on mask n from }
{
    let b0 = bits_of(n, from, 0);
    let b1 = bits_of(n, from, 1);
    let b2 = bits_of(n, from, 2);
    let b3 = bits_of(n, from, 3);
    Wide {
        w0: mask.w0 | b0,
        w1: mask.w1 | b1,
        w2: mask.w2 | b2,
        w3: mask.w3 | b3,
    }
}

// A word shifted up by one, with c coming in below.
fn double_word(c: u64, x: u64) -> u64
    requires { c < 2 }
    ensures { result ≡ double_of c x }
{
    (x << 1) + c
}

// All four shifted up by one, with c coming in below; the highest bit drops out.
pub fn doubled(x: Wide, c: u64) -> Wide
    requires { c < 2 }
    ensures { number result ≡ (number x * 2 + c) % 2 ^ 256 }
{
    let c0 = carried(c, x.w0);
    let c1 = carried(c0, x.w1);
    let c2 = carried(c1, x.w2);
    Wide {
        w0: double_word(c, x.w0),
        w1: double_word(c0, x.w1),
        w2: double_word(c1, x.w2),
        w3: double_word(c2, x.w3),
    }
}

// All four shifted down by one; the lowest bit drops out.
pub fn halved(x: Wide) -> Wide
    ensures { number result ≡ number x / 2 }
{
    Wide {
        w0: half_word(x.w1 % 2, x.w0),
        w1: half_word(x.w2 % 2, x.w1),
        w2: half_word(x.w3 % 2, x.w2),
        w3: half_word(0, x.w3),
    }
}
