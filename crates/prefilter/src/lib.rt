// Which bytes a scan may skip in the start state of a rule, read off its table and masks before the text
// is read. Which prefilter is chosen is a matter of speed; each is sound.
#![tactic(auto)]

ghost use Rattle.std.specs.Prelude.{◌≡◌, ℕ, ◌<◌, ◌≤◌, length, slice_index, IfSome, bit_and};
ghost use Rattle.prefilter.specs.Soundness.{StartState, Union, UnionWithout, ClearBit, LiteralPrefix, SkipSound, PrefilterSound};

// The byte x at the offset a from a start, and y at b.
#[derive(Clone, Copy)]
pub struct BytePair {
    pub a: usize,
    pub b: usize,
    pub x: u8,
    pub y: u8,
}

// What may be skipped in the start state: nothing; or all up to the next byte whose entry meets `next`, told by
// the table alone, as the one such byte, or as one of a range; or all up to the next start that has the pair.
#[derive(Clone, Copy)]
pub enum Skip {
    Nothing,
    Table,
    Byte(u8),
    Range { lo: u8, hi: u8 },
    Pair(BytePair),
}

// The state in which `skip` may be done, and what a byte can take it to. `clear`: no entry has the highest
// bit, as far as that was seen on the way.
#[derive(Clone, Copy)]
pub struct Prefilter {
    pub skip: Skip,
    pub start: u64,
    pub next: u64,
    pub clear: bool,
}

// From how many bytes on a prefilter pays for its choice.
const PREFILTER_PAYS: usize = 256;

// The prefilter for a text of `len` bytes.
pub fn choose(table: &[u64], repeats: u64, optional: u64, top: u64, len: usize) -> Prefilter
    requires table_len { length table.now ≡ 256 }
    requires top_bound { top < 64 }
    ensures { PrefilterSound table.now repeats optional top result }
{
    let state = shift_and::start_state(optional);
    let next = (state << 1) | (state & repeats);
    if len < PREFILTER_PAYS || shift_and::accepts(state, top) {
        return Prefilter {
            skip: Skip::Nothing,
            start: state,
            next,
            clear: false,
        };
    }
    let start = Start {
        table,
        repeats,
        optional,
        top,
        state,
        next,
    };
    start.choose()
}

// A rule's table and masks, with its start state, in which no end is reported.
#[derive(Clone, Copy)]
struct Start<'a> {
    table: &'a [u64],
    repeats: u64,
    optional: u64,
    top: u64,
    state: u64,
    next: u64,
    ghost table_len: { length table.now ≡ 256 },
    ghost top_bound: { top < 64 },
    ghost start_state: { StartState repeats optional top state next },
}

impl Start<'_> {
    // By a pair of rare bytes in the literal prefix, or by the bytes that leave the start state.
    fn choose(&self) -> Prefilter
        ensures { PrefilterSound self.now.table.now self.now.repeats self.now.optional self.now.top result }
    {
        match self.by_pair() {
            Some(by_pair) => by_pair,
            None => self.by_byte(),
        }
    }

    // By the bytes that leave the start state.
    fn by_byte(&self) -> Prefilter
        ensures { PrefilterSound self.now.table.now self.now.repeats self.now.optional self.now.top result }
    {
        Prefilter {
            skip: self.skip_to_leaving(),
            start: self.state,
            next: self.next,
            clear: false,
        }
    }

    // By one byte or a range if that is where the entries meet `next`, else by the table.
    fn skip_to_leaving(&self) -> Skip
        ensures { SkipSound self.now.table.now self.now.repeats self.now.optional self.now.top self.now.state self.now.next result }
    {
        match (self.first_leaving(), self.last_leaving()) {
            (Some(lo), Some(hi)) if lo == hi => Skip::Byte(lo as u8),
            (Some(lo), Some(hi)) if self.all_leave(lo, hi) => Skip::Range {
                lo: lo as u8,
                hi: hi as u8,
            },
            _ => Skip::Table,
        }
    }

    // The first byte whose entry meets `next`.
    fn first_leaving(&self) -> Option<usize>
        ensures { IfSome result (λ i. (i < 256) × ((k : ℕ) → k < i → bit_and (slice_index self.now.table.now k) self.now.next ≡ 0)) }
    {
        self.table.iter().position(|entry| entry & self.next != 0)
    }

    // The last byte whose entry meets `next`.
    fn last_leaving(&self) -> Option<usize>
        ensures { IfSome result (λ i. (i < 256) × ((k : ℕ) → i < k → bit_and (slice_index self.now.table.now k) self.now.next ≡ 0)) }
    {
        self.table.iter().rposition(|entry| entry & self.next != 0)
    }

    // Whether every byte from lo up to hi has an entry that meets `next`. Only speed depends on it.
    fn all_leave(&self, lo: usize, hi: usize) -> bool
        requires { hi < 256 }
    {
        self.table[lo.min(hi)..hi]
            .iter()
            .all(|entry| entry & self.next != 0)
    }

    // By a pair of rare bytes, if they stand alone at two positions of a literal prefix.
    fn by_pair(&self) -> Option<Prefilter>
        ensures { IfSome result (λ p. PrefilterSound self.now.table.now self.now.repeats self.now.optional self.now.top p) }
    {
        let pair = self.rare_pair()?;
        if self.state != 1 || !self.is_literal_prefix(pair) {
            return None;
        }
        let rest = self.union_without(pair.x, pair.y);
        if !self.is_clear(rest, pair.a + 1, pair.y) || !self.is_clear(rest, pair.b + 1, pair.x) {
            return None;
        }
        let clear = self.is_clear(rest, 63, pair.x) && self.is_clear(rest, 63, pair.y);
        Some(Prefilter {
            skip: Skip::Pair(pair),
            start: self.state,
            next: self.next,
            clear,
        })
    }

    // Whether the positions up to the pair's second are neither optional nor repeating, and no end is reported
    // below it.
    fn is_literal_prefix(&self, pair: BytePair) -> bool
        ensures { LiteralPrefix self.now.repeats self.now.optional self.now.top pair.a pair.b result }
    {
        if pair.b <= pair.a || 61 < pair.b {
            return false;
        }
        let prefix = (1 << (pair.b + 2)) - 1;
        (self.optional | self.repeats) & prefix == 0 && (pair.b as u64) < self.top
    }

    // Whether neither `rest` nor the entry of y has bit p.
    fn is_clear(&self, rest: u64, p: usize, y: u8) -> bool
        requires { p < 64 }
        ensures { ClearBit self.now.table.now rest p y result }
    {
        (rest | self.entry(y)) & (1 << p) == 0
    }

    fn entry(&self, c: u8) -> u64
        ensures { result ≡ slice_index self.now.table.now c }
    {
        self.table[c as usize]
    }

    // The bits of the entries from lo up to hi.
    fn union(&self, lo: usize, hi: usize) -> u64
        requires { hi ≤ 256 }
        ensures { Union self.now.table.now lo hi result }
    {
        self.table[lo.min(hi)..hi]
            .iter()
            .fold(0, |all, entry| all | entry)
    }

    // The bits of all the entries but those of x and y.
    fn union_without(&self, x: u8, y: u8) -> u64
        ensures { UnionWithout self.now.table.now x y result }
    {
        let lo = x.min(y) as usize;
        let hi = x.max(y) as usize;
        self.union(0, lo) | self.union(lo + 1, hi) | self.union(hi + 1, 256)
    }

    // Two rare bytes that seem to stand alone at two positions of the literal prefix. Only a choice: it promises
    // nothing, and `by_pair` tests it.
    fn rare_pair(&self) -> Option<BytePair> {
        let free = self.literal_prefix();
        if free.count_ones() < 2 {
            return None;
        }
        let first = self.rarest(free, 0)?;
        let second = self.rarest(free & !(1 << first.bit), first.row)?;
        Some(first.beside(second))
    }

    // The positions of the literal prefix, those before the first that is optional or repeats. Only a choice.
    fn literal_prefix(&self) -> u64 {
        let busy = self.optional | self.repeats;
        let below_busy = busy.wrapping_sub(1) & !busy;
        let up_to_top = u64::MAX >> (63 - self.top);
        below_busy & up_to_top & !1
    }

    // The rarest byte in common text, from a row on, that seems to stand alone at a position of `free`, and the
    // lowest such. Only a choice: it promises nothing.
    fn rarest(&self, free: u64, row: usize) -> Option<RareByte>
        requires { row < 64 }
    {
        let row = self.row_at(free, row)?;
        let rare = RARE;
        for (k, byte) in rare[4 * row..].iter().enumerate() {
            let bits = self.unique_bits(free, *byte);
            if bits != 0 {
                return Some(RareByte {
                    row: row + k / 4,
                    byte: *byte,
                    bit: bits.trailing_zeros(),
                });
            }
        }
        None
    }

    // The first row of four, from one on, with a byte that stands at a position of `free`.
    fn row_at(&self, free: u64, row: usize) -> Option<usize>
        requires { row < 64 }
        ensures { IfSome result (λ r. r < 64) }
    {
        let (rows, _) = RARE.as_chunks::<4>();
        let absent = rows[row..]
            .iter()
            .position(|four| self.any_of(four) & free != 0)?;
        Some(row + absent)
    }

    // The bits of four entries.
    fn any_of(&self, four: &[u8; 4]) -> u64 {
        four.iter().fold(0, |all, byte| all | self.entry(*byte))
    }

    // The bits of `free` that the entry of c has, and neither its neighbours' nor the other case's: a class
    // that c is one of shows there mostly. Only a choice.
    fn unique_bits(&self, free: u64, c: u8) -> u64 {
        let own = self.entry(c) & free;
        if own == 0 {
            return 0;
        }
        let before = self.entry(c.wrapping_sub(1));
        let after = self.entry(c.wrapping_add(1));
        let other_case = self.entry(c ^ 32);
        own & !(before | after | other_case)
    }
}

// All bytes, rare ones in common text first.
const RARE: &[u8; 256] =
    b"`~^|@#$%&*=+{}[]\\<>_?!;\"'()/QZXKJVWYUGFHBPMLDNRTOIACES:-qzxjkv7896534102\x80\x81\x82\x83\x84\x85\x86\x87\x88\x89\x8a\x8b\x8c\x8d\x8e\x8f\x90\x91\x92\x93\x94\x95\x96\x97\x98\x99\x9a\x9b\x9c\x9d\x9e\x9f\xa0\xa1\xa2\xa3\xa4\xa5\xa6\xa7\xa8\xa9\xaa\xab\xac\xad\xae\xaf\xb0\xb1\xb2\xb3\xb4\xb5\xb6\xb7\xb8\xb9\xba\xbb\xbc\xbd\xbe\xbf\xc0\xc1\xc2\xc3\xc4\xc5\xc6\xc7\xc8\xc9\xca\xcb\xcc\xcd\xce\xcf\xd0\xd1\xd2\xd3\xd4\xd5\xd6\xd7\xd8\xd9\xda\xdb\xdc\xdd\xde\xdf\xe0\xe1\xe2\xe3\xe4\xe5\xe6\xe7\xe8\xe9\xea\xeb\xec\xed\xee\xef\xf0\xf1\xf2\xf3\xf4\xf5\xf6\xf7\xf8\xf9\xfa\xfb\xfc\xfd\xfe\xff\x00\x01\x02\x03\x04\x05\x06\x07\x08\x0b\x0c\x0e\x0f\x10\x11\x12\x13\x14\x15\x16\x17\x18\x19\x1a\x1b\x1c\x1d\x1e\x1f\x7fwyfgbpmucdlhrsnio,.ate\t\r\n ";

// A rare byte, its row, and a bit of its entry.
#[derive(Clone, Copy)]
struct RareByte {
    row: usize,
    byte: u8,
    bit: u32,
    ghost in_rows: { row < 64 },
    ghost in_word: { bit < 64 },
}

impl RareByte {
    // The two in the order of their positions; bit p stands for the offset p - 1.
    fn beside(self, other: RareByte) -> BytePair {
        let (first, second) = if self.bit < other.bit {
            (self, other)
        } else {
            (other, self)
        };
        BytePair {
            a: first.bit.saturating_sub(1) as usize,
            b: second.bit.saturating_sub(1) as usize,
            x: first.byte,
            y: second.byte,
        }
    }
}
