// An automaton in four words, for rules of up to 255 positions: a table has four planes of a word for each
// byte. Its states are read as one number of 256 bits.
#![tactic(auto)]

ghost use Rattle.std.specs.Prelude.{◌≡◌, ◌<◌, length};
ghost use Rattle.shift_and.specs.Automaton.{step_with};
ghost use Rattle.shift_and_wide.specs.Wides.{number};
ghost use Rattle.shift_and_wide.specs.Stepping.{BlocksAre, entry_of, wide_automaton_of, numbered, WideTableFits};
ghost use Rattle.window_reader.specs.WideStates.{FourWords, WideEntryWritten};

use crate::readers::{Reader, States};
use shift_and_wide::{Wide, WideBlocks, WideMasks};

// What the type says of four words, for proofs alone: it is what reading them as one number takes.
fn known(d: Wide) -> bool
    ensures { FourWords d }
{
    true
}

// One step at a table entry b, said of numbers; k is what every step sets.
fn step_entry(d: Wide, b: Wide, k: u64, m: WideMasks, x: WideBlocks) -> Wide
    requires { BlocksAre m.optional x }
    ensures { number result ≡ step_with 256 (number m.repeats) (number m.optional) k (number d) (number b) }
{
    let again = m.repeats;
    let q = m.optional;
    known(d);
    known(b);
    known(again);
    known(q);
    shift_and_wide::step(d, b, k, m, x)
}

// Writes a byte's entry into the four planes.
fn write_planes(table: &mut [u64], c: usize, d: Wide)
    requires table_len { length table.old ≡ 1024 }
    requires c_bound { c < 256 }
    ensures { WideEntryWritten table.old c d table.new }
{
    let c1 = c + 256;
    let c2 = c + 512;
    let c3 = c + 768;
    table[c] = d.w0;
    table[c1] = d.w1;
    table[c2] = d.w2;
    table[c3] = d.w3;
}

impl States for Wide {
    ghost number = { number };

    ghost table_words = { 1024 };

    ghost entry_of = { λ t c. number (entry_of t c) };

    fn is_empty(self) -> bool {
        (self.w0 | self.w1 | self.w2 | self.w3) == 0
    }

    fn entry(table: &[u64], c: usize) -> Wide {
        shift_and_wide::entry(table, c)
    }

    fn write_entry(self, table: &mut [u64], c: usize) {
        write_planes(table, c, self);
    }
}

// The blocks of the optional positions are kept beside the masks, as each step asks them.
#[derive(Clone, Copy)]
pub struct WideReader<'a> {
    table: &'a [u64],
    masks: WideMasks,
    blocks: WideBlocks,
    ghost fits: { WideTableFits table.now masks },
    ghost blocks_are: { BlocksAre masks.optional blocks },
}

impl<'a> WideReader<'a> {
    pub fn new(table: &'a [u64], masks: WideMasks) -> WideReader<'a>
        requires { WideTableFits table.now masks }
        ensures { wide_automaton_of result.table.now result.masks ≡ wide_automaton_of table.now masks }
    {
        let blocks = shift_and_wide::blocks_of(masks.optional);
        WideReader {
            table,
            masks,
            blocks,
        }
    }
}

impl Reader for WideReader<'_> {
    type State = Wide;

    // A step in four words takes too long to be taken in vain.
    const ASKS_TWO: bool = false;

    ghost automaton = { λ r. numbered (wide_automaton_of r.table.now r.masks) };

    fn start_state(&self) -> Wide {
        let q = self.masks.optional;
        known(q);
        shift_and_wide::start_state(q)
    }

    fn all_states(&self) -> Wide {
        Wide {
            w0: 0xffff_ffff_ffff_ffff,
            w1: 0xffff_ffff_ffff_ffff,
            w2: 0xffff_ffff_ffff_ffff,
            w3: 0xffff_ffff_ffff_ffff,
        }
    }

    #[inline(always)]
    fn step_on(&self, k: u64, d: Wide, c: usize) -> Wide {
        let b = shift_and_wide::entry(self.table, c);
        step_entry(d, b, k, self.masks, self.blocks)
    }

    fn accepts(&self, d: Wide) -> bool {
        shift_and_wide::accepts(d, self.masks.top)
    }

    fn is_absent(&self, c: usize) -> bool {
        shift_and_wide::entry(self.table, c).is_empty()
    }
}
