// An automaton in one word, for rules of up to 63 positions: a table has a word for each byte.
#![tactic(auto)]

ghost use Rattle.std.specs.Prelude.{◌≡◌, get_or};
ghost use Rattle.shift_and_step.specs.Stepping.{automaton_of, TableFits};

use crate::readers::{Reader, States};
use shift_and_step::Masks;

impl States for u64 {
    ghost number = { λ d. d };

    ghost table_words = { 256 };

    ghost entry_of = { λ t c. get_or t c 0 };

    fn is_empty(self) -> bool {
        self == 0
    }

    fn entry(table: &[u64], c: usize) -> u64 {
        table[c]
    }

    fn write_entry(self, table: &mut [u64], c: usize) {
        table[c] = self;
    }
}

#[derive(Clone, Copy)]
pub struct WordReader<'a> {
    table: &'a [u64],
    masks: Masks,
    ghost fits: { TableFits table.now masks },
}

impl<'a> WordReader<'a> {
    pub fn new(table: &'a [u64], masks: Masks) -> WordReader<'a>
        requires { TableFits table.now masks }
        ensures { automaton_of result.table.now result.masks ≡ automaton_of table.now masks }
    {
        WordReader { table, masks }
    }
}

impl Reader for WordReader<'_> {
    type State = u64;

    const ASKS_TWO: bool = true;

    ghost automaton = { λ r. automaton_of r.table.now r.masks };

    fn start_state(&self) -> u64 {
        shift_and::start_state(self.masks.optional)
    }

    fn all_states(&self) -> u64 {
        0xffff_ffff_ffff_ffff
    }

    fn step_on(&self, k: u64, d: u64, c: usize) -> u64 {
        shift_and_step::step(d, self.table[c], k, self.masks)
    }

    fn accepts(&self, d: u64) -> bool {
        shift_and::accepts(d, self.masks.top)
    }

    fn is_absent(&self, c: usize) -> bool {
        self.table[c].is_empty()
    }
}
