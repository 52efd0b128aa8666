// What the readings step by: an automaton as it runs over a text, and its states as a machine holds them.
#![tactic(auto)]

ghost use Rattle.std.specs.Prelude.{◌≡◌, ◌<◌, ℕ, List, length};
ghost use Rattle.shift_and.specs.ForwardStep.{top_bit};
ghost use Rattle.shift_and.specs.Automaton.{Automaton, step_on, opening_state, all_states};
ghost use Rattle.window_reader.specs.States.{EmptyIs, EntryWritten};

// A set of states, one bit for each. A table of them has an entry for each byte.
pub trait States: Copy {
    // the set as one number
    ghost number: { Self → ℕ };

    // how many words a table has
    ghost table_words: { ℕ };

    // the number of a byte's entry of a table
    ghost entry_of: { List ℕ → ℕ → ℕ };

    // Whether none of the states is there.
    fn is_empty(self) -> bool
        ensures { EmptyIs (number self) result };

    // A byte's entry of a table.
    fn entry(table: &[u64], c: usize) -> Self
        requires table_len { length table.now ≡ table_words }
        requires c_bound { c < 256 }
        ensures { number result ≡ entry_of table.now c };

    // Writes a byte's entry into a table.
    fn write_entry(self, table: &mut [u64], c: usize)
        requires table_len { length table.old ≡ table_words }
        requires c_bound { c < 256 }
        ensures { EntryWritten entry_of table.old c (number self) table.new };
}

// An automaton: its table, and its masks.
pub trait Reader {
    type State: States;

    // A window's last two bytes are asked in one test where that pays; else its last byte alone. Only speed
    // depends on it.
    const ASKS_TWO: bool;

    ghost automaton: { Self → Automaton };

    // The states before any byte.
    fn start_state(&self) -> Self::State
        ensures { Self.State.number result ≡ opening_state (automaton self.now) };

    fn all_states(&self) -> Self::State
        ensures { Self.State.number result ≡ all_states (automaton self.now) };

    // One step on byte c; k is what every step sets.
    fn step_on(&self, k: u64, d: Self::State, c: usize) -> Self::State
        requires { c < 256 }
        ensures { Self.State.number result ≡ step_on (automaton self.now) k (Self.State.number d) c };

    // Whether the bit of the top position reports an end.
    fn accepts(&self, d: Self::State) -> bool
        ensures { result ≡ top_bit (automaton self.now).top (Self.State.number d) };

    // Whether byte c stands at no position.
    fn is_absent(&self, c: usize) -> bool
        requires { c < 256 }
        ensures { EmptyIs ((automaton self.now).table c) result };
}
