// What a piece lets out, stepped over by any automaton, and what it holds back: the trait of what scans a text, whatever the
// width of its words, and the statements and laws of pieces. Those who step over a piece are generic over it.
#![tactic(auto)]

ghost use Rattle.std.specs.Prelude.{◌+◌, ◌<◌, ◌≤◌, ◌^◌, length};
ghost use Rattle.piece_stepping.specs.Stepping.{Runner, TextScanned};

// Where a call stands: the state, the counts of decoded and of raw bytes that were read, and the count of pairs that it
// has stored.
#[derive(Drop)]
pub struct Progress<S> {
    pub d: S,
    pub at: u32,
    pub raw: u32,
    pub count: usize,
}

// After some bytes: the state, and how many ends were stored.
#[derive(Drop)]
pub struct Scanned<S> {
    pub d: S,
    pub count: usize,
}

// A rule as it runs over a text. `runner` is its automaton.
pub trait Scanner {
    type State: Copy;

    ghost runner: { Self → Runner Self.State };

    // Steps over `text` from the state d and stores each end in `ends`, from its front; `base` bytes went before.
    fn scan(&self, d: Self::State, base: u32, text: &[u8], ends: &mut [u32]) -> Scanned<Self::State>
        requires text_in_bounds { length text.now ≤ length ends.old }
        requires text_bound { base + length text.now < 2 ^ 32 }
        ensures { TextScanned (runner self.now) d base text.now ends.old result ends.new };
}
