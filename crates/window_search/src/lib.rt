// The window search by prepared automata, in one word or in four. Verifying window after window takes
// quadratic time on some texts. So it has a budget, and where that does not reach, the rest of the starts
// comes from two readings of the text backwards. Starts, their order and the count of windows are the same
// either way.
#![tactic(auto)]

ghost use Rattle.std.specs.Prelude.{◌≡◌, ◌+◌, ◌*◌, ◌≤◌, ◌<◌, ◌^◌, length};
ghost use Rattle.window_reader.specs.States.{LastByteStates};
ghost use Rattle.window_reader.specs.Reading.{Window};
ghost use Rattle.window_search.specs.Searching.{Spends, Allowed, VerifiedIs, TriedIs, LastByteAbsent, TriesIs, SkippedIs, PartIs, SearchFits, SearchedIs, SpanIs};

use answers::Span;
use window_reader::{End, Reader};

// What trying a window says: an occurrence starts there, or none does, with the shift and the bytes read
// so far in verifying; or the budget for verifying does not reach.
#[derive(Drop)]
pub enum Tried {
    Start(usize, usize),
    Empty(usize, usize),
    Spent,
}

// A part of a search: the next window, and the starts written and the windows tried before it.
#[derive(Drop)]
pub struct Part {
    pub next: usize,
    pub count: usize,
    pub windows: usize,
}

// What a search finds: the count of starts, which stand at the list's front, and the count of windows.
#[derive(Drop)]
pub struct Found {
    pub count: usize,
    pub windows: usize,
}

// What verifying may read beyond twice the way to a window.
const SPARE: usize = 4096;

// How far a verification from w may read: all verifying up to window w reads at most 2 w + SPARE bytes.
pub fn allowed(len: usize, w: usize, spent: usize) -> usize
    requires { Spends len w spent }
    ensures { Allowed len w spent result }
{
    let far = 3 * w + SPARE - spent;
    if far < len {
        return far;
    }
    len
}

// Windows skipped: the next one, and how many they are.
#[derive(Drop)]
pub struct Skipped {
    pub next: usize,
    pub windows: usize,
}

// Of these sizes on, and at size 2, two bytes pay: between them the second is read in vain too often.
const TWO_PAY: usize = 9;

// A rule prepared for a search: its automata for each direction, what a window's last byte leaves, and the
// size of a window, which is its shortest length.
#[derive(Drop)]
struct Search<'a, R: Reader> {
    forward: &'a R,
    reversed: &'a R,
    first: &'a [u64],
    size: usize,
    ghost last_bytes: { LastByteStates (R.automaton reversed.now) R.State.table_words R.State.entry_of first.now },
    ghost some: { 1 ≤ size },
    ghost small: { size < 2 ^ 32 },
}

impl<R: Reader> Search<'_, R> {
    // Verifies from w, as far as the budget goes. The shift is handed on.
    fn verify_within_budget(&self, text: &[u8], w: usize, spent: usize, shift: usize) -> Tried
        requires spends { Spends (length text.now) w spent }
        ensures { VerifiedIs (R.automaton self.now.forward.now) text.now w shift result }
    {
        let stop = allowed(text.len(), w, spent);
        let end = window_reader::verify(self.forward, text, w, stop);
        match end {
            End::At(e) => {
                let read = spent + (e - w);
                return Tried::Start(shift, read);
            }
            End::Dead(e) => {
                let read = spent + (e - w);
                return Tried::Empty(shift, read);
            }
            End::Open => {
                if stop < text.len() {
                    return Tried::Spent;
                }
                let read = spent + (stop - w);
                return Tried::Empty(shift, read);
            }
        }
    }

    // Tries window w: reads it backwards, and verifies it if its bytes begin a string that the rule admits.
    fn try_window(&self, text: &[u8], w: usize, spent: usize) -> Tried
        requires size_in_bounds { w + self.now.size ≤ length text.now }
        requires spends { Spends (length text.now) w spent }
        ensures { TriedIs (R.automaton self.now.forward.now) (R.automaton self.now.reversed.now) self.now.size text.now w result }
    {
        let seen = window_reader::window_shift(self.reversed, self.first, self.size, text, w);
        if seen.hit {
            return self.verify_within_budget(text, w, spent, seen.shift);
        }
        Tried::Empty(seen.shift, spent)
    }

    // Whether the last byte of window w stands at no position.
    fn last_byte_absent(&self, text: &[u8], w: usize) -> bool
        requires size_in_bounds { w + self.now.size ≤ length text.now }
        ensures { LastByteAbsent (R.automaton self.now.reversed.now).table self.now.size text.now w result }
    {
        let last = byte_search::byte_index(text[w + self.size - 1]);
        self.reversed.is_absent(last)
    }

    // How many windows there are from window w on. Nothing is verified.
    fn count_windows(&self, text: &[u8], w: usize) -> usize
        requires w_in_bounds { w ≤ length text.now }
        requires text_len_bound { length text.now < 2 ^ 32 }
        ensures { TriesIs (R.automaton self.now.reversed.now) self.now.size text.now w result }
    {
        let mut w = w;
        let mut k = 0;
        while w + self.size <= text.len() {
            k += 1;
            if self.last_byte_absent(text, w) {
                w += self.size;
                continue;
            }
            let seen = window_reader::window_shift(self.reversed, self.first, self.size, text, w);
            w += seen.shift;
        }
        k
    }

    // Passes over windows from w on whose last byte stands at no position. Never inline: in a caller where the
    // table is a local, the loop's instructions are longer, and its jump ends on a line of 32 bytes.
    #[inline(never)]
    fn skip_windows_by_last(&self, text: &[u8], w: usize) -> Skipped
        requires w_in_bounds { w ≤ length text.now }
        ensures { SkippedIs (R.automaton self.now.reversed.now) self.now.size text.now w result.next result.windows }
    {
        let mut w = w;
        let mut k = 0;
        while self.size <= text.len() - w {
            if !self.last_byte_absent(text, w) {
                return Skipped {
                    next: w,
                    windows: k,
                };
            }
            w += self.size;
            k += 1;
        }
        Skipped {
            next: w,
            windows: k,
        }
    }

    // The same where the last two bytes tell it.
    fn skip_windows_by_two(&self, text: &[u8], w: usize) -> Skipped
        requires le_size { 2 ≤ self.now.size }
        requires w_in_bounds { w ≤ length text.now }
        ensures { SkippedIs (R.automaton self.now.reversed.now) self.now.size text.now w result.next result.windows }
    {
        let mut w = w;
        let mut k = 0;
        while self.size <= text.len() - w {
            if !window_reader::surely_misses(self.reversed, self.first, self.size, text, w) {
                return Skipped {
                    next: w,
                    windows: k,
                };
            }
            w += self.size;
            k += 1;
        }
        Skipped {
            next: w,
            windows: k,
        }
    }

    // Passes over windows that hold nothing and are shifted by their size, as far as their last bytes tell.
    fn skip_windows(&self, text: &[u8], w: usize) -> Skipped
        requires w_in_bounds { w ≤ length text.now }
        ensures { SkippedIs (R.automaton self.now.reversed.now) self.now.size text.now w result.next result.windows }
    {
        if R::ASKS_TWO && (TWO_PAY <= self.size || self.size == 2) {
            return self.skip_windows_by_two(text, w);
        }
        self.skip_windows_by_last(text, w)
    }

    // Tries the windows one after another, and writes the starts into the list from its front, until the
    // windows or the budget are at their end.
    fn verify_windows(&self, text: &[u8], starts: &mut [u32]) -> Part
        requires text_len_bound { length text.now < 2 ^ 32 }
        requires text_in_bounds { length text.now ≤ length starts.old }
        ensures { PartIs (R.automaton self.now.forward.now) (R.automaton self.now.reversed.now) self.now.size text.now starts.old result starts.new }
    {
        let mut w = 0;
        let mut count = 0;
        let mut tried = 0;
        let mut spent = 0;
        while w + self.size <= text.len() {
            let s = self.skip_windows(text, w);
            if s.windows != 0 {
                tried += s.windows;
                w = s.next;
                continue;
            }
            let found = self.try_window(text, w, spent);
            match found {
                Tried::Start(shift, read) => {
                    starts[count] = w as u32;
                    count += 1;
                    tried += 1;
                    spent = read;
                    w += shift;
                }
                Tried::Empty(shift, read) => {
                    tried += 1;
                    spent = read;
                    w += shift;
                }
                Tried::Spent => {
                    return Part {
                        next: w,
                        count: count,
                        windows: tried,
                    };
                }
            }
        }
        Part {
            next: w,
            count: count,
            windows: tried,
        }
    }

    // The whole search. Where verifying came to its end before the windows did, the rest of the starts comes
    // from two readings backwards, and the rest of the windows is only counted; where it did not, what is
    // left is shorter than a window.
    fn run(&self, text: &[u8], starts: &mut [u32]) -> Found
        requires search_fits { SearchFits (length text.now) (length starts.old) }
        ensures { SearchedIs (R.automaton self.now.forward.now) (R.automaton self.now.reversed.now) self.now.size text.now starts.old result starts.new }
    {
        let p = self.verify_windows(text, starts);
        let next = p.next;
        let k = window_reader::write_rest(self.reversed, text, next, starts, p.count);
        let z = self.count_windows(text, next);
        let count = p.count + k;
        let tried = p.windows + z;
        Found {
            count: count,
            windows: tried,
        }
    }
}

// Searches a text by a rule's automata for each direction, in windows of its shortest length. `first` has what a
// window's last byte leaves.
pub fn search_tables<R: Reader>(
    forward: &R,
    reversed: &R,
    first: &[u64],
    size: usize,
    text: &[u8],
    starts: &mut [u32],
) -> Found
    requires last_bytes { LastByteStates (R.automaton reversed.now) R.State.table_words R.State.entry_of first.now }
    requires some { 1 ≤ size }
    requires small { size < 2 ^ 32 }
    requires search_fits { SearchFits (length text.now) (length starts.old) }
    ensures { SearchedIs (R.automaton forward.now) (R.automaton reversed.now) size text.now starts.old result starts.new }
{
    let search = Search {
        forward,
        reversed,
        first,
        size,
    };
    search.run(text, starts)
}

// The part of the text from s to the earliest end there, or the empty part at the text's end.
pub fn part_from<R: Reader>(forward: &R, text: &[u8], s: usize) -> Span
    requires s_in_bounds { s ≤ length text.now }
    ensures { SpanIs (R.automaton forward.now) text.now s result }
{
    let len = text.len();
    let end = window_reader::verify(forward, text, s, len);
    match end {
        End::At(e) => {
            return Span { from: s, to: e };
        }
        End::Dead(e) => {
            return Span { from: len, to: len };
        }
        End::Open => {
            return Span { from: len, to: len };
        }
    }
}
