// The window search's readings of a text by a prepared automaton: a window backwards, a start forwards,
// and all the text backwards. Each contract is an equation with a definition of `specs/Reading.antt`,
// for any automaton, in one word or in four.
#![tactic(auto)]

ghost use Rattle.std.specs.Prelude.{◌≡◌, ◌+◌, ◌≤◌, ◌<◌, length};
ghost use Rattle.window_reader.specs.States.{LastByteStates};
ghost use Rattle.window_reader.specs.Reading.{Window, Unread, WindowIs, SurelyMisses, EndIs, CountIs, WriteFine, WroteIs, RestFine, WrittenIs};

mod readers;
mod wide;
mod word;

pub use readers::{Reader, States};
pub use wide::WideReader;
pub use word::WordReader;

// What a window says: the published shift, and whether its bytes begin a string that the rule admits.
#[derive(Drop)]
pub struct WindowResult {
    pub shift: usize,
    pub hit: bool,
}

// What reading on from a start says: an occurrence ends at the place, and none before it; or no state
// is left after the bytes before the place; or neither, after all the bytes that might be read.
#[derive(Drop)]
pub enum End {
    At(usize),
    Dead(usize),
    Open,
}

// The states after a window's last byte, for each byte, by the reversed automaton.
pub fn last_byte_states<R: Reader>(reversed: &R, first: &mut [u64])
    requires first_len { length first.old ≡ R.State.table_words }
    ensures { LastByteStates (R.automaton reversed.now) R.State.table_words R.State.entry_of first.new }
{
    let all = reversed.all_states();
    for c in 0..256 {
        let d = reversed.step_on(0, all, c);
        d.write_entry(first, c);
    }
}

// Reads on in window w, byte j and those before it, from the states d; `last` is the shift so far. It
// ends early where no state is left.
fn read_back<R: Reader>(
    reversed: &R,
    size: usize,
    text: &[u8],
    w: usize,
    d: R::State,
    last: usize,
    j: usize,
) -> WindowResult
    requires window { Window size w (length text.now) }
    requires unread { Unread (R.automaton reversed.now) size text.now w (R.State.number d) last j }
    ensures { WindowIs (R.automaton reversed.now) size text.now w result }
{
    let mut d = d;
    let mut last = last;
    for i in (1..j + 1).rev() {
        let c = byte_search::byte_index(text[w + i]);
        d = reversed.step_on(0, d, c);
        if d.is_empty() {
            return WindowResult {
                shift: last,
                hit: false,
            };
        }
        if reversed.accepts(d) {
            last = i;
        }
    }
    let c = byte_search::byte_index(text[w]);
    d = reversed.step_on(0, d, c);
    WindowResult {
        shift: last,
        hit: reversed.accepts(d),
    }
}

// Reads window w of `size` bytes from its last byte backwards, by the reversed automaton, until no state
// is left.
pub fn window_shift<R: Reader>(
    reversed: &R,
    first: &[u64],
    size: usize,
    text: &[u8],
    w: usize,
) -> WindowResult
    requires window { Window size w (length text.now) }
    requires last_byte_states { LastByteStates (R.automaton reversed.now) R.State.table_words R.State.entry_of first.now }
    ensures { WindowIs (R.automaton reversed.now) size text.now w result }
{
    let j = size - 1;
    let c = byte_search::byte_index(text[w + j]);
    let d = R::State::entry(first, c);
    let begins = reversed.accepts(d);
    if j == 0 {
        return WindowResult {
            shift: size,
            hit: begins,
        };
    }
    if d.is_empty() {
        return WindowResult {
            shift: size,
            hit: false,
        };
    }
    let next = j - 1;
    if begins {
        return read_back(reversed, size, text, w, d, j, next);
    }
    read_back(reversed, size, text, w, d, size, next)
}

// Whether the last two bytes of window w tell that it holds nothing and is shifted by its size: mostly
// they do, and one test of both goes wrong less often than one of each.
pub fn surely_misses<R: Reader>(
    reversed: &R,
    first: &[u64],
    size: usize,
    text: &[u8],
    w: usize,
) -> bool
    requires window { Window size w (length text.now) }
    requires last_byte_states { LastByteStates (R.automaton reversed.now) R.State.table_words R.State.entry_of first.now }
    requires le_size { 2 ≤ size }
    ensures { SurelyMisses (R.automaton reversed.now) size text.now w result }
{
    let j = size - 1;
    let i = j - 1;
    let c = byte_search::byte_index(text[w + j]);
    let b = byte_search::byte_index(text[w + i]);
    let d = R::State::entry(first, c);
    let x = reversed.step_on(0, d, b);
    let begins = reversed.accepts(d);
    if i == 0 {
        let hit = reversed.accepts(x);
        return !(begins | hit);
    }
    let alive = !x.is_empty();
    !(begins | alive)
}

// Reads forward from the start s, by the forward automaton, up to the place `stop`.
pub fn verify<R: Reader>(forward: &R, text: &[u8], s: usize, stop: usize) -> End
    requires s_le_stop { s ≤ stop }
    requires stop_in_bounds { stop ≤ length text.now }
    ensures { EndIs (R.automaton forward.now) text.now s stop result }
{
    let mut d = forward.start_state();
    for e in s..stop {
        let c = byte_search::byte_index(text[e]);
        d = forward.step_on(0, d, c);
        if d.is_empty() {
            return End::Dead(e + 1);
        }
        if forward.accepts(d) {
            return End::At(e + 1);
        }
    }
    End::Open
}

// Reads the text backwards as far as `from`, by the reversed automaton and with the beginning always set:
// how many starts there are from there on.
pub fn count_back<R: Reader>(reversed: &R, text: &[u8], from: usize) -> usize
    requires from_in_bounds { from ≤ length text.now }
    ensures { CountIs (R.automaton reversed.now) text.now from result }
{
    let mut d = reversed.start_state();
    let mut k = 0;
    for j in (from..text.len()).rev() {
        let c = byte_search::byte_index(text[j]);
        d = reversed.step_on(1, d, c);
        if reversed.accepts(d) {
            k += 1;
        }
    }
    k
}

// The same reading, which writes those starts, k of them, into the list from the entry `first` on, the
// last one first.
fn write_back<R: Reader>(
    reversed: &R,
    text: &[u8],
    from: usize,
    starts: &mut [u32],
    first: usize,
    k: usize,
)
    requires write_fine { WriteFine (R.automaton reversed.now) text.now from (length starts.old) first k }
    ensures { WroteIs (R.automaton reversed.now) text.now from starts.old first starts.new }
{
    let mut d = reversed.start_state();
    let mut p = first + k;
    let mut j = text.len();
    while first < p {
        j -= 1;
        let c = byte_search::byte_index(text[j]);
        d = reversed.step_on(1, d, c);
        if reversed.accepts(d) {
            p -= 1;
            starts[p] = j as u32;
        }
    }
}

// Writes the starts from `from` on into the list from the entry `first` on, and answers how many there
// are.
pub fn write_rest<R: Reader>(
    reversed: &R,
    text: &[u8],
    from: usize,
    starts: &mut [u32],
    first: usize,
) -> usize
    requires rest_fine { RestFine (length text.now) from (length starts.old) first }
    ensures { WrittenIs (R.automaton reversed.now) text.now from starts.old first result starts.new }
{
    let k = count_back(reversed, text, from);
    write_back(reversed, text, from, starts, first, k);
    k
}
