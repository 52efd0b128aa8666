// Sets of bytes, and the fold, by its formula.
#![tactic(auto)]

ghost use Rattle.std.specs.Prelude.{◌≡◌, true, ◌≤◌, ◌<◌};
ghost use Rattle.model.specs.RuleText.{other_case};
ghost use Rattle.byte_set.specs.Sets.{member, none, add_byte, add_range, widen, turn, minus, is_empty};

// The other case of a letter, any other byte itself: "bytes 65 to 90 and 97 to 122 move by 32", which turns bit 5 round.
pub fn other_case(c: usize) -> u8
    requires { c < 256 }
    ensures { result ≡ other_case c }
{
    let b = c as u8;
    let capital = (65 <= b) & (b <= 90);
    let small = (97 <= b) & (b <= 122);
    let letter = (capital | small) as u8;
    b ^ (letter << 5)
}

// A set of bytes in four words: byte c is bit c % 64 of word c / 64.
#[derive(Clone, Copy, Debug, Default, PartialEq, Eq)]
pub struct ByteSet {
    words: [u64; 4],
}

impl ByteSet {
    // The set with no byte.
    pub fn new() -> ByteSet
        ensures { result.words ≡ none }
    {
        ByteSet { words: [0; 4] }
    }

    // By reference: a set that is handed over is copied, and a loop over all bytes copied it for each.
    #[tactic(auto, using(crate::proofs::SetSteps::member_is))]
    pub fn contains(&self, c: u8) -> bool
        ensures { result ≡ member self.now.words c }
    {
        (self.words[usize::from(c / 64)] >> (c % 64)) % 2 == 1
    }

    #[tactic(auto, using(crate::proofs::SetSteps::one_bit), unfolding(crate::specs::Sets::add_byte))]
    pub fn insert(&mut self, c: u8)
        ensures { self.new.words ≡ add_byte self.old.words c }
    {
        self.words[usize::from(c / 64)] |= 1 << (c % 64);
    }

    // Adds the bytes from `low` to `high`.
    pub fn insert_range(&mut self, low: u8, high: u8)
        requires { low ≤ high }
        ensures { self.new.words ≡ add_range self.old.words low high }
    {
        for c in low..=high {
            self.insert(c);
        }
    }

    // The set widened by the other case of its letters, which are all among the bytes from `A` to `z`.
    fn both_cases(self) -> ByteSet
        ensures { result.words ≡ widen true self.words }
    {
        let mut wide = self;
        for c in 65..123usize {
            if self.contains(other_case(c)) {
                wide.insert(c as u8);
            }
        }
        wide
    }

    // The same with the fold flag set, and the set as it is without.
    #[tactic(auto, unfolding(crate::specs::Sets::widen))]
    pub fn widened(self, fold: bool) -> ByteSet
        ensures { result.words ≡ widen fold self.words }
    {
        if fold { self.both_cases() } else { self }
    }

    // The set turned round, where `turned` says so.
    #[tactic(auto, unfolding(crate::specs::Sets::turn))]
    pub fn turned_round(self, turned: bool) -> ByteSet
        ensures { result.words ≡ turn turned self.words }
    {
        if !turned {
            return self;
        }
        let [a, b, c, d] = self.words;
        ByteSet {
            words: [!a, !b, !c, !d],
        }
    }

    // The set of a class with these ranges: widened, and turned round only after that.
    pub fn of_class(ranges: ByteSet, fold: bool, turned: bool) -> ByteSet
        ensures { result.words ≡ turn turned (widen fold ranges.words) }
    {
        let wide = ranges.widened(fold);
        wide.turned_round(turned)
    }

    // The set without the bytes of another.
    #[tactic(auto, unfolding(crate::specs::Sets::minus))]
    pub fn without(self, other: ByteSet) -> ByteSet
        ensures { result.words ≡ minus self.words other.words }
    {
        ByteSet {
            words: [
                self.words[0] & !other.words[0],
                self.words[1] & !other.words[1],
                self.words[2] & !other.words[2],
                self.words[3] & !other.words[3],
            ],
        }
    }

    #[tactic(auto, unfolding(crate::specs::Sets::is_empty))]
    pub fn is_empty(self) -> bool
        ensures { result ≡ is_empty self.words }
    {
        matches!(self.words, [0, 0, 0, 0])
    }
}
