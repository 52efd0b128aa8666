// One forward step of document 01 on words of 64 bits, and the masks that it needs. Each contract is
// an equation with a definition of `specs/ForwardStep.antt` at width 64, for any arguments.
// `proofs/Closure.antt` says what its bits are, and `proofs/Bridge.antt` that it is the step of the
// model's law where the masks are those of a list of positions.
#![tactic(auto)]

ghost use Rattle.std.specs.Prelude.{◌≡◌, ◌<◌};
ghost use Rattle.shift_and.specs.ForwardStep as Step;

// The states after one byte. d are the states before it, b and s the byte's masks, k the bits that
// every step sets; a are the optional positions, i and f their blocks' starts and ends.
pub fn advance(d: u64, b: u64, s: u64, k: u64, a: u64, i: u64, f: u64) -> u64
    ensures { result ≡ Step.advance 64 d b s k a i f }
{
    flood(move_up(d, b, s, k), a, i, f)
}

// A state moves up by one where b has the byte, and stays where s has it. Bit 63 drops out.
pub fn move_up(d: u64, b: u64, s: u64, k: u64) -> u64
    ensures { result ≡ Step.move 64 d b s k }
{
    ((d << 1) & b) | (d & s) | k
}

// States pass over the optional positions a.
pub fn flood(d: u64, a: u64, i: u64, f: u64) -> u64
    ensures { result ≡ Step.flood 64 d a i f }
{
    let g = d | f;
    let r = g.wrapping_sub(i);
    d | (a & (!r ^ g))
}

// The bit before each block of a.
pub fn block_starts(a: u64) -> u64
    ensures { result ≡ Step.block_starts 64 a }
{
    (a >> 1) & !a
}

// The last bit of each block of a.
pub fn block_ends(a: u64) -> u64
    ensures { result ≡ Step.block_ends 64 a }
{
    a & !(a >> 1)
}

// The states before any byte.
pub fn start_state(a: u64) -> u64
    ensures { result ≡ Step.opening 64 a }
{
    flood(1, a, block_starts(a), block_ends(a))
}

// Whether the bit of the top position reports an end.
pub fn accepts(d: u64, top: u64) -> bool
    requires { top < 64 }
    ensures { result ≡ Step.top_bit top d }
{
    (d >> top) % 2 == 1
}

// How many of the positions p are not optional.
pub fn shortest(p: u64, a: u64) -> u32
    ensures { result ≡ Step.shortest 64 p a }
{
    (p & !a).count_ones()
}
