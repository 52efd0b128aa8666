// Writes bytes to a lent buffer, at a place of it.
#![tactic(auto)]

ghost use Rattle.std.specs.Prelude.{◌+◌, ◌≤◌, length};
ghost use Rattle.text_writer.specs.Writing.{TailCopied, Filled};

// Copies the bytes from `from` on as they came, to `at` on, and returns where they end. A loop, since `copy_from_slice`
// would make the archive need `memmove`.
pub fn copy_tail(raw: &[u8], from: usize, out: &mut [u8], at: usize) -> usize
    requires from_in_bounds { from ≤ length raw.now }
    requires raw_in_bounds { at + length raw.now ≤ length out.old + from }
    ensures { TailCopied raw.now from out.old at result out.new }
{
    let tail = &raw[from..];
    for (i, byte) in tail.iter().enumerate() {
        out[at + i] = *byte;
    }
    at + tail.len()
}

// Writes n times the same byte, to `at` on, and returns where they end.
pub fn fill(out: &mut [u8], at: usize, byte: u8, n: usize) -> usize
    requires { at + n ≤ length out.old }
    ensures { Filled out.old at byte n result out.new }
{
    let end = at + n;
    out[at..end].fill(byte);
    end
}
