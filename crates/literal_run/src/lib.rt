// Copies literal bytes, those without a `&`, by blocks of 32, the last one a part of a block.
#![tactic(auto)]

ghost use Rattle.std.specs.Prelude.{◌≡◌, ◌++◌, ◌+◌, ◌≤◌, length, take, drop};
ghost use Rattle.std.proofs.lemmas.List.Edits.{sets};
ghost use Rattle.literal_run.specs.LiteralRuns.{Copied, RestCopied, LiteralsCopied};

use byte_search::{any_in_block, first_in_block};

// The 32 bytes from i on. Byte by byte, here and in `store_block`: the compiler makes two loads and two stores
// of the turns, where `copy_from_slice` stays a call, and a copy takes 2.5 times as long.
fn load_block(s: &[u8], i: usize) -> [u8; 32]
    requires { i + 32 ≤ length s.now }
    ensures { result ≡ take 32 (drop i s.now) }
{
    let mut block = [0u8; 32];
    for j in 0..32 {
        block[j] = s[i + j];
    }
    block
}

// Writes a block from i on.
fn store_block(block: [u8; 32], i: usize, out: &mut [u8])
    requires { i + 32 ≤ length out.old }
    ensures { out.new ≡ sets out.old i block }
{
    for (j, &b) in block.iter().enumerate() {
        out[i + j] = b;
    }
}

// Copies the 32 bytes from i on to the same place of `out`. All are read before the first is written,
// so that the compiler need not ask whether the two slices overlap.
fn copy_block(raw: &[u8], i: usize, out: &mut [u8])
    requires i_in_bounds { i + 32 ≤ length raw.now }
    requires i_in_bounds_2 { i + 32 ≤ length out.old }
    ensures { out.new ≡ sets out.old i (take 32 (drop i raw.now)) }
{
    let block = load_block(raw, i);
    store_block(block, i, out);
}

// The first n bytes of a block, and then those of another. No branch on n, so that it compiles to
// vector instructions.
fn blend(new: [u8; 32], old: [u8; 32], n: u8) -> [u8; 32]
    requires { n ≤ 32 }
    ensures { result ≡ take n new ++ drop n old }
{
    let mut block = old;
    for j in 0..32u8 {
        let k = usize::from(j);
        block[k] = if j < n { new[k] } else { old[k] };
    }
    block
}

// Copies the n bytes from i on to the same place of `out`, as a block: the bytes of `out` after them
// are written with what they are.
fn copy_part(raw: &[u8], i: usize, n: usize, out: &mut [u8])
    requires n_bound { n ≤ 32 }
    requires i_in_bounds { i + 32 ≤ length raw.now }
    requires i_in_bounds_2 { i + 32 ≤ length out.old }
    ensures { out.new ≡ sets out.old i (take n (drop i raw.now)) }
{
    let new = load_block(raw, i);
    let old = load_block(out, i);
    let k = n as u8;
    let block = blend(new, old, k);
    store_block(block, i, out);
}

// Copies blocks of 32 bytes to the front of `out`, as far as they have no `&`, and returns how many
// bytes these are. Each block is tested and copied in the same turn.
fn copy_blocks(raw: &[u8], out: &mut [u8]) -> usize
    requires { length raw.now ≤ length out.old }
    ensures { Copied raw.now 0 out.old result out.new }
{
    // A `while`, since the place that the blocks reach is the answer.
    let mut i = 0;
    while 32 <= raw.len() - i {
        if any_in_block::<32, _>(|k| raw[k] == b'&', i) {
            return i;
        }
        copy_block(raw, i, out);
        i += 32;
    }
    i
}

// Copies the bytes from i on that stand before the next `&`, byte by byte, to the same place of `out`,
// and returns where they end.
fn copy_bytes(raw: &[u8], i: usize, out: &mut [u8]) -> usize
    requires i_in_bounds { i ≤ length raw.now }
    requires raw_in_bounds { length raw.now ≤ length out.old }
    ensures { RestCopied raw.now i out.old result out.new }
{
    for j in i..raw.len() {
        let c = raw[j];
        if c == b'&' {
            return j;
        }
        out[j] = c;
    }
    raw.len()
}

// The same by one block, where a `&` is near.
fn copy_last_block(raw: &[u8], i: usize, out: &mut [u8]) -> usize
    requires i_in_bounds { i + 64 ≤ length raw.now }
    requires raw_in_bounds { length raw.now ≤ length out.old }
    ensures { RestCopied raw.now i out.old result out.new }
{
    let j = first_in_block::<64, _>(|k| raw[k] == b'&', i);
    let n = j - i;
    if 32 < n {
        return copy_bytes(raw, i, out);
    }
    if raw[j] != b'&' {
        return copy_bytes(raw, i, out);
    }
    copy_part(raw, i, n, out);
    j
}

// Copies the bytes before the first `&`, or all of them, to the front of `out`, and returns how many.
pub fn copy_literals(raw: &[u8], out: &mut [u8]) -> usize
    requires { length raw.now ≤ length out.old }
    ensures { LiteralsCopied raw.now out.old result out.new }
{
    let i = copy_blocks(raw, out);
    if raw.len() - i < 64 {
        return copy_bytes(raw, i, out);
    }
    copy_last_block(raw, i, out)
}
