// The decoder of a whole text: the references of document 01, once, into a lent buffer.
#![tactic(auto)]

ghost use Rattle.std.specs.Prelude.{◌≤◌, length};
ghost use Rattle.decoder.specs.Decoder.{DecodedAll, DecodeIs};

use answers::{Answer, Refusal};

// Decodes all of `raw` to the front of `out`, and returns how many bytes it gives: what it lets out, and
// then what a piece would hold back, since nothing follows.
fn decode_all(raw: &[u8], out: &mut [u8]) -> usize
    requires { length raw.now ≤ length out.old }
    ensures { DecodedAll raw.now out.old result out.new }
{
    let t = piece_decoder::decode_tokens(raw, out);
    text_writer::copy_tail(raw, t.read, out, t.written)
}

// Decodes a whole plan into the lent buffer: refused by 10 if it is too long, by 9 if the buffer is
// shorter than it.
pub fn decode(raw: &[u8], out: &mut [u8]) -> Answer
    ensures { DecodeIs raw.now out.old result out.new }
{
    if raw.len() > limits::TEXT_LIMIT {
        return Answer::from(Refusal::TooMuch.at(0));
    }
    if out.len() < raw.len() {
        return Answer::from(Refusal::TooShort.at(0));
    }
    let n = decode_all(raw, out);
    Answer::counted(n as u32, 0)
}
