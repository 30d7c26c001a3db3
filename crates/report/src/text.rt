//! Text of up to 160 bytes, made from its end, and put into a lent buffer.
ghost use Rattle.std.specs.Prelude.{◌≡◌, ◌+◌, ◌≤◌, ◌∷◌, ◌++◌};
ghost use Rattle.frames.specs.Answers.{accepted};
ghost use Rattle.frames.specs.Buffer.{Prints};
ghost use Rattle.text_spec.specs.Text.{decimal, text_in};

use frames::Refusal;
use text_spec::Text;

// A line feed alone.
pub(crate) const LINE_END: Text = Text {
    bytes: [b'\n'; 160],
    at: 159,
};

// A byte before the text. No ghost field holds the room: the functions that write before a text
// each ask for another.
pub(crate) fn byte_before(t: Text, c: u8) -> Text
    requires room { 1 ≤ t.at }
    ensures text { text_in result ≡ c ∷ text_in t }
    ensures room { result.at + 1 ≡ t.at }
{
    let mut bytes = t.bytes;
    let at = t.at - 1;
    bytes[at] = c;
    Text { bytes, at }
}

// A number's digits before the text.
#[tactic(auto, using(crate::proofs::DigitLaws::decimal_before, crate::proofs::DigitLaws::at_most_twenty))]
pub(crate) fn number_before(t: Text, n: u64) -> Text
    requires room { 20 ≤ t.at }
    ensures text { text_in result ≡ decimal n (text_in t) }
    ensures room { t.at ≤ result.at + 20 }
{
    let mut bytes = t.bytes;
    let at = itoa::write_digits(n, &mut bytes, t.at);
    Text { bytes, at }
}

/// The text's bytes.
pub(crate) fn bytes_of(t: &Text) -> &[u8]
    ensures { result.now ≡ text_in t.now }
{
    &t.bytes[t.at..]
}

// The text to the front of a lent buffer: row 12 where it is too short, and then nothing is
// written.
pub(crate) fn put(t: Text, buf: &mut [u8]) -> Result<usize, Refusal>
    ensures { Prints (accepted (text_in t)) buf.old result buf.new }
{
    put_both(t, b"", buf)
}

// The text and more after it to the front of a lent buffer: row 12 where it is too short for both,
// and then nothing is written.
pub(crate) fn put_both(t: Text, more: &[u8], buf: &mut [u8]) -> Result<usize, Refusal>
    ensures { Prints (accepted (text_in t ++ more.now)) buf.old result buf.new }
{
    let line = bytes_of(&t);
    let n = line.len();
    let all = n + more.len();
    if buf.len() < all {
        return Err(Refusal::Buffer);
    }
    buf[..n].copy_from_slice(line);
    buf[n..all].copy_from_slice(more);
    Ok(all)
}
