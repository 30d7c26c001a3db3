//! Capital hexadecimal digits, and the numbers that two and four of them say, high byte first.
ghost use Rattle.std.specs.Prelude.{◌≡◌, ◌+◌, ◌≤◌, ◌<◌, true, length};
ghost use Rattle.frames.specs.Digits.{is_digit, value_of, bits_of, all_digits, byte_at, number_at};
ghost use Rattle.frames.specs.Kinds.{one, two, size_of, longest};
ghost use Rattle.frames.specs.steps.Frames.{Values, SaysValues, Finds};

use crate::widths::{BYTE, HourLine, LONGEST};

/// Whether a character is a capital hexadecimal digit ("Frames").
// `&` and `|`, not `&&` and `||`: without a branch the characters of a line are read many at a
// time.
#[tactic(auto, unfolding(crate::specs::Digits::is_digit))]
pub fn is_digit(c: u8) -> bool
    ensures { result ≡ is_digit c }
{
    (48 <= c) & (c <= 57) | (65 <= c) & (c <= 70)
}

/// The value of a digit, 0 to 15: its low four bits, for 0 is the byte 48, and 9 more for a letter,
/// for A is the byte 65. No test comes before it, so it is taken of any character.
#[tactic(auto, unfolding(crate::specs::Digits::bits_of))]
pub fn digit_value(c: u8) -> u8
    ensures value { is_digit c ≡ true → result ≡ value_of c }
    ensures of_any { result ≡ bits_of c }
    ensures small { result < 16 }
{
    (c % 16 + 9 * (c / 64)) % 16
}

// The values of a line's characters, and whether all are digits: a flag and no Option, which
// `parse` would take apart by the same test at once.
#[derive(Clone, Copy)]
pub(crate) struct Line {
    /// Whether all characters are digits.
    pub digits: bool,
    /// The value of each character, 0 past the line.
    pub values: [u8; LONGEST],
    ghost small: { Values values },
}

impl Line {
    #[tactic(auto, unfolding(crate::specs::Digits::byte_at))]
    pub(crate) fn byte_at(&self, at: usize) -> u8
        requires { at + size_of one ≤ longest }
        ensures { Finds self.now.values (at + size_of one) result (byte_at at) }
    {
        let high = self.values[at];
        let low = self.values[at + 1];
        high * 16 + low
    }

    #[tactic(auto, unfolding(crate::specs::Digits::number_at))]
    pub(crate) fn number_at(&self, at: usize) -> u16
        requires { at + size_of two ≤ longest }
        ensures { Finds self.now.values (at + size_of two) result (number_at at) }
    {
        u16::from_be_bytes([self.byte_at(at), self.byte_at(at + BYTE)])
    }
}

// A line of n characters. A byte that is no digit does not end the loop: with no branch the bytes
// are read many at a time. The length is an argument, so that an hour line's loop has a constant
// number of turns.
fn line_of_length(s: &[u8], n: usize) -> Line
    requires { (n ≡ length s.now) × (n ≤ longest) }
    ensures digits { result.digits ≡ all_digits s.now }
    ensures says { all_digits s.now ≡ true → SaysValues result.values s.now }
{
    let mut digits = true;
    let mut values = [0; LONGEST];
    for i in 0..n {
        digits = digits & is_digit(s[i]);
        values[i] = digit_value(s[i]);
    }
    Line { digits, values }
}

// An hour line's length is a constant to the compiler, which then unrolls the loop.
pub(crate) fn line_of(s: &[u8]) -> Line
    requires { length s.now ≤ longest }
    ensures digits { result.digits ≡ all_digits s.now }
    ensures says { all_digits s.now ≡ true → SaysValues result.values s.now }
{
    if s.len() == HourLine::DIGITS {
        return line_of_length(s, HourLine::DIGITS);
    }
    line_of_length(s, s.len())
}
