//! The number that a word says.
ghost use Rattle.std.specs.Prelude.{◌≡◌};
ghost use Rattle.pod1.specs.Number.{number_of};

use crate::input::{word_at, word_buffer};
use std::env::Env;

/// What a word of decimal digits says. A sign is no digit, and a number that is too large says the
/// greatest: the library's `parse` takes a sign, and refuses such a number.
pub(crate) fn number(word: &[u8]) -> Option<u16>
    ensures { result ≡ number_of word.now }
{
    if word.is_empty() {
        return None;
    }
    let mut held: u16 = 0;
    for c in word {
        if !c.is_ascii_digit() {
            return None;
        }
        held = held.saturating_mul(10).saturating_add(u16::from(*c - b'0'));
    }
    Some(held)
}

/// What the program's word at a place says, its own name being at place 0.
pub(crate) fn number_at(rt: &impl Env, place: usize) -> Option<u16> {
    let mut buf = word_buffer();
    number(word_at(rt, place, &mut buf))
}
