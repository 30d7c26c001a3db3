//! The digits of a byte and of two-byte numbers, high byte first, at the front of a lent buffer.
ghost use Rattle.std.specs.Prelude.{◌≡◌, ◌*◌, ◌≤◌, ◌<◌, [], length};
ghost use Rattle.std.proofs.lemmas.List.Edits.{sets};
ghost use Rattle.frames.specs.Digits.{digit_of, byte, number};
ghost use Rattle.frames.specs.steps.Writer.{numbers};
ghost use Rattle.frames.specs.Kinds.{one, two, size_of};

use crate::widths::{BYTE, NUMBER};

#[tactic(auto, unfolding(crate::specs::Digits::digit_of))]
fn digit(n: u8) -> u8
    requires { n < 16 }
    ensures { result ≡ digit_of n }
{
    if n < 10 { n + 48 } else { n + 55 }
}

pub(crate) fn put_byte(buf: &mut [u8], n: u8)
    requires { size_of one ≤ length buf.old }
    ensures { buf.new ≡ sets buf.old 0 (byte n []) }
{
    buf[0] = digit(n / 16);
    buf[1] = digit(n % 16);
}

// Each byte is written as two digits, so an array of the two bytes would be taken apart at once.
pub(crate) fn put_number(buf: &mut [u8], n: u16)
    requires { size_of two ≤ length buf.old }
    ensures { buf.new ≡ sets buf.old 0 (number n []) }
{
    put_byte(buf, (n / 256) as u8);
    put_byte(&mut buf[BYTE..], (n % 256) as u8);
}

// Numbers in a row.
pub(crate) fn put_numbers(buf: &mut [u8], ns: &[u16])
    requires { length ns.now * 4 ≤ length buf.old }
    ensures { buf.new ≡ sets buf.old 0 (numbers ns.now []) }
{
    for i in 0..ns.len() {
        put_number(&mut buf[NUMBER * i..], ns[i]);
    }
}
