//! Leaf age by warmth in an account, and its temperature sums.
use crate::digits::{i16_at, u8_at, u16_at, u32_at};
use account::Carried;
use frames::Warmth;
use std::fmt;

/// One number anew, by the number of its field in the account; none for any other field's number.
pub(crate) fn set_warmth(w: &mut Warmth, digits: &[u8]) {
    match u8_at(digits, 0) {
        31 => w.rise = u16_at(digits, 2),
        32 => w.fall = u16_at(digits, 2),
        33 => w.end = u16_at(digits, 2),
        _ => (),
    }
}

/// The same of the sums; the total in two's complement.
pub(crate) fn set_carried(c: &mut Carried, digits: &[u8]) {
    match u8_at(digits, 0) {
        34 => c.sum = u32_at(digits, 2),
        35 => c.total = i16_at(digits, 2),
        _ => (),
    }
}

/// All five, or a mark where each is 0.
#[derive(Clone, Copy)]
pub(crate) struct Ageing(pub(crate) Warmth, pub(crate) Carried);

impl fmt::Display for Ageing {
    fn fmt<W: fmt::Write>(&self, f: &mut fmt::Formatter<W>) -> fmt::Result {
        let Ageing(w, c) = *self;
        if !trees::has_warmth(w) && c == Carried::default() {
            return f.write_str("-");
        }
        write!(f, "{} {} {} {} {}", w.rise, w.fall, w.end, c.sum, c.total)
    }
}
