//! The sums of an account.
use crate::digits::{u8_at, u16_at, u32_at, u64_at};
use account::Sums;
use std::fmt;

/// One anew, by the number of its field in the account; none for any other field's number.
pub(crate) fn set_sum(sums: &mut Sums, digits: &[u8]) {
    match u8_at(digits, 0) {
        8 => sums.hours = u16_at(digits, 2),
        9 => sums.counted = u16_at(digits, 2),
        10 => sums.missing = u16_at(digits, 2),
        11 => sums.lower = u64_at(digits, 2),
        12 => sums.upper = u64_at(digits, 2),
        13 => sums.least = u32_at(digits, 2),
        14 => sums.most = u32_at(digits, 2),
        _ => (),
    }
}

/// All seven, in the order of their numbers.
#[derive(Clone, Copy)]
pub(crate) struct Seven(pub(crate) Sums);

impl fmt::Display for Seven {
    fn fmt<W: fmt::Write>(&self, f: &mut fmt::Formatter<W>) -> fmt::Result {
        let s = self.0;
        write!(f, "{} {} {} ", s.hours, s.counted, s.missing)?;
        write!(f, "{} {} {} {}", s.lower, s.upper, s.least, s.most)
    }
}
