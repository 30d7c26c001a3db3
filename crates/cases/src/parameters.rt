//! The sixteen parameters of a laboratory's own tree: out of digits, set one by one, and as text.
ghost use Rattle.std.specs.Prelude.{◌≡◌};
ghost use Rattle.trees.specs.Parameters.{parameter_numbers};
ghost use Rattle.cases.specs.Digits.{numbers_read};

use crate::digits::{u8_at, u16_at};
use frames::Parameters;
use std::fmt;

/// What the first 64 digits say, four each, in the order of the frame.
pub(crate) fn parameters_of(digits: &[u8]) -> Parameters
    ensures { parameter_numbers result ≡ numbers_read 16 0 digits.now }
{
    Parameters {
        g_max: u16_at(digits, 0),
        f_min: u16_at(digits, 4),
        light_a: u16_at(digits, 8),
        t_min: u16_at(digits, 12),
        t_opt: u16_at(digits, 16),
        t_max: u16_at(digits, 20),
        vpd_max: u16_at(digits, 24),
        vpd_min: u16_at(digits, 28),
        soil_max: u16_at(digits, 32),
        soil_min: u16_at(digits, 36),
        leaf: u16_at(digits, 40),
        a: u16_at(digits, 44),
        e: u16_at(digits, 48),
        f1: u16_at(digits, 52),
        f4: u16_at(digits, 56),
        y: u16_at(digits, 60),
    }
}

/// One anew, by the number of its field in the account; none for any other field's number.
pub(crate) fn set_parameter(p: &mut Parameters, digits: &[u8]) {
    let said = u16_at(digits, 2);
    match u8_at(digits, 0) {
        15 => p.g_max = said,
        16 => p.f_min = said,
        17 => p.light_a = said,
        18 => p.t_min = said,
        19 => p.t_opt = said,
        20 => p.t_max = said,
        21 => p.vpd_max = said,
        22 => p.vpd_min = said,
        23 => p.soil_max = said,
        24 => p.soil_min = said,
        25 => p.leaf = said,
        26 => p.a = said,
        27 => p.e = said,
        28 => p.f1 = said,
        29 => p.f4 = said,
        30 => p.y = said,
        _ => (),
    }
}

/// The sixteen numbers in the order of the frame, with a space between two.
#[derive(Clone, Copy)]
pub(crate) struct Listed(pub(crate) Parameters);

impl fmt::Display for Listed {
    fn fmt<W: fmt::Write>(&self, f: &mut fmt::Formatter<W>) -> fmt::Result {
        let p = self.0;
        write!(f, "{} {} {} {} ", p.g_max, p.f_min, p.light_a, p.t_min)?;
        write!(f, "{} {} {} {} ", p.t_opt, p.t_max, p.vpd_max, p.vpd_min)?;
        write!(f, "{} {} {} {} ", p.soil_max, p.soil_min, p.leaf, p.a)?;
        write!(f, "{} {} {} {}", p.e, p.f1, p.f4, p.y)
    }
}

/// The sixteen numbers, or a mark where each is 0.
#[derive(Clone, Copy)]
pub(crate) struct Sixteen(pub(crate) Parameters);

impl fmt::Display for Sixteen {
    fn fmt<W: fmt::Write>(&self, f: &mut fmt::Formatter<W>) -> fmt::Result {
        if trees::is_fed(self.0) {
            write!(f, "{}", Listed(self.0))
        } else {
            f.write_str("-")
        }
    }
}
