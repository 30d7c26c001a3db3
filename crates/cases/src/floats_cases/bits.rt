//! Floats out of their bit patterns, eight digits each.
ghost use Rattle.std.specs.Prelude.{◌≡◌};
ghost use Rattle.std.specs.Float.{binary32};
ghost use Rattle.std.specs.Float.Ieee.{of_bits};

use crate::digits::u32_at;
use floats::FloatReadings;

// `f32::from_bits` is undefined at a NaN's pattern.
fn float_of_bits(bits: u32) -> f32
    ensures { result ≡ of_bits binary32 bits }
{
    if bits % 0x8000_0000 > 0x7f80_0000 {
        return f32::NAN;
    }
    f32::from_bits(bits)
}

fn float_at(digits: &[u8], at: usize) -> f32 {
    float_of_bits(u32_at(digits, at))
}

/// Seven floats, past four digits of a day and two of an hour.
pub(crate) fn readings_at(digits: &[u8]) -> FloatReadings {
    FloatReadings {
        ozone: float_at(digits, 6),
        ppfd: float_at(digits, 14),
        radiation: float_at(digits, 22),
        temperature: float_at(digits, 30),
        vpd: float_at(digits, 38),
        wind: float_at(digits, 46),
        soil: float_at(digits, 54),
    }
}
