//! The frame that seven floats say, each turned to its field's two bytes.
ghost use Rattle.std.specs.Prelude.{◌≡◌};
ghost use Rattle.frames.specs.Answers.{accepted, outcome_of, onward};
ghost use Rattle.floats.specs.Whole.{whole_of};
ghost use Rattle.floats.specs.Numbers.{natural_bytes, complement_bytes, raw_of};
ghost use Rattle.floats.specs.Feeding.{in_field, wholes_of};

use crate::FloatReadings;
use crate::whole::whole_number;
use frames::{Air, RawHour, Refusal};

// A field from 0 up, by its number: row 26 where the float is no whole number, 65534, which row 10
// refuses, where two bytes do not hold it.
fn natural_field(field: u8, x: f32) -> Result<u16, Refusal>
    ensures { outcome_of result ≡ in_field field (whole_of x) (λ z. accepted (natural_bytes z)) }
{
    let z = whole_number(x).ok_or(Refusal::Float(field))?;
    Ok(u16::try_from(z).unwrap_or(65534))
}

// A temperature, likewise: 32767, which row 10 refuses, where two bytes do not hold it.
fn complement_field(field: u8, x: f32) -> Result<u16, Refusal>
    ensures { outcome_of result ≡ in_field field (whole_of x) (λ z. accepted (complement_bytes z)) }
{
    let z = whole_number(x).ok_or(Refusal::Float(field))?;
    Ok(i16::try_from(z).map_or(32767, |t| frames::complement(t)))
}

// The frame of seven whole numbers, or row 26 with the first field, from 1 on, whose float is none.
pub(crate) fn frame_of(day: u16, hour: u8, r: FloatReadings) -> Result<RawHour, Refusal>
    ensures { outcome_of result ≡ onward (wholes_of r) (λ w. accepted (raw_of day hour w)) }
{
    Ok(RawHour {
        day,
        hour,
        ozone: natural_field(1, r.ozone)?,
        ppfd: natural_field(2, r.ppfd)?,
        radiation: natural_field(3, r.radiation)?,
        temperature: complement_field(4, r.temperature)?,
        air: Air::Deficit(natural_field(5, r.vpd)?),
        wind: natural_field(6, r.wind)?,
        soil: natural_field(7, r.soil)?,
    })
}
