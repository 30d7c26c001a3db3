//! The hour that a maker's numbers say.
ghost use Rattle.std.specs.Prelude.{◌≡◌};
ghost use Rattle.part.specs.Frames.{soil_from, hour_from};

use crate::HourReadings;
use frames::{Air, Hour, Soil};

// Soil's kind is a number beside its value, as C hands them.
fn soil_from(water: u8, n: u16) -> Soil
    ensures { result ≡ soil_from water n }
{
    if water == 0 {
        Soil::Suction(n)
    } else {
        Soil::Water(n)
    }
}

// The air is the call's, by the kind of frame that it writes.
pub(crate) fn hour_from(readings: HourReadings, air: Air) -> Hour
    ensures { result ≡ hour_from readings air }
{
    Hour {
        day: readings.day,
        hour: readings.hour,
        ozone: frames::ozone_of(readings.ozone),
        ppfd: readings.ppfd,
        radiation: readings.radiation,
        temperature: readings.temperature,
        air,
        wind: readings.wind,
        soil: soil_from(readings.water, readings.soil),
    }
}
