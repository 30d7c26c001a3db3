//! The fields of a line, by their places, and the hour that an hour frame's numbers say.
ghost use Rattle.std.specs.Prelude.{◌≡◌, List, ℕ};
ghost use Rattle.trees.specs.Parameters.{parameters_of};
ghost use Rattle.trees.specs.Warmth.{warmth_of};
ghost use Rattle.frames.specs.steps.Frames.{SaysValues, IsHour, Makes, Sized};
ghost use Rattle.frames.specs.Layout.{ozone_number, ozone_of, vapour_number, soil_number};
ghost use Rattle.frames.specs.Layout.{header_of, air_of, raw_hour_of, frame_at, air_kind, soil_of};
ghost use Rattle.frames.specs.Layout.{hour_of};

use crate::digits::Line;
use crate::widths::{
    CEILING_KIND, CeilingLine, DEFICIT_KIND, END_KIND, EndLine, HEADER_KIND, HUMIDITY_KIND,
    HeaderLine, HourLine, KIND, PARAMETER_KIND, PRESSURE_KIND, ParameterLine, PressureLine,
    WARMTH_KIND, WarmthLine,
};
use crate::{Air, Ceiling, End, Header, Hour, Parameters, Raw, RawHour, Soil, Warmth, temperature};
use trees::Measure;

#[tactic(auto, unfolding(crate::specs::Kinds::length_of))]
fn header_at(line: &Line) -> Header
    ensures { Makes line.now.values 1 result header_of }
{
    Header {
        tree: line.byte_at(HeaderLine::TREE),
        days: line.number_at(HeaderLine::DAYS),
        first: line.number_at(HeaderLine::FIRST),
        last: line.number_at(HeaderLine::LAST),
        level: line.number_at(HeaderLine::LEVEL),
    }
}

// An hour's air, by the kind of its frame. The pressure's place is read whatever the kind: no
// branch before it. The kind is the line's byte: an enum of an hour's kinds would be one more match
// from it.
#[tactic(auto, unfolding(crate::specs::Kinds::length_of))]
fn air_at(kind: u8, line: &Line) -> Air
    ensures { IsHour kind → Makes line.now.values kind result (air_of kind) }
{
    let vapour = line.number_at(HourLine::VAPOUR);
    let pressure = line.number_at(PressureLine::PRESSURE);
    match kind {
        PRESSURE_KIND => Air::Pressure {
            deficit: vapour,
            pressure,
        },
        HUMIDITY_KIND => Air::Humidity(vapour),
        _ => Air::Deficit(vapour),
    }
}

// The kind is the line's byte, passed on to `air_at`.
#[tactic(auto, unfolding(crate::specs::Kinds::length_of))]
fn hour_at(kind: u8, line: &Line) -> RawHour
    ensures { IsHour kind →
        Makes line.now.values kind result (λ ns. raw_hour_of (air_of kind ns) ns) }
{
    RawHour {
        day: line.number_at(HourLine::DAY),
        hour: line.byte_at(HourLine::HOUR),
        ozone: line.number_at(HourLine::OZONE),
        ppfd: line.number_at(HourLine::PPFD),
        radiation: line.number_at(HourLine::RADIATION),
        temperature: line.number_at(HourLine::TEMPERATURE),
        air: air_at(kind, line),
        wind: line.number_at(HourLine::WIND),
        soil: line.number_at(HourLine::SOIL),
    }
}

#[tactic(auto, unfolding(crate::specs::Kinds::length_of))]
fn parameters_at(line: &Line) -> Parameters
    ensures { Makes line.now.values 7 result parameters_of }
{
    Parameters {
        g_max: line.number_at(ParameterLine::GMAX),
        f_min: line.number_at(ParameterLine::FMIN),
        light_a: line.number_at(ParameterLine::LIGHTA),
        t_min: line.number_at(ParameterLine::TMIN),
        t_opt: line.number_at(ParameterLine::TOPT),
        t_max: line.number_at(ParameterLine::TMAX),
        vpd_max: line.number_at(ParameterLine::VPDMAX),
        vpd_min: line.number_at(ParameterLine::VPDMIN),
        soil_max: line.number_at(ParameterLine::SOILMAX),
        soil_min: line.number_at(ParameterLine::SOILMIN),
        leaf: line.number_at(ParameterLine::LEAF),
        a: line.number_at(ParameterLine::A),
        e: line.number_at(ParameterLine::E),
        f1: line.number_at(ParameterLine::F1),
        f4: line.number_at(ParameterLine::F4),
        y: line.number_at(ParameterLine::Y),
    }
}

#[tactic(auto, unfolding(crate::specs::Kinds::length_of))]
fn warmth_at(line: &Line) -> Warmth
    ensures { Makes line.now.values 8 result warmth_of }
{
    Warmth {
        rise: line.number_at(WarmthLine::RISE),
        fall: line.number_at(WarmthLine::FALL),
        end: line.number_at(WarmthLine::END),
    }
}

// The frame of a line that rows 1 to 3 let pass, by its kind. One call of `hour_at` for every kind
// of hour: called at one place it is inlined.
pub(crate) fn frame_at(line: &Line) -> Raw
    ensures { (l : List ℕ) → SaysValues line.now.values l → Sized l → result ≡ frame_at l }
{
    let kind = line.byte_at(KIND);
    match kind {
        HEADER_KIND => Raw::Header(header_at(line)),
        END_KIND => {
            let hours = line.number_at(EndLine::HOURS);
            Raw::End(End { hours })
        },
        CEILING_KIND => {
            let ozone = line.number_at(CeilingLine::OZONE);
            Raw::Ceiling(Ceiling { ozone })
        },
        PARAMETER_KIND => Raw::Parameters(parameters_at(line)),
        WARMTH_KIND => Raw::Warmth(warmth_at(line)),
        _ => Raw::Hour(hour_at(kind, line)),
    }
}

// A soil number in a measure.
fn soil_of(measure: Measure, n: u16) -> Soil
    ensures { result ≡ soil_of measure n }
{
    match measure {
        Measure::Suction => Soil::Suction(n),
        Measure::Water => Soil::Water(n),
    }
}

/// A reading of ozone out of the number in its place: `FFFF` says that it is missing ("Hours
/// without ozone").
pub fn ozone_of(n: u16) -> Option<u16>
    ensures { result ≡ ozone_of n }
{
    (n != 65535).then_some(n)
}

/// The number in ozone's place: `FFFF` for a missing reading.
pub(crate) fn ozone_number(ozone: Option<u16>) -> u16
    ensures { result ≡ ozone_number ozone }
{
    ozone.unwrap_or(65535)
}

/// The number in VPD's place: a deficit in Pa, or humidity in tenths of a percent.
pub fn vapour_number(air: Air) -> u16
    ensures { result ≡ vapour_number air }
{
    match air {
        Air::Deficit(n) | Air::Pressure { deficit: n, .. } | Air::Humidity(n) => n,
    }
}

/// The kind of an hour's frame, 2, 4 or 5, by its air.
// The byte itself, since it is written and compared.
pub fn air_kind(air: Air) -> u8
    ensures { result ≡ air_kind air }
{
    match air {
        Air::Deficit(_) => DEFICIT_KIND,
        Air::Pressure { .. } => PRESSURE_KIND,
        Air::Humidity(_) => HUMIDITY_KIND,
    }
}

/// A soil reading's number, in its measure's unit.
pub fn soil_number(soil: Soil) -> u16
    ensures { result ≡ soil_number soil }
{
    match soil {
        Soil::Suction(n) | Soil::Water(n) => n,
    }
}

/// The hour of a frame's numbers, its soil in a measure.
// Field by field: the measure is a second argument, so no `From` can stand here.
#[tactic(auto, unfolding(crate::specs::Layout::hour_of))]
pub fn hour_of(raw: RawHour, measure: Measure) -> Hour
    ensures { result ≡ hour_of raw measure }
{
    Hour {
        day: raw.day,
        hour: raw.hour,
        ozone: ozone_of(raw.ozone),
        ppfd: raw.ppfd,
        radiation: raw.radiation,
        temperature: temperature::signed(raw.temperature),
        air: raw.air,
        wind: raw.wind,
        soil: soil_of(measure, raw.soil),
    }
}
