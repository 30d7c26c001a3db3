//! The rows that a record meets by itself ("Turned-back lines"): 5 to 8 for a header, 10 with its
//! first field out of range for an hour, 17 for a ceiling, 24 for parameters, 25 for warmth; and
//! row 18.
ghost use Rattle.frames.specs.Answers.{accepted, refused, row_of, outcome_of};
ghost use Rattle.std.specs.Prelude.{◌≡◌, ◌==◌, if◌then◌else◌};
ghost use Rattle.frames.specs.Ranges.{period_out, ramps_out, ozone_out, vapour_out, soil_out};
ghost use Rattle.frames.specs.Ranges.{pressure_out, hour_checked, checked, ceiling_out, warmth_out};
ghost use Rattle.frames.specs.Ranges.{warmth_broken, lacks_ceiling};
ghost use Rattle.frames.specs.Numbers.{is_outside};
ghost use Rattle.frames.specs.Parameters.{pair_out, temperatures_out, parameter_out};
ghost use Rattle.frames.specs.Temperature.{temperature_out};
ghost use Rattle.frames.specs.declared.records.Record.{Record};

use crate::records::{Air, Ceiling, Header, Hour, Refusal, Soil};
use crate::{Parameters, Warmth};

/// Whether n is not from low to high, both included.
pub fn outside(low: u16, high: u16, n: u16) -> bool
    ensures { result ≡ is_outside low high n }
{
    n < low || high < n
}

// Refused by a row where its test holds.
fn refused_where(test: bool, refusal: Refusal) -> Result<(), Refusal>
    ensures { outcome_of result ≡ (if test then refused (row_of «refusal») else accepted tt) }
{
    if test { Err(refusal) } else { Ok(()) }
}

// Row 7, for a tree whose ramps take so many days.
fn period_out(h: Header, ramps: u32) -> bool
    ensures { result ≡ period_out h ramps }
{
    h.first < 1 || h.last < h.first || h.days < h.last || ((h.last - h.first) as u32) < ramps
}

/// A header's rows, in this order: 5 (the tree is not 1 to 7), 6 (the year has not 365 or 366
/// days), 7 (the period is not in the year, or too short for the tree), 8 (the level is not 1 to
/// 10000).
#[tactic(auto, unfolding(crate::specs::Ranges::checked))]
pub fn check_header(h: Header) -> Result<(), Refusal>
    ensures { outcome_of result ≡ checked (Record.Header h) }
{
    let f = trees::figures_before(h.tree).ok_or(Refusal::Tree)?;
    refused_where(outside(365, 366, h.days), Refusal::Year)?;
    refused_where(period_out(h, trees::ramp_days(f)), Refusal::Period)?;
    refused_where(outside(1, 10000, h.level), Refusal::Level)
}

/// Whether a temperature in tenths of °C is out of range, -500 to 600: field 4.
pub fn temperature_out(t: i16) -> bool
    ensures { result ≡ temperature_out t }
{
    t < -500 || 600 < t
}

// Field 1.
fn ozone_out(ozone: Option<u16>) -> bool
    ensures { result ≡ ozone_out ozone }
{
    ozone.is_some_and(|n| 5000 < n)
}

// Field 5.
fn vapour_out(air: Air) -> bool
    ensures { result ≡ vapour_out air }
{
    match air {
        Air::Deficit(n) | Air::Pressure { deficit: n, .. } => 10000 < n,
        Air::Humidity(n) => 1000 < n,
    }
}

// Field 8.
fn pressure_out(air: Air) -> bool
    ensures { result ≡ pressure_out air }
{
    match air {
        Air::Pressure { pressure, .. } => outside(5000, 11000, pressure),
        Air::Deficit(_) | Air::Humidity(_) => false,
    }
}

/// Whether a soil reading is out of its measure's range: field 7.
pub fn soil_out(soil: Soil) -> bool
    ensures { result ≡ soil_out soil }
{
    match soil {
        Soil::Suction(n) => 10000 < n,
        Soil::Water(n) => 1000 < n,
    }
}

/// Row 10 (a reading is out of range) with the first such field, 1 to 8, given whether the soil is
/// unfit: out of range or, for a caller that knows the tree, in the other measure.
pub fn check_hour(h: Hour, unfit: bool) -> Result<(), Refusal>
    ensures { outcome_of result ≡ hour_checked unfit h }
{
    refused_where(ozone_out(h.ozone), Refusal::Range(1))?;
    refused_where(3000 < h.ppfd, Refusal::Range(2))?;
    refused_where(1500 < h.radiation, Refusal::Range(3))?;
    refused_where(temperature_out(h.temperature), Refusal::Range(4))?;
    refused_where(vapour_out(h.air), Refusal::Range(5))?;
    refused_where(6000 < h.wind, Refusal::Range(6))?;
    refused_where(unfit, Refusal::Range(7))?;
    refused_where(pressure_out(h.air), Refusal::Range(8))
}

/// Row 17: the ceiling is not 1 to 5000 tenths of ppb.
#[tactic(auto, unfolding(crate::specs::Ranges::checked))]
pub(crate) fn check_ceiling(c: Ceiling) -> Result<(), Refusal>
    ensures { outcome_of result ≡ checked (Record.Ceiling c) }
{
    refused_where(outside(1, 5000, c.ozone), Refusal::Ceiling)
}

/// Whether row 17 refuses a season's ceiling, which is 0 where none was fed.
pub fn ceiling_out(ceiling: u16) -> bool
    ensures { result ≡ ceiling_out ceiling }
{
    ceiling != 0 && outside(1, 5000, ceiling)
}

/// Whether row 18 is given: ozone is missing, and the season's ceiling is 0.
pub fn lacks_ceiling(ceiling: u16, ozone: Option<u16>) -> bool
    ensures { result ≡ lacks_ceiling ceiling ozone }
{
    ozone.is_none() && ceiling == 0
}

// Not rising within 0 to 10000.
fn pair_out(max: u16, min: u16) -> bool
    ensures { result ≡ pair_out max min }
{
    min <= max || 10000 < min
}

// Tmin, Topt, Tmax not rising within -20 to 60 °C, or p or q above 22.
fn temperatures_out(p: Parameters) -> bool
    ensures { result ≡ temperatures_out p }
{
    trees::degrees(p.t_min) < 30 || 110 < trees::degrees(p.t_max) || trees::powers(p).is_none()
}

/// Whether row 24 is given ("A laboratory's own tree"): a parameter out of its range, temperatures,
/// VPD or suction that do not rise, or p or q above 22.
#[tactic(auto, unfolding(crate::specs::Parameters::parameter_out))]
pub fn parameters_out(p: Parameters) -> bool
    ensures { result ≡ parameter_out p }
{
    outside(1, 500, p.g_max)
        | outside(1, 99, p.f_min)
        | outside(1, 200, p.light_a)
        | temperatures_out(p)
        | pair_out(p.vpd_max, p.vpd_min)
        | pair_out(p.soil_max, p.soil_min)
        | outside(1, 200, p.leaf)
        | (100 < p.a)
        | (100 < p.e)
        | (200 < p.f1)
        | (200 < p.f4)
        | (10 < p.y)
}

/// Row 24: a parameter is out of its range, or does not rise.
#[tactic(auto, unfolding(crate::specs::Ranges::checked))]
pub fn check_parameters(p: Parameters) -> Result<(), Refusal>
    ensures { outcome_of result ≡ checked (Record.Parameters p) }
{
    refused_where(parameters_out(p), Refusal::Parameter)
}

/// Whether row 7 is given for a laboratory's tree: the header's period is not in the year, or
/// shorter than the ramps of its parameters.
pub fn ramps_out(h: Header, p: Parameters) -> bool
    ensures { result ≡ ramps_out h p }
{
    period_out(h, (p.f1 as u32) + (p.f4 as u32))
}

/// Whether row 25 is given ("Leaf age by warmth"): rise plus fall is above end, or end is not 1 to
/// 5000.
pub(crate) fn warmth_out(w: Warmth) -> bool
    ensures { result ≡ warmth_out w }
{
    (w.end as u32) < (w.rise as u32) + (w.fall as u32) || outside(1, 5000, w.end)
}

/// Row 25: rise plus fall is above end, or end is not 1 to 5000.
#[tactic(auto, unfolding(crate::specs::Ranges::checked))]
pub(crate) fn check_warmth(w: Warmth) -> Result<(), Refusal>
    ensures { outcome_of result ≡ checked (Record.Warmth w) }
{
    refused_where(warmth_out(w), Refusal::Warmth)
}

/// Whether row 25 refuses a season's warmth, which is all 0 where none was fed.
pub fn warmth_broken(w: Warmth) -> bool
    ensures { result ≡ warmth_broken w }
{
    trees::has_warmth(w) && warmth_out(w)
}
