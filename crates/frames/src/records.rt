//! Records ("Frames"): what a line says by its kind, and why a call is refused ("Turned-back
//! lines").
ghost use Rattle.std.specs.Prelude.{◌≡◌};
ghost use Rattle.frames.specs.Answers.{row_of, outcome_of};
ghost use Rattle.frames.specs.Ranges.{checked};

use crate::period::{all_given, period_hours};
use crate::ranges::{
    ceiling_out, check_ceiling, check_header, check_hour, check_parameters, check_warmth,
    lacks_ceiling, outside, parameters_out, ramps_out, soil_out, temperature_out, warmth_broken,
    warmth_out,
};
use trees::{Parameters, Warmth};

/// The season's header, kind 01.
// The tree is a byte: a header may bring any, and row 5 refuses what is no tree.
#[derive(Clone, Copy, Default, PartialEq)]
pub struct Header {
    /// The tree's number, 1 to 7.
    pub tree: u8,
    /// The days in the year, 365 or 366.
    pub days: u16,
    /// Day A, the first of the period.
    pub first: u16,
    /// Day E, the last of the period.
    pub last: u16,
    /// The critical level, hundredths of mmol m⁻².
    pub level: u16,
}

/// A soil reading, in its measure.
#[derive(Clone, Copy)]
pub enum Soil {
    /// Suction, kPa.
    Suction(u16),
    /// Available water, tenths of a percent.
    Water(u16),
}

/// What an hour says of the air besides its ozone and temperature, by the kind of its frame.
#[derive(Clone, Copy, PartialEq)]
pub enum Air {
    /// Kind 02: the vapour pressure deficit, Pa.
    Deficit(u16),
    /// Kind 04 ("Station pressure"): the deficit, Pa, and the pressure, tenths of hPa.
    Pressure { deficit: u16, pressure: u16 },
    /// Kind 05 ("Humidity in place of VPD"): the relative humidity, tenths of a percent.
    Humidity(u16),
}

/// An hour's readings, kinds 02, 04 and 05.
#[derive(Clone, Copy)]
pub struct Hour {
    /// The day of the year, from 1.
    pub day: u16,
    /// The hour of the day, 0 to 23.
    pub hour: u8,
    /// Ozone, tenths of ppb; none where it is missing ("Hours without ozone").
    pub ozone: Option<u16>,
    /// PPFD, µmol m⁻² s⁻¹.
    pub ppfd: u16,
    /// Global radiation, W m⁻².
    pub radiation: u16,
    /// Air temperature, tenths of °C.
    pub temperature: i16,
    /// The deficit, pressure or humidity.
    pub air: Air,
    /// Wind speed, cm/s.
    pub wind: u16,
    /// The soil's suction or water.
    pub soil: Soil,
}

/// The season's end, kind 03.
#[derive(Clone, Copy, PartialEq)]
pub struct End {
    /// The number of hour frames.
    pub hours: u16,
}

/// The ozone ceiling, kind 06 ("Hours without ozone").
#[derive(Clone, Copy, PartialEq)]
pub struct Ceiling {
    /// The most that a missing ozone can have been, tenths of ppb.
    pub ozone: u16,
}

/// What a line says, by its kind.
#[derive(Clone, Copy)]
pub enum Record {
    /// Kind 01.
    Header(Header),
    /// Kinds 02, 04 and 05, by the hour's air.
    Hour(Hour),
    /// Kind 03.
    End(End),
    /// Kind 06.
    Ceiling(Ceiling),
    /// Kind 07.
    Parameters(Parameters),
    /// Kind 08.
    Warmth(Warmth),
}

/// The numbers of an hour frame as they stand in its line.
#[derive(Clone, Copy, PartialEq)]
pub struct RawHour {
    /// The day of the year.
    pub day: u16,
    /// The hour of the day.
    pub hour: u8,
    /// Ozone, tenths of ppb; `FFFF` is missing.
    pub ozone: u16,
    /// PPFD, µmol m⁻² s⁻¹.
    pub ppfd: u16,
    /// Global radiation, W m⁻².
    pub radiation: u16,
    /// Air temperature, tenths of °C in two's complement.
    pub temperature: u16,
    /// The deficit, pressure or humidity.
    pub air: Air,
    /// Wind speed, cm/s.
    pub wind: u16,
    /// The soil's number, in the measure of a tree not yet named.
    pub soil: u16,
}

/// A frame that rows 1 to 3 let pass.
// It differs from `Record` in its hour alone; a `Frame<H>` for both would leave every match as it
// is.
#[derive(Clone, Copy, PartialEq)]
pub enum Raw {
    /// Kind 01.
    Header(Header),
    /// Kinds 02, 04 and 05, by the hour's air.
    Hour(RawHour),
    /// Kind 03.
    End(End),
    /// Kind 06.
    Ceiling(Ceiling),
    /// Kind 07.
    Parameters(Parameters),
    /// Kind 08.
    Warmth(Warmth),
}

/// Why a call is refused: a case for each row of "Turned-back lines", in their order. `row_of`
/// gives each case's number.
// A field is the number that is told and printed: an enum of fields would be one more match to it.
#[derive(Clone, Copy)]
pub enum Refusal {
    /// Row 1: no kind has lines of so many characters.
    Length,
    /// Row 2: a character is not 0-9 or A-F.
    Digit,
    /// Row 3: the kind is not one of the line's length.
    Kind,
    /// Row 4: a frame out of turn.
    Turn,
    /// Row 5: the tree is not 1 to 7.
    Tree,
    /// Row 6: the year has not 365 or 366 days.
    Year,
    /// Row 7: the period is not in the year, or too short for the tree.
    Period,
    /// Row 8: the level is not 1 to 10000.
    Level,
    /// Row 9: not the hour that is due, or all hours are given.
    Due,
    /// Row 10: a reading is out of range, with its field, 1 to 8.
    Range(u8),
    /// Row 11: the count is not the hours accepted, or hours are due; a text without an end frame.
    Count,
    /// Row 12: the lent buffer is shorter than what is to be written.
    Buffer,
    /// Row 13: no season gives this account.
    Account,
    /// Row 14: latitude or height out of range, or a tree without the model.
    Place,
    /// Row 15: an hour of another kind than the season's first hour.
    Mixed,
    /// Row 16: the account differs from the one that was tried.
    Tried,
    /// Row 17: the ceiling is not 1 to 5000.
    Ceiling,
    /// Row 18: ozone is missing, and no ceiling was fed.
    NoCeiling,
    /// Row 19: two accepted texts are unlike.
    Unlike,
    /// Row 20: the number of days is not 1 to 366.
    Days,
    /// Row 21: the lent buffer is under 3 bytes a day.
    Scratch,
    /// Row 22: the list has no account, or more than six.
    ListSize,
    /// Row 23: two accounts of the list are unlike.
    UnlikeAccounts,
    /// Row 24: a parameter of tree 7 is out of its range, or does not rise.
    Parameter,
    /// Row 25: rise plus fall is above end, or end is not 1 to 5000.
    Warmth,
    /// Row 26: a float is not finite or not whole, with its field, 1 to 7.
    Float(u8),
}

/// A refusal's row, 1 to 26 ("Turned-back lines").
// A match: two cases have a field, so the enum has no numbers of its own.
pub fn row_of(refusal: Refusal) -> u8
    ensures { result ≡ (row_of «refusal»).0 }
{
    match refusal {
        Refusal::Length => 1,
        Refusal::Digit => 2,
        Refusal::Kind => 3,
        Refusal::Turn => 4,
        Refusal::Tree => 5,
        Refusal::Year => 6,
        Refusal::Period => 7,
        Refusal::Level => 8,
        Refusal::Due => 9,
        Refusal::Range(_) => 10,
        Refusal::Count => 11,
        Refusal::Buffer => 12,
        Refusal::Account => 13,
        Refusal::Place => 14,
        Refusal::Mixed => 15,
        Refusal::Tried => 16,
        Refusal::Ceiling => 17,
        Refusal::NoCeiling => 18,
        Refusal::Unlike => 19,
        Refusal::Days => 20,
        Refusal::Scratch => 21,
        Refusal::ListSize => 22,
        Refusal::UnlikeAccounts => 23,
        Refusal::Parameter => 24,
        Refusal::Warmth => 25,
        Refusal::Float(_) => 26,
    }
}

/// Whether a record meets the rows that it can meet by itself ("Turned-back lines"): a header 5 (no
/// tree), 6 (the year), 7 (the period) and 8 (the level), an hour 10 (a reading out of range, with
/// its field), a ceiling 17, parameters 24, warmth 25, each as out of range.
#[tactic(auto, unfolding(crate::specs::Ranges::checked))]
pub fn check(record: Record) -> Result<(), Refusal>
    ensures { outcome_of result ≡ checked «record» }
{
    match record {
        Record::Header(h) => check_header(h),
        Record::Hour(h) => check_hour(h, soil_out(h.soil)),
        Record::End(_) => Ok(()),
        Record::Ceiling(c) => check_ceiling(c),
        Record::Parameters(p) => check_parameters(p),
        Record::Warmth(w) => check_warmth(w),
    }
}
