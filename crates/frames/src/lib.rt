//! Frames ("Frames"): a line of capital hexadecimal digits, and the record that it says. A line
//! goes to a frame (rows 1 to 3), a frame to a record (rows 5 to 8, 10, 17, 24 and 25), and a
//! record to its line again (the same rows, then 12).
#![tactic(auto)]

mod digits;
pub mod hour_lines;
mod kinds;
mod layout;
mod passed;
mod period;
mod ranges;
mod records;
mod temperature;
pub mod widths;
mod writer;
mod writing;
mod writing_digits;

ghost use Rattle.std.specs.Prelude.{◌≡◌};
ghost use Rattle.frames.specs.Answers.{outcome_of};
ghost use Rattle.frames.specs.Frames.{parsed_of, sound_of, record_of, read_frame_of};
ghost use Rattle.frames.specs.Ranges.{checked};
ghost use Rattle.frames.specs.Rows.{ReaderRows};
ghost use Rattle.frames.specs.Checked.{checked_as};

pub use digits::{digit_value, is_digit};
pub use layout::{air_kind, hour_of, ozone_of, soil_number, vapour_number};
pub use passed::{Checked, Passed};
pub use period::{all_given, period_hours};
pub use ranges::{
    ceiling_out, check_header, check_hour, check_parameters, lacks_ceiling, outside,
    parameters_out, ramps_out, soil_out, temperature_out, warmth_broken,
};
pub use records::{
    Air, Ceiling, End, Header, Hour, Raw, RawHour, Record, Refusal, Soil, check, row_of,
};
pub use temperature::{complement, signed};
pub use trees::{Parameters, Warmth};
pub use writer::write_frame;

/// The frame that a line says ("Frames"). Its characters are given without a line feed. Refused, in
/// this order, by row 1 (a length that no kind has), 2 (a character is no digit) or 3 (the kind is
/// not one of the line's length).
#[tactic(auto, unfolding(crate::specs::Frames::parsed_of))]
pub fn parse(line: &[u8]) -> Result<Raw, Refusal>
    ensures { outcome_of result ≡ parsed_of line.now }
{
    if !kinds::is_length(line.len()) {
        return Err(Refusal::Length);
    }
    let read = digits::line_of(line);
    if !read.digits {
        return Err(Refusal::Digit);
    }
    if kinds::length_of(read.byte_at(widths::KIND)) != line.len() {
        return Err(Refusal::Kind);
    }
    Ok(layout::frame_at(&read))
}

// A record, by what its own rows answer: the one place where one has passed them.
#[tactic(auto, unfolding(crate::specs::Frames::sound_of))]
fn sound(record: Record, own: Result<(), Refusal>) -> Result<Checked, Refusal>
    requires { outcome_of own ≡ checked «record» }
    ensures { checked_as result ≡ sound_of «record» }
{
    own?;
    Ok(Checked { record })
}

// An hour frame to a record, its soil in the measure of the given tree: row 5 where that is no
// tree, then row 10.
#[tactic(auto, unfolding(crate::specs::Frames::record_of, crate::specs::Ranges::checked))]
fn hour_record(tree: u8, raw: RawHour) -> Result<Checked, Refusal>
    ensures { checked_as result ≡ record_of tree (Raw.Hour raw) }
{
    let f = trees::figures_before(tree).ok_or(Refusal::Tree)?;
    let h = layout::hour_of(raw, f.measure);
    sound(
        Record::Hour(h),
        ranges::check_hour(h, ranges::soil_out(h.soil)),
    )
}

/// The record that a frame says; the given tree's number matters for an hour only, whose soil is in
/// that tree's measure ("Frames"). Refused by the rows of its kind: a header by 5 (no tree), 6 (the
/// year), 7 (the period), 8 (the level), an hour by 5 (no tree is given) and 10 (a reading out of
/// range, with its field), a ceiling by 17, parameters by 24, warmth by 25.
// By kind, where the frame is taken apart already: `check` of a record would take it apart again.
#[tactic(auto, unfolding(crate::specs::Frames::record_of, crate::specs::Ranges::checked))]
pub fn record_of(tree: u8, frame: Raw) -> Result<Checked, Refusal>
    ensures { checked_as result ≡ record_of tree frame }
{
    match frame {
        Raw::Header(h) => sound(Record::Header(h), ranges::check_header(h)),
        Raw::Hour(h) => hour_record(tree, h),
        Raw::End(e) => sound(Record::End(e), Ok(())),
        Raw::Ceiling(c) => sound(Record::Ceiling(c), ranges::check_ceiling(c)),
        Raw::Parameters(p) => sound(Record::Parameters(p), ranges::check_parameters(p)),
        Raw::Warmth(w) => sound(Record::Warmth(w), ranges::check_warmth(w)),
    }
}

/// The record that a line read alone says, a tree's number given ("Frames"): refused by the rows of
/// `parse`, then by those of `record_of`.
#[tactic(auto, unfolding(crate::specs::Frames::read_frame_of))]
pub fn read_frame(tree: u8, line: &[u8]) -> Result<Record, Refusal>
    ensures result_value { outcome_of result ≡ read_frame_of tree line.now }
    ensures rows { ReaderRows }
{
    Ok(record_of(tree, parse(line)?)?.record)
}
