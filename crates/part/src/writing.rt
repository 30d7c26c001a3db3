//! Lines to feed ("Frames"), each written to the front of a lent buffer without a line feed: the
//! frame's own rows, then row 12 (the buffer is shorter than the line); the bytes behind the line,
//! and on a refusal all bytes, stay as they were. The numbers of kinds 01, 03, 06 and 08, and kind
//! 04's pressure, come apart, as C hands them.
ghost use Rattle.frames.specs.declared.records.Air.{Air};
ghost use Rattle.frames.specs.declared.records.Record.{Record};
ghost use Rattle.frames.specs.Writer.{text_of};
ghost use Rattle.frames.specs.RoundTrip.{RoundTrip};
ghost use Rattle.dates.specs.Promise.{PlacePromise};
ghost use Rattle.part.specs.Calls.{PrintsBytes};
ghost use Rattle.part.specs.Frames.{hour_from, parameters_from, placed_text};

use crate::given::hour_from;
use crate::{HourReadings, TreeParameters};
use frames::{Air, Ceiling, End, Header, Parameters, Record, Warmth};
use stored::answers;
use stored::answers::Printed;

// A record's line.
fn write(record: Record, buffer: &mut [u8]) -> Printed
    ensures prints_bytes { PrintsBytes (text_of «record») buffer.old result buffer.new }
    ensures round_trip { RoundTrip }
{
    answers::printed_of(frames::write_frame(record, buffer))
}

// An hour's line, its kind by the air.
fn write_hour(hour: HourReadings, air: Air, buffer: &mut [u8]) -> Printed
    ensures prints_bytes { PrintsBytes (text_of (Record.Hour (hour_from hour air)))
        buffer.old result buffer.new }
    ensures round_trip { RoundTrip }
{
    write(Record::Hour(hour_from(hour, air)), buffer)
}

/// Writes a header, kind 01: the tree's number, the days in the year, day A, day E, the level in
/// hundredths of mmol m⁻². Row 5 (no tree), 6 (the year), 7 (the period), 8 (the level), then 12.
#[unsafe(no_mangle)]
pub extern "C" fn pod1_write_header(
    tree: u8,
    days: u16,
    first: u16,
    last: u16,
    level: u16,
    buffer: &mut [u8],
) -> Printed
    ensures prints_bytes { PrintsBytes
        (text_of
        (Record.Header
        (record { tree = tree; days = days; first = first; last = last; level = level })))
        buffer.old result buffer.new }
    ensures round_trip { RoundTrip }
{
    let header = Header {
        tree,
        days,
        first,
        last,
        level,
    };
    write(Record::Header(header), buffer)
}

/// Writes the header of a place, kind 01 ("Dates from a place"): latitude in tenths of a degree,
/// height in metres. Row 5 (no tree), 6 (the year), 14 (latitude or height out of range, or a tree
/// without the model), 7 (the period), 8 (the level), then 12.
#[unsafe(no_mangle)]
pub extern "C" fn pod1_write_place(
    tree: u8,
    days: u16,
    level: u16,
    latitude: u16,
    height: u16,
    buffer: &mut [u8],
) -> Printed
    ensures prints_bytes { PrintsBytes (placed_text tree days level latitude height)
        buffer.old result buffer.new }
    ensures promise { PlacePromise }
{
    // One match: a helper would take these six parameters and their clause once more, and of what
    // the closure of an `and_then` writes into the buffer nothing would reach the clause.
    match dates::header_at(tree, days, level, latitude, height) {
        Ok(header) => write(Record::Header(header), buffer),
        Err(refusal) => answers::printed_of(Err(refusal)),
    }
}

/// Writes an hour with the vapour pressure deficit, kind 02. Row 10 (a reading out of range, with
/// its field), then 12.
#[unsafe(no_mangle)]
pub extern "C" fn pod1_write_hour(hour: HourReadings, buffer: &mut [u8]) -> Printed
    ensures prints_bytes { PrintsBytes
        (text_of (Record.Hour (hour_from hour (Air.Deficit hour.vapour))))
        buffer.old result buffer.new }
    ensures round_trip { RoundTrip }
{
    write_hour(hour, Air::Deficit(hour.vapour), buffer)
}

/// Writes an hour with the deficit and the pressure in tenths of hPa, kind 04 ("Station pressure").
/// Row 10 (a reading out of range, with its field), then 12.
#[unsafe(no_mangle)]
pub extern "C" fn pod1_write_hour_pressure(
    hour: HourReadings,
    pressure: u16,
    buffer: &mut [u8],
) -> Printed
    ensures prints_bytes { PrintsBytes
        (text_of (Record.Hour (hour_from hour (Air.Pressure hour.vapour pressure))))
        buffer.old result buffer.new }
    ensures round_trip { RoundTrip }
{
    let air = Air::Pressure {
        deficit: hour.vapour,
        pressure,
    };
    write_hour(hour, air, buffer)
}

/// Writes an hour with the relative humidity, kind 05 ("Humidity in place of VPD"). Row 10 (a
/// reading out of range, with its field), then 12.
#[unsafe(no_mangle)]
pub extern "C" fn pod1_write_hour_humidity(hour: HourReadings, buffer: &mut [u8]) -> Printed
    ensures prints_bytes { PrintsBytes
        (text_of (Record.Hour (hour_from hour (Air.Humidity hour.vapour))))
        buffer.old result buffer.new }
    ensures round_trip { RoundTrip }
{
    write_hour(hour, Air::Humidity(hour.vapour), buffer)
}

/// Writes the season's end, kind 03: the number of hour frames. Row 12 alone.
#[unsafe(no_mangle)]
pub extern "C" fn pod1_write_end(hours: u16, buffer: &mut [u8]) -> Printed
    ensures prints_bytes { PrintsBytes (text_of (Record.End (record { hours = hours })))
        buffer.old result buffer.new }
    ensures round_trip { RoundTrip }
{
    write(Record::End(End { hours }), buffer)
}

/// Writes an ozone ceiling, kind 06 ("Hours without ozone"): the most that a missing ozone can have
/// been, tenths of ppb. Row 17 (not 1 to 5000), then 12.
#[unsafe(no_mangle)]
pub extern "C" fn pod1_write_ceiling(ozone: u16, buffer: &mut [u8]) -> Printed
    ensures prints_bytes { PrintsBytes (text_of (Record.Ceiling (record { ozone = ozone })))
        buffer.old result buffer.new }
    ensures round_trip { RoundTrip }
{
    write(Record::Ceiling(Ceiling { ozone }), buffer)
}

/// Writes a laboratory's parameters, kind 07 ("A laboratory's own tree"). Row 24 (one is out of its
/// range, or does not rise), then 12.
#[unsafe(no_mangle)]
pub extern "C" fn pod1_write_parameters(parameters: TreeParameters, buffer: &mut [u8]) -> Printed
    ensures prints_bytes { PrintsBytes (text_of (Record.Parameters (parameters_from parameters)))
        buffer.old result buffer.new }
    ensures round_trip { RoundTrip }
{
    write(Record::Parameters(Parameters::from(parameters)), buffer)
}

/// Writes leaf age by warmth, kind 08 ("Leaf age by warmth"): three sums in °C days. Row 25 (rise
/// plus fall is above end, or end is not 1 to 5000), then 12.
#[unsafe(no_mangle)]
pub extern "C" fn pod1_write_warmth(rise: u16, fall: u16, end: u16, buffer: &mut [u8]) -> Printed
    ensures prints_bytes { PrintsBytes
        (text_of (Record.Warmth (record { rise = rise; fall = fall; end = end })))
        buffer.old result buffer.new }
    ensures round_trip { RoundTrip }
{
    let warmth = Warmth { rise, fall, end };
    write(Record::Warmth(warmth), buffer)
}
