//! Answers and records as words; and an answer as one character.
use crate::parameters::Listed;
use crate::refused::Row;
use frames::{Air, Hour, Record, Refusal, Soil};
use std::{fmt, io};

#[derive(Clone, Copy)]
struct Ozone(Option<u16>);

impl fmt::Display for Ozone {
    fn fmt<W: fmt::Write>(&self, f: &mut fmt::Formatter<W>) -> fmt::Result {
        match self.0 {
            Some(n) => write!(f, "{n}"),
            None => f.write_str("missing"),
        }
    }
}

#[derive(Clone, Copy)]
struct Measured(Soil);

impl fmt::Display for Measured {
    fn fmt<W: fmt::Write>(&self, f: &mut fmt::Formatter<W>) -> fmt::Result {
        match self.0 {
            Soil::Suction(n) => write!(f, "suction {n}"),
            Soil::Water(n) => write!(f, "water {n}"),
        }
    }
}

// The kind, the fields of kind 02, which an hour of every kind has, and the one that kind 04 adds.
fn write_hour<W: fmt::Write>(f: &mut fmt::Formatter<W>, h: Hour) -> fmt::Result {
    write!(f, "{} {} {} ", frames::air_kind(h.air), h.day, h.hour)?;
    write!(f, "{} {} {} ", Ozone(h.ozone), h.ppfd, h.radiation)?;
    write!(f, "{} {} ", h.temperature, frames::vapour_number(h.air))?;
    write!(f, "{} {}", h.wind, Measured(h.soil))?;
    match h.air {
        Air::Pressure { pressure, .. } => write!(f, " {pressure}"),
        _ => Ok(()),
    }
}

/// A record's kind and its fields.
#[derive(Clone, Copy)]
pub(crate) struct Fields(pub(crate) Record);

impl fmt::Display for Fields {
    fn fmt<W: fmt::Write>(&self, f: &mut fmt::Formatter<W>) -> fmt::Result {
        match self.0 {
            Record::Header(h) => write!(
                f,
                "1 {} {} {} {} {}",
                h.tree, h.days, h.first, h.last, h.level
            ),
            Record::Hour(h) => write_hour(f, h),
            Record::End(e) => write!(f, "3 {}", e.hours),
            Record::Ceiling(c) => write!(f, "6 {}", c.ozone),
            Record::Parameters(p) => write!(f, "7 {}", Listed(p)),
            Record::Warmth(w) => write!(f, "8 {} {} {}", w.rise, w.fall, w.end),
        }
    }
}

/// What reading a line for a tree answers.
pub(crate) fn print_reading(rt: &impl Print, tree: u8, line: &[u8]) -> io::Result<()> {
    match frames::read_frame(tree, line) {
        Ok(record) => print!(rt; " {}", Fields(record)),
        Err(refusal) => print!(rt; " {}", Row(refusal)),
    }
}

/// `.` for a line that is read, else `1` to `8` for the row, `A` for row 17, `H` for row 24, `I`
/// for row 25, `a` to `h` for row 10 with field 1 to 8.
pub(crate) fn mark(decoded: Result<Record, Refusal>) -> u8 {
    match decoded {
        Ok(_) => b'.',
        Err(Refusal::Range(field)) => 96 + field % 32,
        Err(refusal) => 48 + frames::row_of(refusal) % 32,
    }
}
