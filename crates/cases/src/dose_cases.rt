//! Rows of a call: tree (two hexadecimal digits), first and last day and the ceiling (four each),
//! the soil's measure (S suction, W water), the hour's line, with single spaces; for tree 7 that
//! line filled up to 40 characters, a space and the line of its parameters, and for leaf age by
//! warmth a space, the line of its sums, a space and the temperature sum (eight digits). The answer
//! for each row on a line of its own.
use crate::digits::{i16_at, u8_at, u16_at, u32_at};
use crate::input;
use crate::parameters::parameters_of;
use crate::refused::Row;
use dose::Age;
use frames::widths::{HUMIDITY_KIND, PRESSURE_KIND};
use frames::{Air, Hour, Soil, Warmth};
use std::io;

// By a row's letter.
fn soil_of(measure: u8, n: u16) -> Soil {
    if measure == b'W' {
        Soil::Water(n)
    } else {
        Soil::Suction(n)
    }
}

// What the hour says of the air, by its kind.
fn air_of(row: &[u8]) -> Air {
    let vapour = u16_at(row, 44);
    match u8_at(row, 20) {
        PRESSURE_KIND => Air::Pressure {
            deficit: vapour,
            pressure: u16_at(row, 56),
        },
        HUMIDITY_KIND => Air::Humidity(vapour),
        _ => Air::Deficit(vapour),
    }
}

// The hour of a row, unchecked.
fn hour_of(row: &[u8], measure: u8) -> Hour {
    let ozone = frames::ozone_of(u16_at(row, 28));
    let air = air_of(row);
    let soil = soil_of(measure, u16_at(row, 52));
    Hour {
        day: u16_at(row, 22),
        hour: u8_at(row, 26),
        ozone,
        ppfd: u16_at(row, 32),
        radiation: u16_at(row, 36),
        temperature: i16_at(row, 40),
        air,
        wind: u16_at(row, 48),
        soil,
    }
}

// All 0 where the row has none; the line of the sums starts with its kind.
fn age_of(row: &[u8]) -> Age {
    let warmth = Warmth {
        rise: u16_at(row, 130),
        fall: u16_at(row, 134),
        end: u16_at(row, 138),
    };
    Age {
        warmth,
        sum: u32_at(row, 143),
    }
}

fn print_row(rt: &impl Print, row: &[u8]) -> io::Result<()> {
    if row.len() < 56 {
        return Ok(());
    }
    // All 0 where the row has none; their line starts with its kind.
    let parameters = parameters_of(row.get(63..).unwrap_or_default());
    let dosed = dose::hour_dose(
        u8_at(row, 0),
        parameters,
        age_of(row),
        u16_at(row, 3),
        u16_at(row, 8),
        u16_at(row, 13),
        hour_of(row, row[18]),
    );
    match dosed {
        Ok(pair) => println!(rt; "{} {}", pair.lower, pair.upper),
        Err(refusal) => println!(rt; "{}", Row(refusal)),
    }
}

/// Prints what `dose::hour_dose` answers to each call: a pair, or the row that refuses it.
pub(crate) fn print_answers(rt: &impl Print, rows: &[u8]) -> io::Result<()> {
    input::for_each_line(rows, |row| print_row(rt, row))
}
