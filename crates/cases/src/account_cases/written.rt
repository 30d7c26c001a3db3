//! An account written as 84 capital hexadecimal digits, 64 more where it has parameters, and 24
//! more where it has warmth or temperature sums: phase 1 (0 fresh, 1 open, 2 closed) | tree 2 |
//! days 4 | first 4 | last 4 | level 4 | ceiling 4 | kind of its hours 1 (0 none) | hours 4 |
//! counted 4 | missing 4 | lower 16 | upper 16 | least 8 | most 8 | the sixteen parameters 4 each,
//! in the order of their frame | rise 4 | fall 4 | end 4 | sum 8 | total 4, in two's complement
use crate::digits::{i16_at, u8_at, u16_at, u32_at, u64_at};
use crate::parameters::parameters_of;
use account::{Account, Carried, HourKind, Phase, Season, Sums};
use frames::{Header, Warmth};

// A character that is no digit of a phase says closed.
fn phase_of(c: u8) -> Phase {
    Phase::try_from(c.wrapping_sub(b'0')).unwrap_or(Phase::Closed)
}

// A character that is no digit of a kind says none.
fn kind_of(c: u8) -> Option<HourKind> {
    HourKind::try_from(c.wrapping_sub(b'0')).ok()
}

fn warmth_of(digits: &[u8]) -> Warmth {
    Warmth {
        rise: u16_at(digits, 148),
        fall: u16_at(digits, 152),
        end: u16_at(digits, 156),
    }
}

fn carried_of(digits: &[u8]) -> Carried {
    Carried {
        sum: u32_at(digits, 160),
        total: i16_at(digits, 168),
    }
}

fn header_of(digits: &[u8]) -> Header {
    Header {
        tree: u8_at(digits, 1),
        days: u16_at(digits, 3),
        first: u16_at(digits, 7),
        last: u16_at(digits, 11),
        level: u16_at(digits, 15),
    }
}

// Parameters and warmth all 0 where their digits are left out.
fn season_of(digits: &[u8]) -> Season {
    Season {
        header: header_of(digits),
        ceiling: u16_at(digits, 19),
        parameters: parameters_of(digits.get(84..).unwrap_or_default()),
        warmth: warmth_of(digits),
    }
}

fn sums_of(digits: &[u8]) -> Sums {
    Sums {
        lower: u64_at(digits, 36),
        upper: u64_at(digits, 52),
        least: u32_at(digits, 68),
        most: u32_at(digits, 76),
        hours: u16_at(digits, 24),
        counted: u16_at(digits, 28),
        missing: u16_at(digits, 32),
    }
}

/// The fresh account for fewer digits.
pub(crate) fn account_of(digits: &[u8]) -> Account {
    if digits.len() < 84 {
        return account::fresh();
    }
    Account {
        phase: phase_of(digits[0]),
        season: season_of(digits),
        kind: kind_of(digits[23]),
        sums: sums_of(digits),
        carried: carried_of(digits),
    }
}
