//! "Loggers that hold floats": an hour of floats into an account, each turned to the whole number
//! that it is, where nothing is lost.
#![tactic(auto)]

mod fields;
mod whole;

ghost use Rattle.std.specs.Prelude.{◌≡◌};
ghost use Rattle.account_spec.specs.Rules.{Answers};
ghost use Rattle.floats.specs.Feeding.{hour_at, feed_floats_of};
ghost use Rattle.floats.specs.Promise.{FloatPromise};

use account::{Account, Fed};
use frames::{Air, Raw, RawHour, Refusal};

/// An hour's readings in kind 02's units and order ("Loggers that hold floats").
#[repr(C)]
#[derive(Clone, Copy)]
pub struct FloatReadings {
    /// Ozone, tenths of ppb; 65535 is missing.
    pub ozone: f32,
    /// PPFD, µmol m⁻² s⁻¹.
    pub ppfd: f32,
    /// Global radiation, W m⁻².
    pub radiation: f32,
    /// Air temperature, tenths of °C.
    pub temperature: f32,
    /// The vapour pressure deficit, Pa.
    pub vpd: f32,
    /// Wind speed, cm/s.
    pub wind: f32,
    /// The soil's number, in the measure of the header's tree.
    pub soil: f32,
}

// An hour of kind 02 by its day and hour alone. Each reading is written as 0: `Air` has no case
// without a number, which a derived Default would need.
fn hour_at(day: u16, hour: u8) -> RawHour
    ensures { result ≡ hour_at day hour }
{
    RawHour {
        day,
        hour,
        ozone: 0,
        ppfd: 0,
        radiation: 0,
        temperature: 0,
        air: Air::Deficit(0),
        wind: 0,
        soil: 0,
    }
}

/// The next account of one that takes an hour of floats, or the row that refuses it with the
/// account as it was ("Loggers that hold floats"). Seven whole numbers are fed as a frame of kind
/// 02. Refused, in this order, by row 13 (no season gives the account), 4 (out of turn), 15
/// (another kind than the first hour's), 9 (not the hour due), 26 (a float is not finite or not
/// whole, with its field), 18 (no ozone and no ceiling) or 10 (a reading out of range, with its
/// field).
// Day, hour and readings apart, as C hands them to `pod1_feed_floats`.
pub fn feed_floats(account: Account, day: u16, hour: u8, readings: FloatReadings) -> Fed
    ensures answers { Answers account (feed_floats_of account day hour readings) result }
    ensures promise { FloatPromise }
{
    match fields::frame_of(day, hour, readings) {
        Ok(frame) => account::feed_frame(account, Raw::Hour(frame)),
        // A match, and not `err().unwrap_or(broken)`: each case has a law of its own.
        Err(broken) => match account::timely(account, hour_at(day, hour)) {
            Ok(()) => Err((broken, account)),
            Err(refusal) => Err((refusal, account)),
        },
    }
}
