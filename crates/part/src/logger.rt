//! An hour as a logger holds it, in floats ("Loggers that hold floats").
ghost use Rattle.floats.specs.Promise.{FloatPromise};
ghost use Rattle.part.specs.Floats.{FloatsBytes, FloatBytesPromise};

use crate::leaving::{leave, next_by};
use floats::FloatReadings;

/// Feeds an hour of seven floats to the account in a buffer ("Loggers that hold floats"). Refused
/// by row 13 (the bytes hold no account, or one that no season gives), then by the rows of
/// `floats::feed_floats`. The buffer is unchanged where a row refuses.
#[unsafe(no_mangle)]
pub extern "C" fn pod1_feed_floats(
    account: &mut [u8],
    day: u16,
    hour: u8,
    readings: FloatReadings,
) -> u32
    ensures floats_bytes { FloatsBytes account.old day hour readings result account.new }
    ensures promise { FloatPromise }
    ensures bytes { FloatBytesPromise }
{
    let next = stored::take_up(account).and_then(|a| next_by(floats::feed_floats(
        a, day, hour, readings,
    )));
    leave(next, account)
}
