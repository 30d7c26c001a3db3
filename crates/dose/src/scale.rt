//! An hour's numbers on the scales that the factors take.
ghost use Rattle.std.specs.Prelude.{◌≡◌};
ghost use Rattle.dose_spec.specs.Conductance.{above_of};

use frames::Passed;
use trees::Reading;

// A temperature in tenths of a degree above -50.0 °C; 0 where it is lower.
pub(crate) fn above(t: i16) -> u16
    ensures { result ≡ above_of t }
{
    (i32::from(t) + 500).max(0) as u16
}

// The temperature of an hour that row 10 lets pass.
pub(crate) fn reading(passed: Passed) -> Reading
    ensures { result.tenths ≡ above_of passed.hour.temperature }
{
    Reading {
        tenths: above(passed.hour.temperature),
    }
}
