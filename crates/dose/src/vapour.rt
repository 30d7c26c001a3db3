//! The vapour pressure deficit of an hour ("Factors", "Humidity in place of VPD"), between two
//! deficits.
ghost use Rattle.std.specs.Prelude.{◌≡◌, ℕ, false};
ghost use Rattle.frames.specs.Ranges.{vapour_out};
ghost use Rattle.dose_spec.specs.Deficit.{read_deficits, air_deficits};
ghost use Rattle.dose_spec.specs.HumidityPair.{entry_of};

use crate::humidity;
use frames::Air;
use trees::Deficits;

// A reading in Pa is both.
fn read(vpd: u16) -> Deficits
    ensures { result ≡ read_deficits vpd }
{
    Deficits {
        lower: vpd as u64,
        upper: vpd as u64,
        den: 1,
    }
}

// By what the hour says of the air; s is the saturation pressure at its temperature.
pub(crate) fn deficits(air: Air, s: u32) -> Deficits
    requires range { vapour_out air ≡ false }
    ensures { (t : ℕ) → s ≡ entry_of t → result ≡ air_deficits air t }
{
    match air {
        Air::Deficit(n) => read(n),
        Air::Pressure { deficit: n, .. } => read(n),
        Air::Humidity(n) => humidity::deficit_by(n, s),
    }
}
