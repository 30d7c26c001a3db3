//! Ozone's concentration ("Factors", "Station pressure", "Hours without ozone"), in units of
//! 1/18000 nmol m⁻³, rounded down and up.
ghost use Rattle.std.specs.Prelude.{◌≡◌, ◌*◌, ◌<◌};
ghost use Rattle.exact.specs.Frac.{◌over◌};
ghost use Rattle.exact.specs.Rounding.{round_up, round_down};
ghost use Rattle.frames.specs.Ozone.{with_ozone, read_as};
ghost use Rattle.dose_spec.specs.Pair.{concentration_low, concentration_up};

use crate::scale;
use exact::Bounds;
use frames::{Air, Hour};

// A tenth of ppb where no pressure is read: 18000·4.156.
const TENTH: u64 = 74808;

// For tenths of ppb, tenths of hPa and twentieths of a kelvin: 18000·20/8.31447 is
// 4000000000/92383.
const PRESSURE: u64 = 4000000000;

const GAS: u64 = 92383;

// -50.0 °C, which is 223.15 K, in twentieths of a kelvin.
const COLDEST: u64 = 4463;

// n/d, rounded down and up.
fn rounded(n: u64, d: u64) -> Bounds
    requires { 0 < d }
    ensures lower { result.lower ≡ round_down (n over d) }
    ensures upper { result.upper ≡ round_up (n over d) }
{
    Bounds {
        lower: n / d,
        upper: n.div_ceil(d),
    }
}

// That of tenths of ppb where no pressure is read.
fn plain(ozone: u16) -> Bounds
    ensures lower { result.lower ≡ 74808 * ozone }
    ensures upper { result.upper ≡ 74808 * ozone }
{
    let c = TENTH * (ozone as u64);
    Bounds { lower: c, upper: c }
}

// That of an hour with tenths of ppb.
fn at(ozone: u16, h: Hour) -> Bounds
    ensures lower { result.lower ≡ concentration_low (with_ozone ozone h) }
    ensures upper { result.upper ≡ concentration_up (with_ozone ozone h) }
{
    match h.air {
        Air::Deficit(_) | Air::Humidity(_) => plain(ozone),
        Air::Pressure { pressure: p, .. } => rounded(
            PRESSURE * (ozone as u64) * (p as u64),
            GAS * (2 * (scale::above(h.temperature) as u64) + COLDEST),
        ),
    }
}

// That of an hour, a missing ozone read as 0 below and as the ceiling above.
pub(crate) fn concentration(h: Hour, ceiling: u16) -> Bounds
    ensures lower { result.lower ≡ concentration_low (read_as 0 h) }
    ensures upper { result.upper ≡ concentration_up (read_as ceiling h) }
{
    let c = at(h.ozone.unwrap_or(ceiling), h);
    match h.ozone {
        Some(_) => c,
        None => Bounds { lower: 0, ..c },
    }
}
