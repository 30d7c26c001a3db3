//! The vapour pressure deficit out of humidity and temperature ("Humidity in place of VPD"), by a
//! table of saturation pressures.
ghost use Rattle.std.specs.Prelude.{◌≡◌, ◌<◌, length};
ghost use Rattle.dose_spec.specs.HumidityFacts.{HumidityFacts};
ghost use Rattle.dose_spec.specs.HumidityPair.{deficits_by, deficit_pair, entry_of};
ghost use Rattle.dose.specs.steps.Humidity.{EntryRead};

use crate::values::SATURATION;
use trees::{Deficits, Reading};

// 100.0 percent, the highest humidity.
const WETTEST: u16 = 1000;

// The table's units in 1 kPa.
const UNITS: u32 = 200000000;

fn entry_in(table: &[u32], x: u16) -> u32
    requires { x < length table.now }
    ensures { EntryRead table.now x result }
{
    table[x as usize]
}

/// The saturation pressure at a temperature, in units of 5·10⁻⁹ kPa, rounded down: the table's
/// entry ("Humidity in place of VPD").
pub fn saturation(x: Reading) -> u32
    ensures { result ≡ entry_of x.tenths }
{
    entry_in(&SATURATION, x.tenths)
}

/// The deficit at a humidity in tenths of a percent, between two numbers of Pa over one
/// denominator, by the table's entry s at the temperature; 0 for a humidity above 100.0 percent.
pub fn deficit_by(h: u16, s: u32) -> Deficits
    ensures { result ≡ deficits_by h s }
{
    let dry = u64::from(WETTEST.saturating_sub(h));
    let s = u64::from(s);
    Deficits {
        lower: dry * s,
        upper: dry * (s + 1),
        den: UNITS,
    }
}

/// The deficit at a humidity in tenths of a percent and a temperature, between two numbers of Pa
/// over one denominator ("Humidity in place of VPD"); 0 for a humidity above 100.0 percent.
#[tactic(auto, using(dose_spec::proofs::FactsLaws::facts))]
pub fn deficit(h: u16, x: Reading) -> Deficits
    ensures pair { result ≡ deficit_pair h x.tenths }
    ensures facts { HumidityFacts }
{
    deficit_by(h, saturation(x))
}
