//! The factors of the vapour pressure deficit and of the soil's water ("Factors").
ghost use Rattle.std.specs.Prelude.{◌≡◌, ◌-◌, ◌*◌, ◌≤◌};
ghost use Rattle.exact.specs.Frac.{Is, straight};
ghost use Rattle.trees.specs.Deficit.{falling, IsDeficitPair};
ghost use Rattle.trees.specs.Facts.{FactorFacts};
ghost use Rattle.trees.specs.SoilWater.{drier, soil_water_of};

use crate::{Deficits, FactorPair, Figures, Measure};
use exact::Fraction;

// The straight line from one percentage to another, d of s steps along it; past its end, and where
// it has no step, its end.
#[tactic(auto, unfolding(exact::specs::Frac::straight))]
pub(crate) fn line(from: u16, to: u16, d: u64, s: u64) -> Fraction
    requires { s ≤ 65535 * 4294967295 }
    ensures { Is result (straight from to d s) }
{
    if d < s {
        Fraction {
            num: (s - d) * (from as u64) + d * (to as u64),
            den: 100 * s,
        }
    } else {
        Fraction {
            num: to as u64,
            den: 100,
        }
    }
}

pub(crate) fn straight(from: u16, to: u16, d: u16, s: u16) -> Fraction
    ensures { Is result (straight from to d s) }
{
    line(from, to, d as u64, s as u64)
}

// How much drier a soil reading is than another: more suction, less water; 0 where it is not.
fn drier(measure: Measure, than: u16, reading: u16) -> u16
    ensures { result ≡ drier measure than reading }
{
    match measure {
        Measure::Suction => reading.saturating_sub(than),
        Measure::Water => than.saturating_sub(reading),
    }
}

// The straight line from 1 to f_min, d of s steps along it; past its end f_min.
#[tactic(auto, unfolding(crate::specs::Deficit::falling))]
fn falling(f_min: u16, d: u64, s: u64) -> Fraction
    requires { s ≤ 65535 * 4294967295 }
    ensures { Is result (falling f_min d s) }
{
    line(100, f_min, d, s)
}

// f_VPD of the deficit n/den, in Pa, by its "max" and "min".
fn deficit_factor(f_min: u16, max: u16, min: u16, n: u64, den: u32) -> Fraction
    ensures { Is result (falling f_min (n - max * den) ((min - max) * den)) }
{
    let steps = den as u64;
    let d = n.saturating_sub((max as u64) * steps);
    falling(f_min, d, (min.saturating_sub(max) as u64) * steps)
}

/// f_VPD between two factors, from f_min to 1, of a deficit in Pa that lies between two: the lower
/// factor is that of the upper deficit, the upper one that of the lower deficit ("Factors").
pub fn f_vpd(f: Figures, vpd: Deficits) -> FactorPair
    ensures deficit_pair { IsDeficitPair f vpd result }
    ensures facts { FactorFacts }
{
    let den = vpd.den.max(1);
    let lower = deficit_factor(f.f_min, f.vpd_max, f.vpd_min, vpd.upper, den);
    let upper = deficit_factor(f.f_min, f.vpd_max, f.vpd_min, vpd.lower, den);
    FactorPair { lower, upper }
}

/// f_SW of a soil reading in the unit of the tree's measure: a fraction from f_min to 1
/// ("Factors").
#[tactic(auto, unfolding(crate::specs::SoilWater::soil_water_of), using(crate::proofs::FactsLaws::facts))]
pub fn f_sw(f: Figures, reading: u16) -> Fraction
    ensures is { Is result (soil_water_of f reading) }
    ensures facts { FactorFacts }
{
    let measure = f.measure;
    let d = drier(measure, f.soil_max, reading);
    let s = drier(measure, f.soil_max, f.soil_min);
    falling(f.f_min, d as u64, s as u64)
}
