//! f_temp ("Factors"), out of each curve's table.
ghost use Rattle.std.specs.Prelude.{◌≡◌};
ghost use Rattle.trees.specs.Facts.{FactorFacts};
ghost use Rattle.trees.specs.Figures.{owner_of};
ghost use Rattle.trees.specs.Temperature.{temperature_pair};
ghost use Rattle.power.specs.Trimmed.{Trimmed};

use crate::lookups::pair_of;
use exact::Bounds;
use trees::{Beech, Birch, BorealSpruce, ContinentalSpruce, Curve, Evergreen, Oak, Reading};

/// f_temp of a curve at a reading, as a pair in units of 10⁻⁹ that it lies between ("Factors").
#[tactic(auto, using(trees::proofs::FactsLaws::facts, crate::proofs::TrimmedLaws::trimmed))]
pub fn tabled_f_temp(curve: Curve, x: Reading) -> Bounds
    ensures pair { result ≡ temperature_pair (owner_of curve) x.tenths }
    ensures facts { FactorFacts }
    ensures trimmed { Trimmed }
{
    match curve {
        Curve::BorealSpruce => pair_of::<BorealSpruce>(x),
        Curve::Birch => pair_of::<Birch>(x),
        Curve::ContinentalSpruce => pair_of::<ContinentalSpruce>(x),
        Curve::Beech => pair_of::<Beech>(x),
        Curve::Oak => pair_of::<Oak>(x),
        Curve::Evergreen => pair_of::<Evergreen>(x),
    }
}
