//! The factor f_phen ("Factors", "Leaf age by warmth"), by the tree's kind of phenology.
ghost use Rattle.exact.specs.Frac.{Is};
ghost use Rattle.trees.specs.Facts.{FactorFacts};
ghost use Rattle.trees.specs.Phenology.{by_ramps, by_dip, by_temperature, phenology_of, by_warmth};

use crate::{Figures, Phenology, Warmth, factors};
use exact::Fraction;

#[tactic(auto, unfolding(crate::specs::Phenology::by_ramps))]
fn by_ramps(f: Figures, first: u16, last: u16, day: u16) -> Fraction
    ensures { Is result (by_ramps f first last day) }
{
    let left = last.saturating_sub(day);
    if left < f.f4 {
        factors::straight(f.e, 100, left, f.f4)
    } else {
        factors::straight(f.a, 100, day.saturating_sub(first), f.f1)
    }
}

#[tactic(auto, unfolding(crate::specs::Phenology::by_dip))]
fn by_dip(day: u16) -> Fraction
    ensures { Is result (by_dip day) }
{
    match day {
        0..=80 => Fraction { num: 1, den: 1 },
        81..=209 => factors::straight(100, 30, day - 80, 210 - 80),
        210..=260 => Fraction { num: 30, den: 100 },
        261..=319 => factors::straight(30, 100, day - 260, 320 - 260),
        320.. => Fraction { num: 1, den: 1 },
    }
}

#[tactic(auto, unfolding(crate::specs::Phenology::by_temperature))]
fn by_temperature(t_min: u16, t_max: u16, temperature: u16) -> Fraction
    ensures { Is result (by_temperature t_min t_max temperature) }
{
    let t = temperature as u32;
    if 10 * (t_min as u32) < t && t < 10 * (t_max as u32) {
        Fraction { num: 1, den: 1 }
    } else {
        Fraction { num: 0, den: 1 }
    }
}

/// f_phen on a day of the period from `first` to `last`, at a temperature in tenths of a degree
/// above -50.0 °C: a fraction from 0 to 1 ("Factors").
#[tactic(auto, unfolding(crate::specs::Phenology::phenology_of), using(crate::proofs::FactsLaws::facts))]
pub fn f_phen(f: Figures, first: u16, last: u16, day: u16, temperature: u16) -> Fraction
    ensures is { Is result (phenology_of f first last day temperature) }
    ensures facts { FactorFacts }
{
    let phenology = f.phenology;
    match phenology {
        Phenology::Ramps => by_ramps(f, first, last, day),
        Phenology::Dip => by_dip(day),
        Phenology::Temperature => by_temperature(f.t_min, f.t_max, temperature),
    }
}

// The temperature sum of a °C day, in tenths of a degree over hours.
const DEGREE_DAY: u64 = 240;

/// f_phen at a temperature sum in tenths of a degree over hours, 240 of which are a °C day: a
/// fraction from 0 to 1 ("Leaf age by warmth").
#[tactic(auto, unfolding(crate::specs::Phenology::by_warmth), using(crate::proofs::FactsLaws::facts))]
pub fn f_phen_by_warmth(f: Figures, warmth: Warmth, sum: u32) -> Fraction
    ensures is { Is result (by_warmth f warmth sum) }
    ensures facts { FactorFacts }
{
    let reached = sum as u64;
    let end = DEGREE_DAY * (warmth.end as u64);
    if end < reached {
        return Fraction { num: 0, den: 1 };
    }
    let left = end - reached;
    let fall = DEGREE_DAY * (warmth.fall as u64);
    if left < fall {
        return factors::line(f.e, 100, left, fall);
    }
    factors::line(f.a, 100, reached, DEGREE_DAY * (warmth.rise as u64))
}
