//! An hour's stomatal ozone dose ("Factors", "The exact dose"): the two whole numbers that enclose
//! it, the deficit out of humidity that they go by, what is remembered of a temperature, and what a
//! counted hour's ozone adds to AOT40.
#![tactic(auto)]

mod boundary;
mod counted;
mod decay;
mod dose;
mod given;
mod hour;
pub mod humidity;
mod light;
mod ozone;
mod remembered;
mod rows;
mod scale;
mod share;
pub mod sums;
mod values;
mod vapour;

ghost use Rattle.std.specs.Prelude.{◌≡◌};
ghost use Rattle.frames.specs.Answers.{outcome_of};
ghost use Rattle.dose_spec.specs.BenchCases.{BenchCases};
ghost use Rattle.dose_spec.specs.Enclosure.{Enclosure};
ghost use Rattle.dose_spec.specs.Facts.{HourFacts};
ghost use Rattle.dose_spec.specs.HourDose.{tree_of, age_by, hour_dose_of};
ghost use Rattle.dose.specs.steps.Rows.{dosing_as, run_of, hour_by};

pub use counted::{is_counted, pair_alone, pair_of};
pub use dose_spec::{Age, Stand};
use exact::Bounds;
use frames::{Hour, Parameters, Passed, Refusal};
pub use given::Dosing;
pub use remembered::{Memory, no_memory, prepare};
use trees::Figures;

// The figures of the tree with a number, those of tree 7 by its parameters: rows 24 and 5.
fn tree_of(parameters: Parameters, tree: u8) -> Result<Figures, Refusal>
    ensures { outcome_of result ≡ tree_of parameters tree }
{
    if rows::measured_out(tree, parameters) {
        return Err(Refusal::Parameter);
    }
    trees::figures_in(parameters, tree).ok_or(Refusal::Tree)
}

// Leaf age by warmth is tree 7's; the leaves of any other tree age by the day.
fn age_by(tree: u8, age: Age) -> Age
    ensures { result ≡ age_by tree age }
{
    if tree == trees::MEASURED {
        return age;
    }
    Age {
        warmth: trees::no_warmth(),
        sum: age.sum,
    }
}

// What holds for a run of hours: rows 17, 24, 25, 5 and 7.
fn dosing(
    tree: u8,
    parameters: Parameters,
    age: Age,
    first: u16,
    last: u16,
    ceiling: u16,
) -> Result<Dosing, Refusal>
    ensures { dosing_as result ≡ run_of parameters tree age first last ceiling }
{
    if frames::ceiling_out(ceiling) {
        return Err(Refusal::Ceiling);
    }
    if rows::measured_out(tree, parameters) {
        return Err(Refusal::Parameter);
    }
    let own = age_by(tree, age);
    if frames::warmth_broken(own.warmth) {
        return Err(Refusal::Warmth);
    }
    let Some(figures) = trees::figures_in(parameters, tree) else {
        return Err(Refusal::Tree);
    };
    if rows::days_out(figures, first, last) {
        return Err(Refusal::Period);
    }
    let stand = Stand {
        figures,
        age: own,
        first,
        last,
        ceiling,
    };
    Ok(Dosing { stand })
}

// The dose of an hour of a run: rows 18 and 10, then its pair, 0 and 0 where it is not counted.
fn dose_by(dosing: Dosing, h: Hour) -> Result<Bounds, Refusal>
    ensures { outcome_of result ≡ hour_by dosing.stand h }
{
    let stand = dosing.stand;
    if frames::lacks_ceiling(stand.ceiling, h.ozone) {
        return Err(Refusal::NoCeiling);
    }
    frames::check_hour(h, rows::soil_unfit(stand.figures.measure, h.soil))?;
    let pair = counted::pair_alone(dosing, Passed { hour: h });
    Ok(pair.unwrap_or(Bounds { lower: 0, upper: 0 }))
}

/// What an hour adds to POD1 ("The exact dose"): its pair of lower and upper in nmol m⁻² where it
/// is counted, else 0 and 0. It goes by the tree with a number, the first and the last day of the
/// period and the ozone ceiling in tenths of ppb (0: none); tree 7 goes by its parameters and by
/// leaf age by warmth (all 0: by the day), which are not looked at for any other tree.
///
/// Refused, in this order, by row 17 (the ceiling is above 5000), 24 (tree 7's parameters are out
/// of range or do not rise), 25 (its warmth is out), 5 (the tree is not 1 to 7), 7 (the days are no
/// period of a year of 366 days, or too few for the ramps), 18 (ozone is missing, and no ceiling)
/// or 10 (a reading is out of range, or the soil not in the tree's measure, with its field).
// Seven arguments: a struct of the first six would be a `Stand` with a tree's number for its
// figures, filled at each call and taken apart in the promise.
pub fn hour_dose(
    tree: u8,
    parameters: Parameters,
    age: Age,
    first: u16,
    last: u16,
    ceiling: u16,
    h: Hour,
) -> Result<Bounds, Refusal>
    ensures result_value { outcome_of result
        ≡ hour_dose_of parameters tree age first last ceiling h }
    ensures enclosure { Enclosure }
    ensures facts { HourFacts }
    ensures bench_cases { BenchCases }
{
    let run = dosing(tree, parameters, age, first, last, ceiling)?;
    dose_by(run, h)
}
