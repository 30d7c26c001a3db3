//! The pair of a counted hour, with what is remembered of its temperature.
ghost use Rattle.std.specs.Prelude.{◌≡◌};
ghost use Rattle.dose_spec.specs.Dose.{is_counted};
ghost use Rattle.dose_spec.specs.Pair.{hour_pair};
ghost use Rattle.dose.specs.Remembered.{Remembers};
ghost use Rattle.dose.specs.steps.Given.{counted_pair, Small};

use crate::given::Dosing;
use crate::remembered::{self, Memory, NONE, Warm};
use crate::{hour, light, scale, vapour};
use exact::Bounds;
use frames::{Hour, Passed};

// The pair of an hour, by what is remembered of its temperature. Written out in both its callers,
// so that it stands in the loop over a run's hours.
#[inline(always)]
fn pair_by(dosing: Dosing, passed: Passed, cells: &mut [Warm]) -> Bounds
    requires memory { Remembers dosing.stand.figures cells.old }
    ensures is { result ≡ hour_pair dosing.stand passed.hour }
    ensures kept { Remembers dosing.stand.figures cells.new }
{
    let h = passed.hour;
    let warm = remembered::remembered(dosing, cells, scale::reading(passed));
    let f = dosing.stand.figures;
    let l = light::factor(f.light_a, h.ppfd);
    let vpd = vapour::deficits(h.air, warm.saturation);
    hour::dosed(dosing, passed, remembered::f_temp(f.f_min, warm), l, vpd)
}

/// Whether an hour is counted: G > 50 W m⁻² ("The exact dose").
pub fn is_counted(h: Hour) -> bool
    ensures { result ≡ is_counted h }
{
    50 < h.radiation
}

/// The pair of lower and upper, in nmol m⁻², of an hour by the stand that a memory is for, where
/// the hour is counted ("The exact dose"). What the memory did not have of the hour's temperature
/// it has then.
#[inline(always)]
pub fn pair_of(memory: &mut Memory, passed: Passed) -> Option<Bounds>
    ensures is { result ≡ counted_pair memory.old.stand passed.hour }
    ensures small { Small result }
    ensures stand { memory.new.stand ≡ memory.old.stand }
{
    if !is_counted(passed.hour) {
        return None;
    }
    let dosing = Dosing {
        stand: memory.stand,
    };
    Some(pair_by(dosing, passed, &mut memory.cells))
}

/// The pair of an hour by itself, by what it is dosed by; none where it is not counted.
// A memory of one remembers no temperature of a season.
pub fn pair_alone(dosing: Dosing, passed: Passed) -> Option<Bounds>
    ensures is { result ≡ counted_pair dosing.stand passed.hour }
    ensures small { Small result }
{
    if !is_counted(passed.hour) {
        return None;
    }
    let mut cells = [NONE; 1];
    Some(pair_by(dosing, passed, &mut cells))
}
