//! The tests of rows 24, 7 and 10 that an hour's dose makes besides those of the hour itself.
ghost use Rattle.std.specs.Prelude.{◌≡◌, ◌&&◌, ◌==◌};
ghost use Rattle.frames.specs.Parameters.{parameter_out};
ghost use Rattle.dose_spec.specs.HourDose.{days_out, other_measure, soil_unfit};

use frames::{Parameters, Soil};
use trees::{Figures, Measure};

// Row 24: tree 7 goes by its parameters.
pub(crate) fn measured_out(tree: u8, parameters: Parameters) -> bool
    ensures { result ≡ (tree == 7 && parameter_out parameters) }
{
    tree == trees::MEASURED && frames::parameters_out(parameters)
}

// Row 7 where the year is not known: no year has more than 366 days. Days by themselves: for the
// test of `frames` a header would have to be made, with a year of 366 days.
pub(crate) fn days_out(f: Figures, first: u16, last: u16) -> bool
    ensures { result ≡ days_out f first last }
{
    first < 1 || last < first || 366 < last || u32::from(last - first) < trees::ramp_days(f)
}

// Whether the soil is not in the tree's measure.
fn other_measure(measure: Measure, soil: Soil) -> bool
    ensures { result ≡ other_measure measure soil }
{
    !matches!(
        (measure, soil),
        (Measure::Suction, Soil::Suction(_)) | (Measure::Water, Soil::Water(_))
    )
}

// Whether the soil is out of range, or not in the tree's measure.
pub(crate) fn soil_unfit(measure: Measure, soil: Soil) -> bool
    ensures { result ≡ soil_unfit measure soil }
{
    frames::soil_out(soil) || other_measure(measure, soil)
}
