//! What a temperature gives an hour, remembered for the hours that have it again: f_temp's pair and
//! the saturation pressure.
//!
//! Nothing is on the heap, so a memory takes 8 bytes of the stack for each temperature. Trees 1 to
//! 6 are remembered too: a year takes 2 to 3 percent longer where their tables are read at each
//! hour.
ghost use Rattle.std.specs.Prelude.{Some, true, ◌≡◌, ◌+◌, ◌*◌, ◌^◌, ◌<◌, ◌≤◌, max};
ghost use Rattle.std.specs.Prelude.{nat_lt, if◌then◌else◌};
ghost use Rattle.std.specs.Result.{result_unwrap_or};
ghost use Rattle.trees.specs.Parameters.{no_parameters};
ghost use Rattle.trees.specs.Sound.{Sound};
ghost use Rattle.trees.specs.Temperature.{temperature_pair};
ghost use Rattle.trees.specs.steps.Trees.{HasTable};
ghost use Rattle.frames.specs.Answers.{accepted, outcome_of};
ghost use Rattle.dose.specs.steps.Given.{Sound-prop};
ghost use Rattle.dose.specs.Remembered.{IsWarm, Remembers, Remembers-prop, IsOf, IsOf-prop};
ghost use Rattle.dose.specs.Remembered.{by_day, stand_with};

use crate::given::Dosing;
use crate::humidity;
use dose_spec::{Age, Stand};
use exact::Bounds;
use frames::{Parameters, Refusal};
use power::{Fitting, tables};
use trees::{Reading, Source};

// What a temperature gives an hour: a·w^(p/q) rounded down, in units of 10⁻⁹, or 0 where f_temp is
// f_min; and the saturation pressure, which is never 0.
#[derive(Clone, Copy)]
pub(crate) struct Warm {
    pub root: u32,
    pub saturation: u32,
}

// Of a temperature that has not come up.
pub(crate) const NONE: Warm = Warm {
    root: 0,
    saturation: 0,
};

/// What hours are dosed by, and what is remembered of temperatures for its tree, where one
/// has come up. It is carried from one run of hours to the next.
#[derive(Drop)]
pub struct Memory {
    // The tree's number and parameters; none before the first.
    pub(crate) of: Option<(u8, Parameters)>,
    /// What the hours are dosed by.
    pub stand: Stand,
    pub(crate) cells: [Warm; 1101],
    pub ghost sound: { Sound stand.figures } by { Sound-prop stand.figures },
    pub ghost few: { stand.ceiling ≤ 5000 },
    ghost tabled: { HasTable stand.figures },
    ghost own: { IsOf of stand.figures } by { IsOf-prop of stand.figures },
    ghost kept: { Remembers stand.figures cells } by { Remembers-prop stand.figures cells },
}

// Leaves age by the day: no warmth, and no sum of it.
fn day_age() -> Age
    ensures { result ≡ by_day }
{
    Age {
        warmth: trees::no_warmth(),
        sum: 0,
    }
}

/// A memory that remembers nothing, and is for no tree that was asked for: its stand is tree 1's,
/// all year and without a ceiling.
pub fn no_memory() -> Memory
    ensures { accepted result.stand ≡ stand_with no_parameters 1 1 366 0 }
{
    let Ok(figures) = crate::tree_of(trees::no_parameters(), 1) else {
        unreachable!()
    };
    let stand = Stand {
        figures,
        age: day_age(),
        first: 1,
        last: 366,
        ceiling: 0,
    };
    Memory {
        of: None,
        stand,
        cells: [NONE; 1101],
    }
}

// It is of the tree with a number and parameters.
fn is_of(of: Option<(u8, Parameters)>, tree: u8, parameters: Parameters) -> bool
    ensures { result ≡ true → of ≡ Some (tree, parameters) }
{
    of == Some((tree, parameters))
}

/// Makes a memory one for the hours of a season whose leaves age by the day, and answers what they
/// are dosed by: a tree with a number (tree 7 by its parameters), the first and the last day of the
/// period, and the ozone ceiling in tenths of ppb (0: none). What was remembered of another tree
/// goes. Refused by row 17 (the ceiling is above 5000), 24 (tree 7's parameters are out) or 5 (no
/// tree), in that order; the memory is then as it was.
pub fn prepare(
    memory: &mut Memory,
    tree: u8,
    parameters: Parameters,
    first: u16,
    last: u16,
    ceiling: u16,
) -> Result<Stand, Refusal>
    ensures is { outcome_of result ≡ stand_with parameters tree first last ceiling }
    ensures memory { memory.new.stand ≡ result_unwrap_or result memory.old.stand }
{
    if frames::ceiling_out(ceiling) {
        return Err(Refusal::Ceiling);
    }
    let figures = crate::tree_of(parameters, tree)?;
    let stand = Stand {
        figures,
        age: day_age(),
        first,
        last,
        ceiling,
    };
    if !is_of(memory.of, tree, parameters) {
        memory.of = Some((tree, parameters));
        memory.cells = [NONE; 1101];
    }
    memory.stand = stand;
    Ok(stand)
}

// f_temp out of a table, or worked out from the figures.
fn f_temp_at(dosing: Dosing, x: Reading) -> Bounds
    ensures { result ≡ temperature_pair dosing.stand.figures x.tenths }
{
    let f = dosing.stand.figures;
    match f.source {
        Source::Tabled(curve) => tables::tabled_f_temp(curve, x),
        Source::Worked => power::fitting_f_temp(Fitting { figures: f }, x.tenths),
    }
}

// The lower number where the upper one is above it, else 0: both are f_min.
fn root_in(pair: Bounds) -> u32
    requires { pair.lower < 4294967296 }
    ensures { result ≡ (if nat_lt pair.lower pair.upper then pair.lower else 0) }
{
    if pair.lower < pair.upper {
        return pair.lower as u32;
    }
    0
}

fn worked(dosing: Dosing, x: Reading) -> Warm
    ensures { IsWarm dosing.stand.figures x.tenths result }
{
    let pair = f_temp_at(dosing, x);
    Warm {
        root: root_in(pair),
        saturation: humidity::saturation(x),
    }
}

// Out of the memory where it has the temperature; a memory that is too short remembers nothing. Two
// arguments: a struct of both would be lent for writing, and each contract would say besides that a
// call leaves the dosing as it was. `worked` is called at two places, so that the compiler leaves
// it out of the loop over the lines.
pub(crate) fn remembered(dosing: Dosing, memory: &mut [Warm], x: Reading) -> Warm
    requires memory { Remembers dosing.stand.figures memory.old }
    ensures is { IsWarm dosing.stand.figures x.tenths result }
    ensures kept { Remembers dosing.stand.figures memory.new }
{
    let i = x.tenths as usize;
    if memory.len() <= i {
        return worked(dosing, x);
    }
    let found = memory[i];
    if found.saturation != 0 {
        return found;
    }
    let warm = worked(dosing, x);
    memory[i] = warm;
    warm
}

// f_temp's pair, by f_min.
pub(crate) fn f_temp(f_min: u16, warm: Warm) -> Bounds
    ensures lower { result.lower ≡ max (f_min * 10 ^ 7) warm.root }
    ensures upper { result.upper ≡ max (f_min * 10 ^ 7) (warm.root + 1) }
{
    let floor = power::floor_of(f_min);
    let root = warm.root as u64;
    Bounds {
        lower: floor.lower.max(root),
        upper: floor.upper.max(root + 1),
    }
}
