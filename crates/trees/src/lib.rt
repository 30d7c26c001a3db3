//! The trees ("Tree table", "Factors", "A laboratory's own tree"): the figures of each, constants
//! that belong to the type of one of the six or made from a laboratory's parameters, and the
//! factors of leaf conductance that exact fractions give.
#![tactic(auto)]

pub mod factors;
mod measured;
pub mod phen;
mod ratio;
mod temperature;

ghost use Rattle.std.specs.Prelude.{◌≡◌};
ghost use Rattle.trees.specs.declared.Figures.{Figures};
ghost use Rattle.trees.specs.Figures.{boreal_spruce, birch, continental_spruce, beech, oak};
ghost use Rattle.trees.specs.Figures.{evergreen, figures_of, choice_row, tree_row, ramp_days};

use exact::Fraction;
pub use measured::{
    MEASURED, Parameters, degrees, figures_before, figures_in, has_warmth, is_fed,
    measured_figures, no_parameters, no_warmth, powers,
};
pub use ratio::{GREATEST_POWER, Ratio, ratio_of};
pub use temperature::Reading;

/// What a soil reading measures.
#[derive(Clone, Copy, PartialEq)]
pub enum Measure {
    /// Suction, in kPa: trees 3 to 7.
    Suction,
    /// Available water, in tenths of a percent: trees 1 and 2.
    Water,
}

/// What f_phen goes by ("Factors").
#[derive(Clone, Copy)]
pub enum Phenology {
    /// Ramps from the first day and to the last.
    Ramps,
    /// The evergreen's dip.
    Dip,
    /// The hour's temperature.
    Temperature,
}

/// Whose table of f_temp.
#[derive(Clone, Copy)]
pub enum Curve {
    /// That of tree 1.
    BorealSpruce,
    /// That of tree 2.
    Birch,
    /// That of tree 3.
    ContinentalSpruce,
    /// That of tree 4.
    Beech,
    /// That of tree 5.
    Oak,
    /// That of tree 6.
    Evergreen,
}

/// Where f_temp is found ("Factors").
#[derive(Clone, Copy)]
pub enum Source {
    /// In the table of this curve.
    Tabled(Curve),
    /// Worked out from the figures at each reading, as for tree 7.
    Worked,
}

/// A tree's figures ("Tree table").
#[derive(Clone, Copy)]
pub struct Figures {
    /// The greatest conductance, mmol m⁻² s⁻¹.
    pub g_max: u16,
    /// f_min, percent.
    pub f_min: u16,
    /// light_a, ten-thousandths.
    pub light_a: u16,
    /// Tmin, whole degrees above -50 °C.
    pub t_min: u16,
    /// Topt, whole degrees above -50 °C.
    pub t_opt: u16,
    /// Tmax, whole degrees above -50 °C.
    pub t_max: u16,
    /// p of p/q, which is (Tmax - Topt)/(Topt - Tmin) in lowest terms.
    pub p: u16,
    /// q of p/q.
    pub q: u16,
    /// Where f_temp is found.
    pub source: Source,
    /// VPD max, where f_VPD is 1, Pa.
    pub vpd_max: u16,
    /// VPD min, where f_VPD is f_min, Pa.
    pub vpd_min: u16,
    /// What a soil reading measures.
    pub measure: Measure,
    /// Soil max, where f_SW is 1, in the measure's unit.
    pub soil_max: u16,
    /// Soil min, where f_SW is f_min, in the measure's unit.
    pub soil_min: u16,
    /// The leaf's width, mm.
    pub leaf: u16,
    /// What f_phen goes by.
    pub phenology: Phenology,
    /// f_phen on the first day, percent.
    pub a: u16,
    /// f_phen on the last day, percent.
    pub e: u16,
    /// The days within which f_phen rises.
    pub f1: u16,
    /// The days within which it falls.
    pub f4: u16,
    /// Y, the flux that adds no dose, nmol m⁻² s⁻¹.
    pub y: u16,
}

/// Leaf age by warmth ("Leaf age by warmth"): three temperature sums in °C days, all 0 where none
/// were fed.
#[derive(Clone, Copy, Default, PartialEq, Eq)]
pub struct Warmth {
    /// The sum within which f_phen rises.
    pub rise: u16,
    /// The sum within which it falls.
    pub fall: u16,
    /// The sum at which it ends.
    pub end: u16,
}

/// A vapour pressure deficit lies from lower/den to upper/den, in Pa; a den of 0 is read as 1.
// Three numbers side by side: a `Bounds` inside would say nothing without the den.
#[derive(Clone, Copy)]
pub struct Deficits {
    /// The lower deficit's numerator.
    pub lower: u64,
    /// The upper deficit's numerator.
    pub upper: u64,
    /// The denominator of both.
    pub den: u32,
}

/// A factor lies from lower to upper, both included.
// A type beside `Bounds`: one type for both would bring its numbers' type into each definition.
#[derive(Clone, Copy)]
pub struct FactorPair {
    /// The factor is not below it.
    pub lower: Fraction,
    /// The factor is not above it.
    pub upper: Fraction,
}

// 0 °C in whole degrees above -50 °C.
const ZERO: u16 = 50;

// A tree's figures, put together from the constants of its type.
macro_rules! put_together {
    ($tree:ident) => {
        Figures {
            g_max: $tree::GMAX,
            f_min: $tree::F_MIN,
            light_a: $tree::LIGHT_A,
            t_min: $tree::T_MIN,
            t_opt: $tree::T_OPT,
            t_max: $tree::T_MAX,
            p: $tree::P,
            q: $tree::Q,
            source: Source::Tabled($tree::CURVE),
            vpd_max: $tree::VPD_MAX,
            vpd_min: $tree::VPD_MIN,
            measure: $tree::MEASURE,
            soil_max: $tree::SOIL_MAX,
            soil_min: $tree::SOIL_MIN,
            leaf: $tree::LEAF,
            phenology: $tree::PHENOLOGY,
            a: $tree::A,
            e: $tree::E,
            f1: $tree::F1,
            f4: $tree::F4,
            y: 1,
        }
    };
}

/// A tree of the table: each of its figures is a constant of its type, under the figure's own name
/// ("Tree table").
pub trait Tree {
    ghost FIGURES: { Figures };

    /// The greatest conductance, mmol m⁻² s⁻¹.
    const GMAX: u16;

    /// f_min, percent.
    const F_MIN: u16;

    /// light_a, ten-thousandths.
    const LIGHT_A: u16;

    /// Tmin, whole degrees above -50 °C.
    const T_MIN: u16;

    /// Topt, whole degrees above -50 °C.
    const T_OPT: u16;

    /// Tmax, whole degrees above -50 °C.
    const T_MAX: u16;

    /// p of p/q, which is (Tmax - Topt)/(Topt - Tmin) in lowest terms.
    const P: u16;

    /// q of p/q.
    const Q: u16;

    /// Whose table f_temp is found in.
    const CURVE: Curve;

    /// VPD max, Pa.
    const VPD_MAX: u16;

    /// VPD min, Pa.
    const VPD_MIN: u16;

    /// What a soil reading measures.
    const MEASURE: Measure;

    /// Soil max, in the measure's unit.
    const SOIL_MAX: u16;

    /// Soil min, in the measure's unit.
    const SOIL_MIN: u16;

    /// The leaf's width, mm.
    const LEAF: u16;

    /// What f_phen goes by.
    const PHENOLOGY: Phenology;

    /// f_phen on the first day, percent.
    const A: u16;

    /// f_phen on the last day, percent.
    const E: u16;

    /// The days within which f_phen rises.
    const F1: u16;

    /// The days within which it falls.
    const F4: u16;

    /// The figures together, and Y, which is 1.
    fn figures() -> Figures
        ensures { result ≡ FIGURES };
}

/// Tree 1, boreal spruce.
#[derive(Clone, Copy)]
pub struct BorealSpruce;

impl Tree for BorealSpruce {
    ghost FIGURES = { boreal_spruce };

    const GMAX: u16 = 125;

    const F_MIN: u16 = 10;

    const LIGHT_A: u16 = 60;

    const T_MIN: u16 = ZERO + 0;

    const T_OPT: u16 = ZERO + 20;

    const T_MAX: u16 = ZERO + 200;

    const P: u16 = 9;

    const Q: u16 = 1;

    const CURVE: Curve = Curve::BorealSpruce;

    const VPD_MAX: u16 = 800;

    const VPD_MIN: u16 = 2800;

    const MEASURE: Measure = Measure::Water;

    const SOIL_MAX: u16 = 150;

    const SOIL_MIN: u16 = 10;

    const LEAF: u16 = 8;

    const PHENOLOGY: Phenology = Phenology::Ramps;

    const A: u16 = 0;

    const E: u16 = 0;

    const F1: u16 = 20;

    const F4: u16 = 30;

    fn figures() -> Figures {
        put_together!(BorealSpruce)
    }
}

/// Tree 2, birch.
#[derive(Clone, Copy)]
pub struct Birch;

impl Tree for Birch {
    ghost FIGURES = { birch };

    const GMAX: u16 = 240;

    const F_MIN: u16 = 10;

    const LIGHT_A: u16 = 42;

    const T_MIN: u16 = ZERO + 5;

    const T_OPT: u16 = ZERO + 20;

    const T_MAX: u16 = ZERO + 200;

    const P: u16 = 12;

    const Q: u16 = 1;

    const CURVE: Curve = Curve::Birch;

    const VPD_MAX: u16 = 500;

    const VPD_MIN: u16 = 2700;

    const MEASURE: Measure = Measure::Water;

    const SOIL_MAX: u16 = 150;

    const SOIL_MIN: u16 = 10;

    const LEAF: u16 = 50;

    const PHENOLOGY: Phenology = Phenology::Ramps;

    const A: u16 = 0;

    const E: u16 = 0;

    const F1: u16 = 20;

    const F4: u16 = 30;

    fn figures() -> Figures {
        put_together!(Birch)
    }
}

/// Tree 3, continental spruce.
#[derive(Clone, Copy)]
pub struct ContinentalSpruce;

impl Tree for ContinentalSpruce {
    ghost FIGURES = { continental_spruce };

    const GMAX: u16 = 130;

    const F_MIN: u16 = 16;

    const LIGHT_A: u16 = 100;

    const T_MIN: u16 = ZERO + 0;

    const T_OPT: u16 = ZERO + 14;

    const T_MAX: u16 = ZERO + 35;

    const P: u16 = 3;

    const Q: u16 = 2;

    const CURVE: Curve = Curve::ContinentalSpruce;

    const VPD_MAX: u16 = 500;

    const VPD_MIN: u16 = 3000;

    const MEASURE: Measure = Measure::Suction;

    const SOIL_MAX: u16 = 50;

    const SOIL_MIN: u16 = 500;

    const LEAF: u16 = 8;

    const PHENOLOGY: Phenology = Phenology::Temperature;

    const A: u16 = 0;

    const E: u16 = 0;

    const F1: u16 = 0;

    const F4: u16 = 0;

    fn figures() -> Figures {
        put_together!(ContinentalSpruce)
    }
}

/// Tree 4, beech.
#[derive(Clone, Copy)]
pub struct Beech;

impl Tree for Beech {
    ghost FIGURES = { beech };

    const GMAX: u16 = 155;

    const F_MIN: u16 = 13;

    const LIGHT_A: u16 = 60;

    const T_MIN: u16 = ZERO + 5;

    const T_OPT: u16 = ZERO + 16;

    const T_MAX: u16 = ZERO + 33;

    const P: u16 = 17;

    const Q: u16 = 11;

    const CURVE: Curve = Curve::Beech;

    const VPD_MAX: u16 = 1000;

    const VPD_MIN: u16 = 3100;

    const MEASURE: Measure = Measure::Suction;

    const SOIL_MAX: u16 = 50;

    const SOIL_MIN: u16 = 1250;

    const LEAF: u16 = 70;

    const PHENOLOGY: Phenology = Phenology::Ramps;

    const A: u16 = 0;

    const E: u16 = 40;

    const F1: u16 = 20;

    const F4: u16 = 20;

    fn figures() -> Figures {
        put_together!(Beech)
    }
}

/// Tree 5, oak.
#[derive(Clone, Copy)]
pub struct Oak;

impl Tree for Oak {
    ghost FIGURES = { oak };

    const GMAX: u16 = 265;

    const F_MIN: u16 = 13;

    const LIGHT_A: u16 = 60;

    const T_MIN: u16 = ZERO + 0;

    const T_OPT: u16 = ZERO + 22;

    const T_MAX: u16 = ZERO + 35;

    const P: u16 = 13;

    const Q: u16 = 22;

    const CURVE: Curve = Curve::Oak;

    const VPD_MAX: u16 = 1100;

    const VPD_MIN: u16 = 3100;

    const MEASURE: Measure = Measure::Suction;

    const SOIL_MAX: u16 = 1000;

    const SOIL_MIN: u16 = 2000;

    const LEAF: u16 = 42;

    const PHENOLOGY: Phenology = Phenology::Ramps;

    const A: u16 = 30;

    const E: u16 = 30;

    const F1: u16 = 15;

    const F4: u16 = 20;

    fn figures() -> Figures {
        put_together!(Oak)
    }
}

/// Tree 6, the evergreen.
#[derive(Clone, Copy)]
pub struct Evergreen;

impl Tree for Evergreen {
    ghost FIGURES = { evergreen };

    const GMAX: u16 = 195;

    const F_MIN: u16 = 2;

    const LIGHT_A: u16 = 120;

    const T_MIN: u16 = ZERO + 1;

    const T_OPT: u16 = ZERO + 23;

    const T_MAX: u16 = ZERO + 39;

    const P: u16 = 8;

    const Q: u16 = 11;

    const CURVE: Curve = Curve::Evergreen;

    const VPD_MAX: u16 = 2200;

    const VPD_MIN: u16 = 4000;

    const MEASURE: Measure = Measure::Suction;

    const SOIL_MAX: u16 = 1000;

    const SOIL_MIN: u16 = 4500;

    const LEAF: u16 = 30;

    const PHENOLOGY: Phenology = Phenology::Dip;

    const A: u16 = 100;

    const E: u16 = 100;

    const F1: u16 = 0;

    const F4: u16 = 0;

    fn figures() -> Figures {
        put_together!(Evergreen)
    }
}

/// The figures of the tree with a number, 1 to 6; none for any other number, which row 5 refuses
/// where it is not 7 either ("Tree table").
// Any byte: a header may bring any, so a narrower type would ask more of callers.
#[tactic(auto, unfolding(crate::specs::Figures::figures_of))]
pub fn figures_of(tree: u8) -> Option<Figures>
    ensures value { result ≡ figures_of tree }
    ensures row { choice_row result ≡ tree_row tree }
{
    match tree {
        1 => Some(BorealSpruce::figures()),
        2 => Some(Birch::figures()),
        3 => Some(ContinentalSpruce::figures()),
        4 => Some(Beech::figures()),
        5 => Some(Oak::figures()),
        6 => Some(Evergreen::figures()),
        _ => None,
    }
}

/// The days that the two ramps of f_phen take together, f1 + f4 ("Factors").
pub fn ramp_days(f: Figures) -> u32
    ensures { result ≡ ramp_days f }
{
    (f.f1 as u32) + (f.f4 as u32)
}
