//! A laboratory's own tree ("A laboratory's own tree", "Leaf age by warmth"): the parameters that
//! its frame brings, the figures that they make, and leaf age by warmth.
ghost use Rattle.std.specs.Prelude.{◌≡◌};
ghost use Rattle.trees.specs.Figures.{choice_row};
ghost use Rattle.trees.specs.Parameters.{no_parameters, is_fed, degrees_of};
ghost use Rattle.trees.specs.Warmth.{no_warmth, has_warmth};
ghost use Rattle.trees.specs.MeasuredFigures.{powers_in, measured_figures, figures_in, number_row};
ghost use Rattle.trees.specs.MeasuredFacts.{MeasuredFacts};

use crate::ratio::{GREATEST_POWER, Ratio, ratio_of};
use crate::{Figures, Measure, Phenology, Source, Warmth};

/// The sixteen numbers of a frame of kind 07, as they stand in its line ("A laboratory's own
/// tree"); all 0 where none was fed.
#[derive(Clone, Copy, Default, PartialEq, Eq)]
pub struct Parameters {
    /// The greatest conductance, mmol m⁻² s⁻¹.
    pub g_max: u16,
    /// f_min, percent.
    pub f_min: u16,
    /// light_a, ten-thousandths.
    pub light_a: u16,
    /// Tmin, whole °C in two's complement.
    pub t_min: u16,
    /// Topt, whole °C in two's complement.
    pub t_opt: u16,
    /// Tmax, whole °C in two's complement.
    pub t_max: u16,
    /// VPD max, Pa.
    pub vpd_max: u16,
    /// VPD min, Pa.
    pub vpd_min: u16,
    /// Suction max, kPa.
    pub soil_max: u16,
    /// Suction min, kPa.
    pub soil_min: u16,
    /// The leaf's width, mm.
    pub leaf: u16,
    /// f_phen on the first day, percent.
    pub a: u16,
    /// f_phen on the last day, percent.
    pub e: u16,
    /// The days within which f_phen rises.
    pub f1: u16,
    /// The days within which it falls.
    pub f4: u16,
    /// Y, the flux that adds no dose, nmol m⁻² s⁻¹.
    pub y: u16,
}

/// The number of a laboratory's own tree.
pub const MEASURED: u8 = 7;

/// The parameters of a season whose frame of kind 07 was not fed: all 0.
pub fn no_parameters() -> Parameters
    ensures { result ≡ no_parameters }
{
    Parameters::default()
}

/// Whether parameters were fed: some number is not 0.
pub fn is_fed(p: Parameters) -> bool
    ensures { result ≡ is_fed p }
{
    p != Parameters::default()
}

/// Leaf age of a season whose frame of kind 08 was not fed: all 0. A caller of `dose::hour_dose`
/// gives it where leaves do not age by warmth.
pub fn no_warmth() -> Warmth
    ensures { result ≡ no_warmth }
{
    Warmth::default()
}

/// Whether leaves age by warmth: some sum is not 0.
pub fn has_warmth(w: Warmth) -> bool
    ensures { result ≡ has_warmth w }
{
    w != Warmth::default()
}

/// Whole degrees above -50 °C, out of whole °C in two's complement, two bytes.
pub fn degrees(n: u16) -> u16
    ensures { result ≡ degrees_of n }
{
    n.wrapping_add(50)
}

/// p/q out of the three temperatures of parameters, in lowest terms and both at most 22; none where
/// there are no such, or the temperatures do not rise: row 24 ("A laboratory's own tree").
pub fn powers(p: Parameters) -> Option<Ratio>
    ensures { result ≡ powers_in p }
{
    ratio_of(degrees(p.t_min), degrees(p.t_opt), degrees(p.t_max))
}

// The figures that parameters make, their powers given.
// Field by field: parameters and figures are two types, and a struct update takes its own alone.
fn figures_by(p: Parameters, found: Option<Ratio>) -> Figures
    requires { found ≡ powers_in p }
    ensures { result ≡ measured_figures p }
{
    // p and q are numbers for every tree: 0 is no power, and `power::worked_f_temp` answers none.
    let ratio = found.unwrap_or(Ratio::default());
    Figures {
        g_max: p.g_max,
        f_min: p.f_min,
        light_a: p.light_a,
        t_min: degrees(p.t_min),
        t_opt: degrees(p.t_opt),
        t_max: degrees(p.t_max),
        p: ratio.p,
        q: ratio.q,
        source: Source::Worked,
        vpd_max: p.vpd_max,
        vpd_min: p.vpd_min,
        measure: Measure::Suction,
        soil_max: p.soil_max,
        soil_min: p.soil_min,
        leaf: p.leaf,
        phenology: Phenology::Ramps,
        a: p.a,
        e: p.e,
        f1: p.f1,
        f4: p.f4,
        y: p.y,
    }
}

/// The figures that parameters make ("A laboratory's own tree"); with no p/q in them, both are 0.
pub fn measured_figures(p: Parameters) -> Figures
    ensures value { result ≡ measured_figures p }
    ensures facts { MeasuredFacts }
{
    figures_by(p, powers(p))
}

/// The figures of the tree with a number, 1 to 7, those of tree 7 before its parameters are fed;
/// none for any other number (row 5, no tree).
// `figures_in` of no parameters, written out: with no powers to work out the compiler writes it
// into its callers. By `figures_in` a year of hours takes 5 percent more instructions.
#[tactic(auto, unfolding(crate::specs::MeasuredFigures::figures_in, crate::specs::Powers::powers_of))]
pub fn figures_before(tree: u8) -> Option<Figures>
    ensures { result ≡ figures_in no_parameters tree }
{
    if tree == MEASURED {
        return Some(figures_by(no_parameters(), None));
    }
    crate::figures_of(tree)
}

/// The figures of the tree with a number, 1 to 7, those of tree 7 by its parameters; none for any
/// other number (row 5, no tree).
#[tactic(auto, unfolding(crate::specs::MeasuredFigures::figures_in))]
pub fn figures_in(parameters: Parameters, tree: u8) -> Option<Figures>
    ensures value { result ≡ figures_in parameters tree }
    ensures row { choice_row result ≡ number_row tree }
{
    if tree == MEASURED {
        return Some(measured_figures(parameters));
    }
    crate::figures_of(tree)
}
