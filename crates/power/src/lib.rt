//! f_temp ("Factors"): out of the table of one of the six trees, or worked out at nine decimals for
//! a laboratory's own tree. A tree's temperatures are whole degrees above -50 °C, a reading is
//! tenths of a degree above -50.0 °C.
#![tactic(auto)]

mod entries;
mod guess;
mod lookups;
mod root;
mod rounded;
pub mod tables;
mod terms;
mod values;
mod words;

ghost use Rattle.std.specs.Prelude.{◌≡◌, ◌*◌, ◌<◌, ◌≤◌};
ghost use Rattle.trees.specs.Temperature.{root_at, temperature_pair};
ghost use Rattle.power.specs.Answers.{rising, is_power, in_ratio, fit, factor_of, SoundFactor};
ghost use Rattle.power.specs.steps.Power.{Fits, AreTerms};

use exact::Bounds;
use root::root;
use terms::Terms;
use trees::{Figures, GREATEST_POWER};

// One percent of f_min, in units of 10⁻⁹.
const PERCENT: u64 = 10000000;

// -20 °C, the lowest Tmin, and 200 °C, the highest Tmax.
const LOWEST: u16 = 30;

const HIGHEST: u16 = 250;

fn is_rising(t_min: u16, t_opt: u16, t_max: u16) -> bool
    ensures { result ≡ rising t_min t_opt t_max }
{
    ((LOWEST <= t_min) & (t_min < t_opt)) & ((t_opt < t_max) & (t_max <= HIGHEST))
}

fn is_power(n: u16) -> bool
    ensures { result ≡ is_power n }
{
    (1 <= n) & ((n as u32) <= GREATEST_POWER)
}

fn is_in_ratio(f: Figures) -> bool
    requires { (f.t_min < f.t_opt) × (f.t_opt < f.t_max) × (f.t_max ≤ 250) }
    ensures { result ≡ in_ratio f }
{
    let rise = (f.t_opt - f.t_min) as u32;
    let fall = (f.t_max - f.t_opt) as u32;
    (f.p as u32) * rise == (f.q as u32) * fall
}

#[tactic(auto, unfolding(crate::specs::Answers::fit))]
fn is_fit(f: Figures) -> bool
    ensures { result ≡ fit f }
{
    is_rising(f.t_min, f.t_opt, f.t_max) && (is_power(f.p) & is_power(f.q)) & is_in_ratio(f)
}

/// Figures whose temperatures and powers fit, so that f_temp can be worked out from them.
#[derive(Clone, Copy)]
pub struct Fitting {
    /// The figures.
    pub figures: Figures,
    pub ghost fits: { Fits figures },
}

fn terms_at(own: Fitting, x: u16) -> Terms
    requires { (10 * own.figures.t_min < x) × (x < 10 * own.figures.t_max) }
    ensures { AreTerms own.figures x result }
{
    let f = own.figures;
    let t = x as u32;
    Terms {
        above: t - 10 * (f.t_min as u32),
        rise: 10 * ((f.t_opt - f.t_min) as u32),
        below: 10 * (f.t_max as u32) - t,
        fall: 10 * ((f.t_max - f.t_opt) as u32),
        p: f.p as u32,
        q: f.q as u32,
    }
}

fn root_at(own: Fitting, x: u16) -> u64
    requires { (10 * own.figures.t_min < x) × (x < 10 * own.figures.t_max) }
    ensures { (result ≡ root_at 9 own.figures x) × (result < 4294967296) }
{
    root(terms_at(own, x)) as u64
}

/// f_min, given in percent, as a pair in units of 10⁻⁹: both numbers are it.
pub fn floor_of(f_min: u16) -> Bounds
    ensures { (result.lower ≡ f_min * 10000000) × (result.upper ≡ f_min * 10000000) }
{
    let least = (f_min as u64) * PERCENT;
    Bounds {
        lower: least,
        upper: least,
    }
}

/// f_temp at tenths of a degree above -50.0 °C, of figures that fit, as a pair in units of 10⁻⁹
/// that it lies between ("A laboratory's own tree").
#[tactic(auto, unfolding(trees::specs::Temperature::temperature_pair))]
pub fn fitting_f_temp(own: Fitting, x: u16) -> Bounds
    ensures { result ≡ temperature_pair own.figures x }
{
    let f = own.figures;
    let floor = floor_of(f.f_min);
    let t = x as u32;
    if t <= 10 * (f.t_min as u32) {
        return floor;
    }
    if 10 * (f.t_max as u32) <= t {
        return floor;
    }
    let found = root_at(own, x);
    Bounds {
        lower: floor.lower.max(found),
        upper: floor.upper.max(found + 1),
    }
}

/// The same of any figures; none where their temperatures do not rise or have not their p and q.
pub fn worked_f_temp(f: Figures, x: u16) -> Option<Bounds>
    ensures value { result ≡ factor_of f x }
    ensures sound { SoundFactor f x result }
{
    if is_fit(f) {
        return Some(fitting_f_temp(Fitting { figures: f }, x));
    }
    None
}
