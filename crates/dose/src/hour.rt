//! One hour's dose, step by step: the opening, the share of the maximal conductance, the
//! concentration, the pair.
ghost use Rattle.std.specs.Prelude.{◌≡◌, ◌+◌, ◌-◌, ◌*◌, ◌≤◌};
ghost use Rattle.exact.specs.Frac.{Is};
ghost use Rattle.trees.specs.Temperature.{temperature_pair};
ghost use Rattle.dose_spec.specs.Conductance.{above_of, phenology_in};
ghost use Rattle.dose_spec.specs.Deficit.{air_deficits};
ghost use Rattle.dose_spec.specs.Light.{light_low, light_up};
ghost use Rattle.dose_spec.specs.Pair.{opening_low, opening_up, share_low, share_up, root_low};
ghost use Rattle.dose_spec.specs.Pair.{quotient, hour_pair, most_concentration};

use crate::given::Dosing;
use crate::share::{Long, Part, Short};
use crate::{boundary, dose, ozone, scale, share};
use dose_spec::Stand;
use exact::{Bounds, Fraction};
use frames::{Hour, Passed};
use trees::Deficits;

// max(f_min, f_temp·f_VPD·f_SW), in units of 10⁻⁹.
#[inline(always)]
fn opening(dosing: Dosing, t: Bounds, vpd: Deficits, h: Hour) -> Bounds
    requires temperature { t ≡ temperature_pair dosing.stand.figures (above_of h.temperature) }
    requires deficits { vpd ≡ air_deficits h.air (above_of h.temperature) }
    ensures lower { result.lower ≡ opening_low dosing.stand.figures h }
    ensures upper { result.upper ≡ opening_up dosing.stand.figures h }
{
    let f = dosing.stand.figures;
    let dry = trees::factors::f_vpd(f, vpd);
    let sw = Short {
        x: trees::factors::f_sw(f, frames::soil_number(h.soil)),
    };
    Bounds {
        lower: share::opening_low(f.f_min, Part { n: t.lower }, Long { x: dry.lower }, sw),
        upper: share::opening_up(f.f_min, Part { n: t.upper }, Long { x: dry.upper }, sw),
    }
}

// f_phen, by the temperature sum where a frame of warmth stands.
#[inline(always)]
fn phenology(stand: Stand, passed: Passed) -> Fraction
    ensures { Is result (phenology_in stand passed.hour) }
{
    let age = stand.age;
    if trees::has_warmth(age.warmth) {
        return trees::phen::f_phen_by_warmth(stand.figures, age.warmth, age.sum);
    }
    let day = passed.hour.day;
    let x = scale::reading(passed);
    trees::phen::f_phen(stand.figures, stand.first, stand.last, day, x.tenths)
}

// f_phen × f_light × the opening, in units of 10⁻⁷.
#[inline(always)]
fn shares(dosing: Dosing, o: Bounds, l: Bounds, passed: Passed) -> Bounds
    requires light_low { l.lower ≡ light_low dosing.stand.figures passed.hour.ppfd }
    requires light_up { l.upper ≡ light_up dosing.stand.figures passed.hour.ppfd }
    requires lower { o.lower ≡ opening_low dosing.stand.figures passed.hour }
    requires upper { o.upper ≡ opening_up dosing.stand.figures passed.hour }
    ensures lower { result.lower ≡ share_low dosing.stand passed.hour }
    ensures upper { result.upper ≡ share_up dosing.stand passed.hour }
{
    let phen = Short {
        x: phenology(dosing.stand, passed),
    };
    Bounds {
        lower: share::share_low(Part { n: l.lower }, phen, Part { n: o.lower }),
        upper: share::share_up(Part { n: l.upper }, phen, Part { n: o.upper }),
    }
}

// The pair from the concentration's and the share's, in nmol m⁻².
#[inline(always)]
fn pair(dosing: Dosing, wind: u16, c: Bounds, s: Bounds) -> Bounds
    requires concentration { (c.lower ≤ most_concentration) × (c.upper ≤ most_concentration) }
    requires share { (s.lower ≤ 10000003) × (s.upper ≤ 10000003) }
    ensures lower { let f = dosing.stand.figures in
        result.lower ≡
        quotient f.g_max c.lower s.lower (root_low f.leaf wind + 1) 1 - 3600 * f.y }
    ensures upper { let f = dosing.stand.figures in
        result.upper ≡
        (quotient f.g_max c.upper s.upper (root_low f.leaf wind) 0 + 1) - 3600 * f.y }
{
    let f = dosing.stand.figures;
    let g = f.g_max as u64;
    let r = boundary::root_low(f.leaf, wind);
    let threshold = 3600 * (f.y as u64);
    let lower = dose::quotient_low(g, c.lower, s.lower, r + 1);
    let upper = dose::quotient_up(g, c.upper, s.upper, r, lower);
    Bounds {
        lower: lower.saturating_sub(threshold),
        upper: (upper + 1).saturating_sub(threshold),
    }
}

// The pair of an hour, from f_temp, f_light and its two deficits. Written out in its caller, as
// `pair_by` is in both of its own.
#[inline(always)]
pub(crate) fn dosed(
    dosing: Dosing,
    passed: Passed,
    warm: Bounds,
    l: Bounds,
    vpd: Deficits,
) -> Bounds
    requires temperature { warm
        ≡ temperature_pair dosing.stand.figures (above_of passed.hour.temperature) }
    requires light_low { l.lower ≡ light_low dosing.stand.figures passed.hour.ppfd }
    requires light_up { l.upper ≡ light_up dosing.stand.figures passed.hour.ppfd }
    requires deficits { vpd ≡ air_deficits passed.hour.air (above_of passed.hour.temperature) }
    ensures { result ≡ hour_pair dosing.stand passed.hour }
{
    let stand = dosing.stand;
    let h = passed.hour;
    let o = opening(dosing, warm, vpd, h);
    let s = shares(dosing, o, l, passed);
    let c = ozone::concentration(h, stand.ceiling);
    pair(dosing, h.wind, c, s)
}
