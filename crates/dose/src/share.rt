//! The share of the maximal conductance ("Factors"), rounded down and up: its parts in units of
//! 10⁻⁹, the whole in units of 10⁻⁷.
ghost use Rattle.std.specs.Prelude.{◌≡◌, ◌+◌, ◌-◌, ◌*◌, ◌/◌, ◌^◌, ◌<◌, ◌≤◌, max};
ghost use Rattle.dose.specs.steps.Flux.{Factor};

use exact::Fraction;

// A number in units of 10⁻⁹: up to 1, or one unit more.
#[derive(Clone, Copy)]
pub(crate) struct Part {
    /// In units of 10⁻⁹.
    pub n: u64,
    pub ghost small: { n ≤ 10 ^ 9 + 1 },
}

// A factor up to 1 whose denominator is at most MOST.
#[derive(Clone, Copy)]
pub(crate) struct Limited<const MOST: u64> {
    /// The factor.
    pub x: Fraction,
    pub ghost factor: { Factor MOST x },
}

// The greatest denominator of a short factor.
const SHORT: u64 = 2000000000;

// One whose product with a number of 10⁻⁹ is taken at once.
pub(crate) type Short = Limited<SHORT>;

// f_VPD.
pub(crate) type Long = Limited<200000000000000>;

// The base of a number's two digits.
const BASE: u64 = 32768;

// A number times a factor, rounded down. Each rounding has an equation of its own, here and in the
// pairs below: with `more`, as `by_digits` has it, each call would have to give 0 or the
// denominator less 1, and a trait of the two roundings would hide that number from each promise.
fn times_down(part: Part, by: Short) -> Part
    ensures { result.n ≡ part.n * by.x.num / by.x.den }
{
    if by.x.num == by.x.den {
        return part;
    }
    Part {
        n: part.n * by.x.num / by.x.den,
    }
}

// A number times a factor, rounded up.
fn times_up(part: Part, by: Short) -> Part
    ensures { result.n ≡ (part.n * by.x.num + (by.x.den - 1)) / by.x.den }
{
    if by.x.num == by.x.den {
        return part;
    }
    Part {
        n: (part.n * by.x.num + (by.x.den - 1)) / by.x.den,
    }
}

// A number times a factor by the number's two digits, rounded down, or up where `more` is the
// divisor less 1: the higher digit's quotient, then what it leaves with the lower digit.
fn by_digits(part: Part, by: Long, more: u64) -> u64
    requires more { more < by.x.den }
    ensures { result ≡ (part.n * by.x.num + more) / by.x.den }
{
    let n = part.n;
    let x = by.x;
    let high = n / BASE * x.num;
    high / x.den * BASE + (high % x.den * BASE + n % BASE * x.num + more) / x.den
}

// A number times f_VPD, rounded down.
fn deficit_down(part: Part, by: Long) -> Part
    ensures { result.n ≡ part.n * by.x.num / by.x.den }
{
    if by.x.den <= SHORT {
        return times_down(part, Short { x: by.x });
    }
    if by.x.num == by.x.den {
        return part;
    }
    Part {
        n: by_digits(part, by, 0),
    }
}

// A number times f_VPD, rounded up.
fn deficit_up(part: Part, by: Long) -> Part
    ensures { result.n ≡ (part.n * by.x.num + (by.x.den - 1)) / by.x.den }
{
    if by.x.den <= SHORT {
        return times_up(part, Short { x: by.x });
    }
    if by.x.num == by.x.den {
        return part;
    }
    Part {
        n: by_digits(part, by, by.x.den - 1),
    }
}

// A number, but at least f_min, which is in percent.
fn at_least(f_min: u16, part: Part) -> u64
    ensures { result ≡ max (f_min * 10 ^ 7) part.n }
{
    part.n.max((f_min as u64) * 10000000)
}

// max(f_min, f_temp·f_VPD·f_SW) from the lower bound of f_temp, rounded down.
pub(crate) fn opening_low(f_min: u16, t: Part, vpd: Long, sw: Short) -> u64
    ensures { result ≡ max (f_min * 10 ^ 7) (t.n * vpd.x.num / vpd.x.den * sw.x.num / sw.x.den) }
{
    at_least(f_min, times_down(deficit_down(t, vpd), sw))
}

// max(f_min, f_temp·f_VPD·f_SW) from the upper bound of f_temp, rounded up.
pub(crate) fn opening_up(f_min: u16, t: Part, vpd: Long, sw: Short) -> u64
    ensures { result
        ≡ max (f_min * 10 ^ 7)
        (((t.n * vpd.x.num + (vpd.x.den - 1)) / vpd.x.den * sw.x.num + (sw.x.den - 1))
        / sw.x.den) }
{
    at_least(f_min, times_up(deficit_up(t, vpd), sw))
}

// f_phen × f_light × the opening, from the lower bounds, rounded down.
pub(crate) fn share_low(light: Part, phen: Short, opening: Part) -> u64
    ensures { result ≡ light.n * phen.x.num / phen.x.den * opening.n / 10 ^ 11 }
{
    times_down(light, phen).n * opening.n / 100000000000
}

// f_phen × f_light × the opening, from the upper bounds, rounded up.
pub(crate) fn share_up(light: Part, phen: Short, opening: Part) -> u64
    ensures { result
        ≡ ((light.n * phen.x.num + (phen.x.den - 1)) / phen.x.den * opening.n + (10 ^ 11 - 1))
        / 10 ^ 11 }
{
    (times_up(light, phen).n * opening.n + 99999999999) / 100000000000
}
