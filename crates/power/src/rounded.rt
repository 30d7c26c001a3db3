//! Rounded products: a number's highest 64 bits, and how much it may be above them. They decide
//! nearly every root without its exact powers.
ghost use Rattle.std.specs.Prelude.{◌+◌, ◌*◌, ◌^◌, ◌<◌, ◌≤◌};
ghost use Rattle.power.specs.steps.Power.{IsHigh, StandsFor, Bounded, IsProduct, IsOddProduct};
ghost use Rattle.power.specs.steps.Power.{IsStep, Decided, Certain};

use crate::terms::Terms;

// 2⁶³
const HALF: u64 = 9223372036854775808;

// From mantissa·2^exponent to (mantissa + short)·2^exponent, over 2⁶⁴.
// No invariant of the type: the limits of `Bounded` differ from function to function.
#[derive(Clone, Copy)]
pub(crate) struct Rounded {
    mantissa: u64,
    short: u64,
    exponent: u64,
}

// c itself, its highest bit moved to the mantissa's.
fn whole(c: u64) -> Rounded
    requires { 0 < c }
    ensures { StandsFor c result × Bounded 0 64 result }
{
    let z = u64::leading_zeros(c);
    Rounded {
        mantissa: c << z,
        short: 0,
        exponent: 64 - (z as u64),
    }
}

// x·y / 2⁶⁴, rounded down.
fn high_product(x: u64, y: u64) -> u64
    ensures { IsHigh x y result }
{
    x.carrying_mul(y, 0).1
}

fn times(x: Rounded, y: Rounded) -> Rounded
    requires { Bounded 4000000 10000 x × Bounded 4000000 10000 y }
    ensures product { IsProduct x y result }
    ensures within { Bounded (2 * (x.short + y.short + 4)) (x.exponent + y.exponent) result }
{
    let mantissa = high_product(x.mantissa, y.mantissa);
    let short = x.short + y.short + 4;
    let exponent = x.exponent + y.exponent;
    if mantissa < HALF {
        return Rounded {
            mantissa: 2 * mantissa,
            short: 2 * short,
            exponent: exponent - 1,
        };
    }
    Rounded {
        mantissa,
        short,
        exponent,
    }
}

// r·x where n is odd, r where it is even.
fn times_odd(r: Rounded, x: Rounded, n: u32) -> Rounded
    requires { Bounded 4000000 10000 r × Bounded 4000000 10000 x }
    ensures odd_product { IsOddProduct r x n result }
    ensures within { Bounded (2 * (r.short + x.short + 4)) (r.exponent + x.exponent) result }
{
    if n % 2 == 1 {
        return times(r, x);
    }
    r
}

// x^q·y^p out of x^(q/2)·y^(p/2).
fn step(before: Rounded, x: Rounded, y: Rounded, q: u32, p: u32) -> Rounded
    requires { Bounded 250000 3000 before × Bounded 0 64 x × Bounded 0 64 y }
    ensures step { IsStep before x y q p result }
    ensures within { Bounded (16 * before.short + 56) (2 * before.exponent + 128) result }
{
    let square = times(before, before);
    times_odd(times_odd(square, x, q), y, p)
}

// x^q·y^p.
// Five steps written out: the most that `short` may be grows from one to the next (56, 952, 15288,
// ..), so a loop's invariant would list it for each.
fn powers_of(x: u64, y: u64, q: u32, p: u32) -> Rounded
    requires { (0 < x) × (0 < y) × (q < 32) × (p < 32) }
    ensures { StandsFor (x ^ q * y ^ p) result }
{
    let a = whole(x);
    let b = whole(y);
    let r16 = step(whole(1), a, b, q / 16, p / 16);
    let r8 = step(r16, a, b, q / 8, p / 8);
    let r4 = step(r8, a, b, q / 4, p / 4);
    let r2 = step(r4, a, b, q / 2, p / 2);
    step(r2, a, b, q, p)
}

// Whether l ≤ r < l·(1 + q/t), if the rounded numbers show it.
fn decides(l: Rounded, r: Rounded, t: u64, q: u64) -> bool
    requires { (0 < t) × (q ≤ t) }
    ensures { Decided l r t q result }
{
    let low = l.mantissa;
    let high = r.mantissa;
    let short = l.short;
    let over = r.short;
    let room = low / t * q;
    if l.exponent != r.exponent || high < low {
        return false;
    }
    let above = high - low;
    if above < short || room < over {
        return false;
    }
    above < room - over
}

// Whether t is the root, if the rounded powers show it.
pub(crate) fn is_certain(s: Terms, t: u32) -> bool
    requires { (0 < t) × (t ≤ 1000000000) }
    ensures { Certain s t result }
{
    if t < 22 {
        return false;
    }
    let l = powers_of((t as u64) * (s.rise as u64), s.fall as u64, s.q, s.p);
    let r = powers_of(1000000000 * (s.above as u64), s.below as u64, s.q, s.p);
    decides(l, r, t as u64, s.q as u64)
}
