//! A first guess at a·w^(p/q), with doubles. Nothing is shown of it but that it is from 1 to 10⁹: a
//! wrong one costs time only.
ghost use Rattle.std.specs.Prelude.{◌<◌, ◌≤◌};

use crate::terms::Terms;
use std::num::saturating_f64_to_u32;

const LN2: f64 = 0.6931471805599453;

// 2·artanh(s), for s up to 1/3.
fn twice_artanh(s: f64) -> f64 {
    let z = s * s;
    let high = 1.0 / 15.0
        + z * (1.0 / 17.0 + z * (1.0 / 19.0 + z * (1.0 / 21.0 + z * (1.0 / 23.0 + z / 25.0))));
    let low = 1.0 / 7.0 + z * (1.0 / 9.0 + z * (1.0 / 11.0 + z * (1.0 / 13.0 + z * high)));
    2.0 * s * (1.0 + z * (1.0 / 3.0 + z * (1.0 / 5.0 + z * low)))
}

// c, its highest bit moved to the word's.
fn normal(c: u32, zeros: u32) -> f64 {
    if zeros < 32 { (c << zeros) as f64 } else { 1.0 }
}

// ln(c/d)
fn logarithm(c: u32, d: u32) -> f64 {
    let i = u32::leading_zeros(c);
    let j = u32::leading_zeros(d);
    let x = normal(c, i);
    let y = normal(d, j);
    ((j as f64) - (i as f64)) * LN2 + twice_artanh((x - y) / (x + y))
}

// exp(y), for y from -22 to 8: the series at y/64, squared six times.
fn exponential(y: f64) -> f64 {
    let x = y / 64.0;
    let high = 1.0 / 120.0
        + x * (1.0 / 720.0
            + x * (1.0 / 5040.0 + x * (1.0 / 40320.0 + x * (1.0 / 362880.0 + x / 3628800.0))));
    let e1 = 1.0 + x * (1.0 + x * (1.0 / 2.0 + x * (1.0 / 6.0 + x * (1.0 / 24.0 + x * high))));
    let e2 = e1 * e1;
    let e4 = e2 * e2;
    let e8 = e4 * e4;
    let e16 = e8 * e8;
    let e32 = e16 * e16;
    e32 * e32
}

// A little is added, so that a root that is a whole number is not missed by the rounding.
fn value(s: Terms) -> f64 {
    let l = logarithm(s.below, s.fall);
    let a = (s.above as f64) / (s.rise as f64);
    1000000000.0 * a * exponential((s.p as f64) / (s.q as f64) * l) + 0.0001
}

// From 1 to 10⁹: a bare number, since `search` and `is_certain` would take it out of a struct at
// once.
pub(crate) fn guess(s: Terms) -> u32
    ensures { (0 < result) × (result ≤ 1000000000) }
{
    saturating_f64_to_u32(value(s)).clamp(1, 1000000000)
}
