//! An hour's dose from its concentration, its share and its root ("Factors"). With g = g_max·p the
//! conductance is g/(41000·10⁷) m/s and the resistance 195·s/10⁷ s/m; both terms of F are taken
//! 5·41000·10⁷ times.
ghost use Rattle.std.specs.Prelude.{◌≡◌, ◌/◌, ◌^◌, ◌<◌, ◌≤◌};
ghost use Rattle.dose_spec.specs.Pair.{divisor, quotient, most_concentration};

// 1: 5·41000·10⁷.
const ONE: u64 = 2050000000000;

// 0.0004 m/s in the unit of g: 0.0004·41000·10⁷.
const BESIDES: u64 = 164000000;

// 195 s/m in the unit of s: 5·195/10⁷ is 39/400000.
const RESISTANCE: u64 = 39;

const RESISTANCE_UNIT: u64 = 400000;

// 1 + Rb(g + 0.0004), rounded down, or up where `more` is 1, which is added as it stands.
fn divisor(g_max: u64, p: u64, s: u64, more: u64) -> u64
    requires { (g_max ≤ 500) × (p ≤ 10000003) × (s ≤ 14142136) × (more ≤ 1) }
    ensures is { result ≡ divisor g_max p s more }
    ensures size { (0 < result) × (result < 2 ^ 44) }
{
    ONE + more + RESISTANCE * s * (g_max * p + BESIDES) / RESISTANCE_UNIT
}

// n/d, rounded down, for a divisor d of a dose: `near` or one more, where their products with d
// show it.
fn divided(n: u64, d: u64, near: u64) -> u64
    requires { (0 < d) × (d < 2 ^ 44) }
    ensures { result ≡ n / d }
{
    if near < 1048576 && near * d <= n {
        let rest = n - near * d;
        if rest < d {
            return near;
        }
        if rest - d < d {
            return near + 1;
        }
    }
    n / d
}

// 3600·F, rounded down, at a concentration c/18000, a share p/10⁷ and a root s/10⁷, with the
// divisor rounded up.
pub(crate) fn quotient_low(g_max: u64, c: u64, p: u64, s: u64) -> u64
    requires { (g_max ≤ 500) × (c ≤ most_concentration) × (p ≤ 10000003) × (s ≤ 14142136) }
    ensures { result ≡ quotient g_max c p s 1 }
{
    c * (g_max * p) / divisor(g_max, p, s, 1)
}

// The same with the divisor rounded down; quicker where `near` is next to it.
pub(crate) fn quotient_up(g_max: u64, c: u64, p: u64, s: u64, near: u64) -> u64
    requires { (g_max ≤ 500) × (c ≤ most_concentration) × (p ≤ 10000003) × (s ≤ 14142136) }
    ensures { result ≡ quotient g_max c p s 0 }
{
    divided(c * (g_max * p), divisor(g_max, p, s, 0), near)
}
