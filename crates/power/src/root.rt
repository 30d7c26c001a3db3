//! The root: the greatest t with t^q·rise^q·fall^p at most 10^(9q)·above^q·below^p.
ghost use Rattle.std.specs.Prelude.{◌≡◌, ◌<◌, ◌≤◌, nat_le};
ghost use Rattle.power.specs.steps.Power.{left, right, IsRoot, IsInterior};

use crate::guess::guess;
use crate::rounded::is_certain;
use crate::terms::Terms;
use crate::words::{at_most, product};

// 10⁹
const ONE: u32 = 1000000000;

// Whether t is not above the root, by the exact powers.
#[tactic(auto, unfolding(crate::specs::steps::Power::left, crate::specs::steps::Power::right))]
fn passes(s: Terms, t: u32) -> bool
    ensures { result ≡ nat_le (left s t) (right s) }
{
    let p = s.p as usize;
    let q = s.q as usize;
    let tried = product(t, s.rise, s.fall, p, q);
    let allowed = product(ONE, s.above, s.below, p, q);
    at_most(&tried, &allowed)
}

// Where to try next between low and high: a step away from the bound that was found last, or else
// the middle.
fn next(low: u32, high: u32, step: u32) -> u32
    requires { (low < high) × (high ≤ 1000000001) × (0 < step) }
    ensures { IsInterior low high result }
{
    let half = (high - low) / 2;
    if step < half {
        if high == 1000000001 {
            return low + step;
        }
        if low == 0 {
            return high - step;
        }
    }
    low + half
}

// By bisection, from a first probe.
fn search(s: Terms, first: u32) -> u32
    requires { (0 < first) × (first ≤ 1000000000) }
    ensures { IsRoot s result }
{
    let mut low: u32 = 0;
    let mut high: u32 = 1000000001;
    let mut probe = first;
    let mut step: u32 = 1;
    // A `while`: a bisection moves two bounds and counts nothing.
    while 1 < high - low {
        let width = step;
        step = width.saturating_mul(2);
        if passes(s, probe) {
            low = probe;
            probe = next(low, high, width);
        } else {
            high = probe;
            probe = next(low, high, width);
        }
    }
    low
}

pub(crate) fn root(s: Terms) -> u32
    ensures { IsRoot s result }
{
    let t = guess(s);
    if is_certain(s, t) {
        return t;
    }
    search(s, t)
}
