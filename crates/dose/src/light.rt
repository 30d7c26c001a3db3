//! f_light = 1 - exp(-light_a × PPFD) ("Factors"), the exponential by its argument's digits in base
//! 100.
ghost use Rattle.std.specs.Prelude.{◌≡◌, ◌*◌, ◌<◌, ◌≤◌};
ghost use Rattle.dose_spec.specs.Light.{decay_entry, decay_low, light_low_of, light_up_of};
ghost use Rattle.dose_spec.specs.steps.Flux.{IsDecayTable};

use crate::decay::{HUNDREDS, MYRIADS, ONES};
use exact::Bounds;

// 1 in units of 10⁻⁹.
const ONE: u64 = 1000000000;

// How far exp(-n/10000) may lie above what `decay` gives, in units of 10⁻⁹.
const SLACK: u64 = 7;

// exp(-n/10000) for n = d times a place of base 100. `place` is read by the contract alone: a
// struct of the table with the place as a ghost would be made at each of the three calls.
fn decay_entry(table: &[u32], place: usize, d: usize) -> u64
    requires table { IsDecayTable place table.now }
    requires digit { d < 100 }
    ensures { result ≡ decay_entry (place * d) }
{
    u64::from(table.get(d).copied().unwrap_or(0))
}

// exp(-n/10000), rounded down at each digit.
fn decay(n: u32) -> u64
    requires small { n < 1000000 }
    ensures { result ≡ decay_low n }
{
    let m = n as usize;
    let high = m / 100;
    let a = decay_entry(&ONES, 1, m % 100);
    let b = decay_entry(&HUNDREDS, 100, high % 100);
    let c = decay_entry(&MYRIADS, 10000, high / 100);
    a * b / ONE * c / ONE
}

// f_light of light_a, in ten-thousandths, and PPFD.
pub(crate) fn factor(light_a: u16, ppfd: u16) -> Bounds
    requires steep { light_a ≤ 200 }
    requires bright { ppfd ≤ 3000 }
    ensures lower { result.lower ≡ light_low_of (light_a * ppfd) }
    ensures upper { result.upper ≡ light_up_of (light_a * ppfd) }
{
    let e = decay((light_a as u32) * (ppfd as u32));
    let upper = ONE - e;
    Bounds {
        lower: upper.saturating_sub(SLACK),
        upper,
    }
}
