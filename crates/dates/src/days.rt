//! The model's days, computed in hundredths of a day: a tenth of a degree is 15 of them at the
//! start and 20 at the end, a metre 1.
ghost use Rattle.std.specs.Prelude.{◌≡◌, ◌-◌};
ghost use Rattle.dates.specs.Model.{first_day, last_day};

// Tenths of a degree north of 50° N, and south of it; the one that does not apply is 0.
fn north_and_south(latitude: u16) -> (u32, u32)
    ensures { (result.0 ≡ latitude - 500) × (result.1 ≡ 500 - latitude) }
{
    let north = latitude.saturating_sub(500);
    let south = 500u16.saturating_sub(latitude);
    (u32::from(north), u32::from(south))
}

// The model's start, rounded up.
#[tactic(auto, using(crate::proofs::ModelLaws::days))]
pub(crate) fn first_day(latitude: u16, height: u16) -> u16
    ensures { result ≡ first_day latitude height }
{
    let (north, south) = north_and_south(latitude);
    let start = (10500 + 15 * north + u32::from(height)).saturating_sub(15 * south);
    start.div_ceil(100) as u16
}

// The model's end, rounded down.
#[tactic(auto, using(crate::proofs::ModelLaws::days))]
pub(crate) fn last_day(latitude: u16, height: u16) -> u16
    ensures { result ≡ last_day latitude height }
{
    let (north, south) = north_and_south(latitude);
    let end = (29700 + 20 * south).saturating_sub(20 * north + u32::from(height));
    (end / 100) as u16
}
