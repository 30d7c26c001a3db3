//! Row 13 and reading the account ("Account", "Turned-back lines").
ghost use Rattle.std.specs.Prelude.{◌≡◌};
ghost use Rattle.account_spec.specs.Reading.{verdict_of, totals_of, Reads};

use crate::possible;
use account_spec::{Account, Phase, Possible, Season, Sums, Totals, Verdict};
use frames::Refusal;

// "exceeded": lower above level × 10000; "below": upper at most that; else "undecided"; fresh:
// "none".
#[tactic(auto, unfolding(account_spec::specs::Reading::verdict_of))]
fn verdict(phase: Phase, season: Season, sums: Sums) -> Verdict
    ensures { result ≡ verdict_of phase season sums }
{
    if phase == Phase::Fresh {
        return Verdict::None;
    }
    let limit = 10000 * (season.header.level as u64);
    if limit < sums.lower {
        return Verdict::Exceeded;
    }
    if sums.upper <= limit {
        return Verdict::Below;
    }
    Verdict::Undecided
}

/// The sums that an account carries, and its verdict ("Account"), where row 13 lets the account
/// pass.
pub fn totals(held: Possible) -> Totals
    ensures { result ≡ totals_of held.account }
{
    let a = held.account;
    Totals {
        sums: a.sums,
        verdict: verdict(a.phase, a.season, a.sums),
    }
}

/// The sums that an account carries, and its verdict ("Account"). Row 13: no season gives the
/// account.
#[tactic(auto, unfolding(account_spec::specs::Reading::read_of))]
pub fn read(account: Account) -> Result<Totals, Refusal>
    ensures { Reads account result }
{
    let Some(held) = possible::tested(account) else {
        return Err(Refusal::Account);
    };
    Ok(totals(held))
}
