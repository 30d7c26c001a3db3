//! Row 13: an account that no season can give ("Turned-back lines").
ghost use Rattle.std.specs.Prelude.{true, MatchOption, ◌≤◌, ◌≡◌, ◌-◌, ◌&&◌, ◌||◌, not, ◌==◌};
ghost use Rattle.std.specs.Prelude.{nat_lt};
ghost use Rattle.trees.specs.Parameters.{all_zero};
ghost use Rattle.account_spec.specs.HourKinds.{kind_out};
ghost use Rattle.frames.specs.Period.{period_hours, all_given};
ghost use Rattle.account_spec.specs.Account.{is_fresh, is_closed, is_begun, parameters_broken};
ghost use Rattle.account_spec.specs.Account.{is_broken, unmeasured_in, warmth_alone, total_out};
ghost use Rattle.account_spec.specs.Account.{carried_numbers, carried_out, season_numbers};
ghost use Rattle.account_spec.specs.Account.{sums_numbers, is_blank, any_of, counts_out, doses_out};
ghost use Rattle.account_spec.specs.Account.{aot40_out, sums_out, impossible};

use crate::limits;
use account_spec::{Account, Carried, HourKind, Phase, Possible, Season, Sums};

// Parameters that rows 24 or 7 refuse, or of another tree.
fn parameters_broken(season: Season) -> bool
    ensures { result ≡ parameters_broken season }
{
    trees::is_fed(season.parameters)
        && (!limits::is_measured(season)
            || frames::parameters_out(season.parameters)
            || frames::ramps_out(season.header, season.parameters))
}

// Rows 5 to 8 refuse the header, row 17 the ceiling, row 24 or 7 the parameters, or row 25 the
// warmth.
fn broken(season: Season) -> bool
    ensures { result ≡ is_broken season }
{
    frames::check_header(season.header).is_err()
        || frames::ceiling_out(season.ceiling)
        || parameters_broken(season)
        || frames::warmth_broken(season.warmth)
}

// Tree 7 without parameters, and yet a kind, a ceiling or hours.
fn unmeasured(season: Season, kind: Option<HourKind>, hours: u16) -> bool
    ensures { result ≡ unmeasured_in season kind hours }
{
    limits::is_measured(season)
        && !trees::is_fed(season.parameters)
        && (kind.is_some() || season.ceiling != 0 || 0 < hours)
}

// Warmth without parameters.
fn warmth_alone(season: Season) -> bool
    ensures { result ≡ warmth_alone season }
{
    trees::has_warmth(season.warmth) && !trees::is_fed(season.parameters)
}

// Whether a total of so many hours, in tenths of a degree, is one that no hours give: above 600
// for each, or under -500 for each.
fn total_out(hours: u16, total: i16) -> bool
    ensures { result ≡ total_out hours total }
{
    let n = i32::from(hours);
    let t = i32::from(total);
    600 * n < t || t < -500 * n
}

// A temperature sum or a running total that no hours give, or any without warmth.
fn carried_out(season: Season, hours: u16, c: Carried) -> bool
    ensures { result ≡ carried_out season hours c }
{
    if !trees::has_warmth(season.warmth) {
        return c != Carried::default();
    }
    if 600 * (24 * ((hours / 24) as u32)) < c.sum {
        return true;
    }
    total_out(hours % 24, c.total)
}

// Header fields, ceiling, parameters, warmth and sums 0.
fn blank(a: Account) -> bool
    ensures { result ≡ is_blank a }
{
    a.season == Season::default() && a.sums == Sums::default()
}

// More counted hours than hours, or more without ozone than counted; any without ozone where there
// is no ceiling. Season and sums go side by side through the four functions of the sums, which read
// nothing else of an account.
fn counts_out(season: Season, s: Sums) -> bool
    ensures { result ≡ any_of (counts_out season s) }
{
    (s.hours < s.counted) | (s.counted < s.missing) | ((season.ceiling == 0) & (0 < s.missing))
}

// A pair in the wrong order, too great or too far apart.
fn pair_out(lower: u64, upper: u64, most: u64, widest: u64) -> bool
    ensures { result ≡ (nat_lt upper lower || nat_lt most upper || nat_lt widest (upper - lower)) }
{
    upper < lower || most < upper || widest < upper - lower
}

// The two dose numbers.
fn doses_out(season: Season, s: Sums) -> bool
    requires { s.missing ≤ s.counted }
    ensures { result ≡ any_of (doses_out season s) }
{
    let counted = s.counted as u64;
    let missing = s.missing as u64;
    let most = limits::most_hour(season);
    let widest = limits::gap_each(season) * (counted - missing) + most * missing;
    pair_out(s.lower, s.upper, most * counted, widest)
}

// AOT40's two numbers.
fn aot40_out(season: Season, s: Sums) -> bool
    ensures { result ≡ any_of (aot40_out season s) }
{
    let most = limits::most_aot40(season);
    pair_out(
        s.least as u64,
        s.most as u64,
        most * (s.counted as u64),
        most * (s.missing as u64),
    )
}

// Sums that no hours give.
fn sums_out(season: Season, s: Sums) -> bool
    ensures { result ≡ any_of (sums_out season s) }
{
    counts_out(season, s) || doses_out(season, s) || aot40_out(season, s)
}

// Hours without a kind, or a kind without hours.
fn kind_out(kind: Option<HourKind>, hours: u16) -> bool
    ensures { result ≡ kind_out kind hours }
{
    if kind.is_none() {
        0 < hours
    } else {
        hours == 0
    }
}

// More hours than the period has; what the phase rules out: a fresh account that is not blank, a
// broken season once it is begun, hours still due in a closed one.
fn phase_out(a: Account) -> bool
    ensures { result ≡ (nat_lt (period_hours a.season.header) a.sums.hours
        || (is_begun a.phase && is_broken a.season)
        || is_fresh a.phase && not (is_blank a)
        || is_closed a.phase && not (all_given a.season.header a.sums.hours)) }
{
    if frames::period_hours(a.season.header) < (a.sums.hours as u32) {
        return true;
    }
    match a.phase {
        Phase::Fresh => !blank(a),
        Phase::Open => broken(a.season),
        Phase::Closed => broken(a.season) || !frames::all_given(a.season.header, a.sums.hours),
    }
}

/// Whether no season gives an account: row 13 ("Turned-back lines").
// One condition of seventeen, in any order: with the sums first the account is not copied before
// its test.
#[tactic(auto, using(crate::proofs::RowLaws::impossible_is))]
pub fn impossible(a: Account) -> bool
    ensures { result ≡ impossible a }
{
    sums_out(a.season, a.sums)
        || kind_out(a.kind, a.sums.hours)
        || unmeasured(a.season, a.kind, a.sums.hours)
        || warmth_alone(a.season)
        || carried_out(a.season, a.sums.hours, a.carried)
        || phase_out(a)
}

/// An account that row 13 lets pass, as a type of its own, or none ("Turned-back lines"): the one
/// place where an account from outside becomes one.
pub fn tested(account: Account) -> Option<Possible>
    ensures { MatchOption result (impossible account ≡ true) (λ held. held.account ≡ account) }
{
    if impossible(account) {
        return None;
    }
    Some(Possible { account })
}
