//! Row 13's limits ("Turned-back lines"): what a counted hour can bring at most, given by the
//! season.
ghost use Rattle.std.specs.Prelude.{◌≡◌, ◌≤◌, ◌==◌, if◌then◌else◌};
ghost use Rattle.account_spec.specs.Limits.{is_measured, most_hour, gap_each, most_aot40};

use account_spec::Season;

const MOST_HOUR: u64 = 800000;

const GAP_EACH: u64 = 4;

// Those of a measured tree.
const MOST_HOUR_MEASURED: u64 = 1500000;

const GAP_EACH_MEASURED: u64 = 40;

const MOST_AOT40: u64 = 4600;

// Whether the tree is a laboratory's own.
pub(crate) fn is_measured(season: Season) -> bool
    ensures { result ≡ is_measured season }
{
    season.header.tree == trees::MEASURED
}

// A measured tree's number, or another's.
fn by_tree(season: Season, measured: u64, other: u64) -> u64
    ensures { result ≡ (if is_measured season then measured else other) }
{
    if is_measured(season) { measured } else { other }
}

// The most that a counted hour brings, nmol m⁻².
pub(crate) fn most_hour(season: Season) -> u64
    ensures is { result ≡ most_hour season }
    ensures small { result ≤ 1500000 }
{
    by_tree(season, MOST_HOUR_MEASURED, MOST_HOUR)
}

// The most between its two dose numbers, nmol m⁻².
pub(crate) fn gap_each(season: Season) -> u64
    ensures is { result ≡ gap_each season }
    ensures small { result ≤ 40 }
{
    by_tree(season, GAP_EACH_MEASURED, GAP_EACH)
}

// The most that it adds to AOT40, tenths of ppb h. The season is given as to the two above, since
// the definition takes it too.
pub(crate) fn most_aot40(season: Season) -> u64
    ensures { result ≡ most_aot40 season }
{
    MOST_AOT40
}
