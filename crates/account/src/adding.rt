//! What an accepted record adds to an account ("Account").
ghost use Rattle.std.specs.Prelude.{◌<◌, ◌≡◌, false};
ghost use Rattle.frames.specs.Temperature.{temperature_out};
ghost use Rattle.account_spec.specs.Hours.{not_negative};
ghost use Rattle.account_spec.specs.Account.{total_out};
ghost use Rattle.account_spec.specs.Rules.{opened, with_season, with_hour, ended, entered};
ghost use Rattle.account_spec.specs.steps.Account.{Dosable, RecordDosable};
ghost use Rattle.dose.specs.steps.Given.{Small};
ghost use Rattle.account.specs.steps.Account.{HasStand, DosedBy, PairAfter, carried_by, IsRead};

use crate::{Account, Carried, Phase, Season, Sums, sums, turns};
use account_spec::Possible;
use dose::{Age, Dosing, Stand};
use exact::Bounds;
use frames::{Checked, Header, Hour, Passed, Record, Warmth};

fn open(header: Header) -> Account
    ensures { result ≡ opened header }
{
    Account {
        phase: Phase::Open,
        season: Season {
            header,
            ..Season::default()
        },
        ..Account::default()
    }
}

// A negative total is taken as 0.
fn not_negative(total: i16) -> u32
    ensures is { result ≡ not_negative total }
    ensures small { result < 32768 }
{
    u32::from(total.max(0).cast_unsigned())
}

// Where a frame of warmth stands, the hour's tenths go to the running day's total, which the day's
// last hour moves into the sum.
fn carry(warmth: Warmth, c: Carried, h: Hour) -> Carried
    requires sum { c.sum < 1000000000 }
    requires total { total_out 24 c.total ≡ false }
    requires temperature { temperature_out h.temperature ≡ false }
    ensures { result ≡ carried_by warmth c h }
{
    if !trees::has_warmth(warmth) {
        return c;
    }
    let total = c.total + h.temperature;
    if h.hour == 23 {
        return Carried {
            sum: c.sum + not_negative(total),
            total: 0,
        };
    }
    Carried { total, ..c }
}

// What a season's hours are dosed by, after a temperature sum of the earlier days.
fn dosing(season: Season, sum: u32) -> Dosing
    requires { HasStand season }
    ensures { DosedBy season sum result.stand }
{
    let header = season.header;
    let Some(figures) = trees::figures_in(season.parameters, header.tree) else {
        unreachable!()
    };
    let stand = Stand {
        figures,
        age: Age {
            warmth: season.warmth,
            sum,
        },
        first: header.first,
        last: header.last,
        ceiling: season.ceiling,
    };
    Dosing { stand }
}

// The pair of an hour after a temperature sum of the earlier days; none where it is not counted,
// and then no figures are worked out.
fn pair_after(season: Season, sum: u32, passed: Passed) -> Option<Bounds>
    requires { HasStand season }
    ensures is { PairAfter season sum passed.hour result }
    ensures small { Small result }
{
    if !dose::is_counted(passed.hour) {
        return None;
    }
    dose::pair_alone(dosing(season, sum), passed)
}

// An hour that no row refuses adds its pair where it is counted; its warmth is carried on.
fn add_hour(held: Possible, passed: Passed) -> Account
    requires { Dosable held.account.season passed.hour }
    ensures { result ≡ with_hour held.account passed.hour }
{
    let a = held.account;
    let h = passed.hour;
    let carried = carry(a.season.warmth, a.carried, h);
    let pair = pair_after(a.season, a.carried.sum, passed);
    let sums = sums::add(a.sums, a.season.ceiling, h, pair);
    Account {
        kind: Some(turns::kind_of(h.air)),
        sums,
        carried,
        ..a
    }
}

fn end(a: Account) -> Account
    ensures { result ≡ ended a }
{
    Account {
        phase: Phase::Closed,
        ..a
    }
}

fn with_season(a: Account, season: Season) -> Account
    ensures { result ≡ with_season a season }
{
    Account { season, ..a }
}

#[tactic(auto, unfolding(account_spec::specs::Rules::entered))]
fn entered(held: Possible, read: Checked) -> Account
    requires { RecordDosable held.account.season read.record }
    ensures { result ≡ entered held.account read.record }
{
    let a = held.account;
    match read.record {
        Record::Header(h) => open(h),
        Record::Hour(hour) => add_hour(held, Passed { hour }),
        Record::End(_) => end(a),
        Record::Ceiling(c) => with_season(
            a,
            Season {
                ceiling: c.ozone,
                ..a.season
            },
        ),
        Record::Parameters(parameters) => with_season(
            a,
            Season {
                parameters,
                ..a.season
            },
        ),
        Record::Warmth(warmth) => with_season(a, Season { warmth, ..a.season }),
    }
}

/// The account that follows where an account reads a frame as this record: row 13 lets it pass too.
pub fn enter(held: Possible, read: Checked) -> Possible
    requires { IsRead held.account read.record }
    ensures { result.account ≡ entered held.account read.record }
{
    Possible {
        account: entered(held, read),
    }
}
