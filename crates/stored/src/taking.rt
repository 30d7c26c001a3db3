//! The account in bytes, each number from its place in the layout.
ghost use Rattle.std.specs.Prelude.{◌≡◌, ◌∷◌, ◌++◌, not};
ghost use Rattle.frames.specs.Answers.{accepted, row, outcome_of};
ghost use Rattle.trees.specs.Parameters.{parameters_of};
ghost use Rattle.trees.specs.Warmth.{warmth_of};
ghost use Rattle.frames.specs.Layout.{header_of};
ghost use Rattle.stored.specs.Packing.{unpacked, slice};
ghost use Rattle.stored.specs.Layout.{widths, hour_kind_of, is_kind, sums_from, season_from};
ghost use Rattle.stored.specs.Layout.{take_up_of};

use crate::big_endian::{get, get_four};
use crate::{SIZE, VERSION};
use account_spec::{Account, Carried, HourKind, Phase, Season, Sums};
use frames::{Header, Parameters, Refusal, Warmth};

// An hour kind by its number, 0 for none.
fn hour_kind_of(n: u8) -> Result<Option<HourKind>, Refusal>
    ensures { outcome_of result ≡ row 13 (not (is_kind n)) (accepted (hour_kind_of n)) }
{
    if n == 0 {
        return Ok(None);
    }
    Ok(Some(HourKind::try_from(n)?))
}

fn header_of(tree: u8, ns: [u16; 4]) -> Header
    ensures { result ≡ header_of (tree ∷ ns) }
{
    Header {
        tree,
        days: ns[0],
        first: ns[1],
        last: ns[2],
        level: ns[3],
    }
}

fn warmth_of(ns: [u16; 4]) -> Warmth
    ensures { result ≡ warmth_of (slice 1 3 ns) }
{
    Warmth {
        rise: ns[1],
        fall: ns[2],
        end: ns[3],
    }
}

fn parameters_of(first: [u16; 4], second: [u16; 4], third: [u16; 4], fourth: [u16; 4]) -> Parameters
    ensures { result
        ≡ parameters_of
        (slice 0 4 first ++ slice 0 4 second ++ slice 0 4 third ++ slice 0 4 fourth) }
{
    Parameters {
        g_max: first[0],
        f_min: first[1],
        light_a: first[2],
        t_min: first[3],
        t_opt: second[0],
        t_max: second[1],
        vpd_max: second[2],
        vpd_min: second[3],
        soil_max: third[0],
        soil_min: third[1],
        leaf: third[2],
        a: third[3],
        e: fourth[0],
        f1: fourth[1],
        f4: fourth[2],
        y: fourth[3],
    }
}

fn season_in(b: &[u8; SIZE]) -> Season
    ensures { result ≡ season_from (unpacked widths 0 b.now) }
{
    let limits = get_four(b, 48);
    Season {
        header: header_of(get(b, 39, 1) as u8, get_four(b, 40)),
        ceiling: limits[0],
        parameters: parameters_of(
            get_four(b, 56),
            get_four(b, 64),
            get_four(b, 72),
            get_four(b, 80),
        ),
        warmth: warmth_of(limits),
    }
}

fn sums_in(b: &[u8; SIZE]) -> Sums
    ensures { result ≡ sums_from (unpacked widths 0 b.now) }
{
    Sums {
        lower: get(b, 9, 8),
        upper: get(b, 17, 8),
        least: get(b, 25, 4) as u32,
        most: get(b, 29, 4) as u32,
        hours: get(b, 3, 2) as u16,
        counted: get(b, 5, 2) as u16,
        missing: get(b, 7, 2) as u16,
    }
}

// Row 13 for another layout's version, and for a phase or kind that no account has.
pub(crate) fn account_in(b: &[u8; SIZE]) -> Result<Account, Refusal>
    ensures { outcome_of result ≡ take_up_of b.now }
{
    if b[0] != VERSION {
        return Err(Refusal::Account);
    }
    Ok(Account {
        phase: Phase::try_from(b[1])?,
        season: season_in(b),
        kind: hour_kind_of(b[2])?,
        sums: sums_in(b),
        carried: Carried {
            sum: get(b, 33, 4) as u32,
            total: frames::signed(get(b, 37, 2) as u16),
        },
    })
}
