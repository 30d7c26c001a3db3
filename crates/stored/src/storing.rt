//! An account's numbers into bytes, each at its place in the layout.
ghost use Rattle.std.specs.Prelude.{◌≡◌, [], ◌∷◌, take, drop};
ghost use Rattle.std.proofs.lemmas.List.Edits.{sets};
ghost use Rattle.trees.specs.Parameters.{parameter_numbers};
ghost use Rattle.account_spec.specs.Account.{season_numbers, sums_numbers};
ghost use Rattle.stored.specs.Packing.{packed};
ghost use Rattle.stored.specs.Layout.{widths, front_numbers};

use crate::big_endian::{put, put_four};
use crate::{SIZE, VERSION};
use account_spec::{Account, Season, Sums};
use frames::Parameters;

#[tactic(auto, unfolding(crate::specs::Packing::big_endian))]
fn put_counts(b: &mut [u8; SIZE], hours: u16, counted: u16, missing: u16)
    ensures { b.new
        ≡ sets b.old 3 (packed (take 3 (drop 3 widths)) (hours ∷ counted ∷ missing ∷ [])) }
{
    put(b, 3, 2, hours as u64);
    put(b, 5, 2, counted as u64);
    put(b, 7, 2, missing as u64);
}

#[tactic(auto, unfolding(crate::specs::Packing::big_endian))]
fn put_sums(b: &mut [u8; SIZE], sums: Sums)
    ensures { b.new ≡ sets b.old 3 (packed (take 7 (drop 3 widths)) (sums_numbers sums)) }
{
    put_counts(b, sums.hours, sums.counted, sums.missing);
    put(b, 9, 8, sums.lower);
    put(b, 17, 8, sums.upper);
    put(b, 25, 4, sums.least as u64);
    put(b, 29, 4, sums.most as u64);
}

// The numbers before the season's.
#[tactic(auto, unfolding(crate::specs::Packing::big_endian))]
pub(crate) fn put_front(b: &mut [u8; SIZE], account: Account)
    ensures { b.new ≡ sets b.old 0 (packed (take 12 widths) (front_numbers account)) }
{
    put(b, 0, 1, VERSION as u64);
    put(b, 1, 1, account::phase_number(account.phase) as u64);
    put(b, 2, 1, account::kind_number(account.kind) as u64);
    put_sums(b, account.sums);
    put(b, 33, 4, account.carried.sum as u64);
    put(b, 37, 2, frames::complement(account.carried.total) as u64);
}

#[tactic(auto, unfolding(crate::specs::Packing::big_endian))]
fn put_parameters(b: &mut [u8; SIZE], p: Parameters)
    ensures { b.new ≡ sets b.old 56 (packed (drop 21 widths) (parameter_numbers p)) }
{
    put_four(b, 56, [p.g_max, p.f_min, p.light_a, p.t_min]);
    put_four(b, 64, [p.t_opt, p.t_max, p.vpd_max, p.vpd_min]);
    put_four(b, 72, [p.soil_max, p.soil_min, p.leaf, p.a]);
    put_four(b, 80, [p.e, p.f1, p.f4, p.y]);
}

#[tactic(auto, unfolding(crate::specs::Packing::big_endian))]
pub(crate) fn put_season(b: &mut [u8; SIZE], season: Season)
    ensures { b.new ≡ sets b.old 39 (packed (drop 12 widths) (season_numbers season)) }
{
    let h = season.header;
    let w = season.warmth;
    put(b, 39, 1, h.tree as u64);
    put_four(b, 40, [h.days, h.first, h.last, h.level]);
    put_four(b, 48, [season.ceiling, w.rise, w.fall, w.end]);
    put_parameters(b, season.parameters);
}
