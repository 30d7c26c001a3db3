//! "Dates from a place": a header from tree, year, level, latitude and height, its first and last
//! day by the manual's latitude model.
#![tactic(auto)]

mod days;

ghost use Rattle.frames.specs.Answers.{outcome_of};
ghost use Rattle.std.specs.Prelude.{◌≡◌};
ghost use Rattle.dates.specs.Rules.{has_model, place_out, placed_of};
ghost use Rattle.dates.specs.Promise.{PlacePromise};

use days::{first_day, last_day};
use frames::{Header, Record, Refusal};

// Whether a tree has the latitude model: boreal spruce, birch, beech, oak.
#[tactic(auto, unfolding(frames::specs::Kinds::among))]
fn has_model(tree: u8) -> bool
    ensures { result ≡ has_model tree }
{
    matches!(tree, 1 | 2 | 4 | 5)
}

// Row 14: latitude (tenths of a degree) or height (metres) outside its range, or a tree without the
// model.
#[tactic(auto, unfolding(crate::specs::Rules::place_out))]
fn place_out(tree: u8, latitude: u16, height: u16) -> bool
    ensures { result ≡ place_out tree latitude height }
{
    frames::outside(350, 720, latitude) || 3000 < height || !has_model(tree)
}

/// The header of a place ("Dates from a place"), from a tree's number, the days in the year, the
/// level in hundredths of mmol m⁻², the latitude in tenths of a degree and the height in metres.
/// Refused, in this order, by row 5 (the tree is not 1 to 7), 6 (the year has not 365 or 366 days),
/// 14 (the latitude is not 350 to 720, the height is above 3000, or the tree is without the model),
/// 7 (the period is not in the year, or too short for the tree) or 8 (the level is not 1 to 10000).
#[tactic(auto, using(crate::proofs::PlaceLaws::place_promise), unfolding(crate::specs::Rules::placed_of, crate::specs::Rules::made_header, frames::specs::Ranges::checked))]
pub fn header_at(
    tree: u8,
    days: u16,
    level: u16,
    latitude: u16,
    height: u16,
) -> Result<Header, Refusal>
    ensures result_value { outcome_of result ≡ placed_of tree days level latitude height }
    ensures promise { PlacePromise }
{
    trees::figures_before(tree).ok_or(Refusal::Tree)?;
    if frames::outside(365, 366, days) {
        return Err(Refusal::Year);
    }
    if place_out(tree, latitude, height) {
        return Err(Refusal::Place);
    }
    let header = Header {
        tree,
        days,
        first: first_day(latitude, height),
        last: last_day(latitude, height),
        level,
    };
    frames::check(Record::Header(header))?;
    Ok(header)
}
