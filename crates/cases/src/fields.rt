//! An account's fields by their numbers: 0 phase (0 fresh, 1 open, 2 closed), 1 to 5 the header's
//! in their order, 6 ceiling, 7 kind of its hours (0 none), 8 hours, 9 counted, 10 missing, 11
//! lower, 12 upper, 13 least, 14 most (counted.rt), 15 to 30 the parameters in the order of their
//! frame (parameters.rt), 31 rise, 32 fall, 33 end, 34 sum, 35 total (warmth.rt).
use crate::counted::{Seven, set_sum};
use crate::digits::{u8_at, u16_at};
use crate::parameters::{Sixteen, set_parameter};
use crate::warmth::{Ageing, set_carried, set_warmth};
use account::{Account, HourKind, Phase, Season, kind_number, phase_number};
use std::fmt;

fn set_season_field(season: &mut Season, digits: &[u8]) {
    match u8_at(digits, 0) {
        1 => season.header.tree = u8_at(digits, 2),
        2 => season.header.days = u16_at(digits, 2),
        3 => season.header.first = u16_at(digits, 2),
        4 => season.header.last = u16_at(digits, 2),
        5 => season.header.level = u16_at(digits, 2),
        6 => season.ceiling = u16_at(digits, 2),
        _ => (),
    }
}

/// The account with one field anew: two digits are the field's number, the digits after them what
/// it is to be, in the field's own width. A number that no phase has says closed, one that no kind
/// has says none.
pub(crate) fn with_field(mut a: Account, digits: &[u8]) -> Account {
    match u8_at(digits, 0) {
        0 => a.phase = Phase::try_from(u8_at(digits, 2)).unwrap_or(Phase::Closed),
        7 => a.kind = HourKind::try_from(u8_at(digits, 2)).ok(),
        1..=6 => set_season_field(&mut a.season, digits),
        8..=14 => set_sum(&mut a.sums, digits),
        15..=30 => set_parameter(&mut a.season.parameters, digits),
        31..=33 => set_warmth(&mut a.season.warmth, digits),
        _ => set_carried(&mut a.carried, digits),
    }
    a
}

/// Every field, in the order of their numbers.
#[derive(Clone, Copy)]
pub(crate) struct Fields(pub(crate) Account);

impl fmt::Display for Fields {
    fn fmt<W: fmt::Write>(&self, f: &mut fmt::Formatter<W>) -> fmt::Result {
        let Account {
            phase,
            season,
            kind,
            sums,
            carried,
        } = self.0;
        let header = season.header;
        write!(
            f,
            "{} {} {} ",
            phase_number(phase),
            header.tree,
            header.days
        )?;
        write!(f, "{} {} {} ", header.first, header.last, header.level)?;
        write!(f, "{} {} ", season.ceiling, kind_number(kind))?;
        write!(
            f,
            "{} {} {}",
            Seven(sums),
            Sixteen(season.parameters),
            Ageing(season.warmth, carried)
        )
    }
}
