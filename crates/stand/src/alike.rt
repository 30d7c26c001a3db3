//! What the accounts of a list have in common, which row 23 goes by ("Several trees, one reading").
ghost use Rattle.std.specs.Prelude.{◌≡◌};
ghost use Rattle.frames.specs.Numbers.{same_numbers};
ghost use Rattle.stand.specs.Alike.{common_numbers};
ghost use Rattle.stand.specs.steps.ListSteps.{common_as};

use account::{Account, HourKind, Phase};
use trees::Measure;

// What accounts are compared by; no measure where there is no tree.
#[derive(Clone, Copy, PartialEq)]
pub(crate) struct Common {
    pub(crate) days: u16,
    pub(crate) first: u16,
    pub(crate) last: u16,
    pub(crate) hours: u16,
    pub(crate) phase: Phase,
    pub(crate) ceiling: u16,
    pub(crate) kind: Option<HourKind>,
    pub(crate) measure: Option<Measure>,
}

// Field by field: row 23 compares none of the structs that they stand in whole.
pub(crate) fn common_of(a: Account) -> Common
    ensures { common_as result ≡ common_numbers a }
{
    let header = a.season.header;
    let figures = trees::figures_before(header.tree);
    Common {
        days: header.days,
        first: header.first,
        last: header.last,
        hours: a.sums.hours,
        phase: a.phase,
        ceiling: a.season.ceiling,
        kind: a.kind,
        measure: figures.map(|f| f.measure),
    }
}

pub(crate) fn alike(a: Common, b: Common) -> bool
    ensures { result ≡ same_numbers (common_as a) (common_as b) }
{
    a == b
}
