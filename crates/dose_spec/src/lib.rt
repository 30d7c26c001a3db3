//! An hour's exact ozone dose and the pair that encloses it ("Factors", "The exact dose"), with the
//! vapour pressure deficit out of humidity and temperature ("Humidity in place of VPD"):
//! definitions and laws only, and the types that they speak of.
#![tactic(auto)]

use exact::Bounds;
use frames::Refusal;
use trees::{Deficits, Figures, Warmth};

/// Leaf age by warmth ("Leaf age by warmth").
// Zeros for not fed, as in `Season` of the account, which warmth and ceiling are copied from.
#[derive(Clone, Copy)]
pub struct Age {
    /// The frame's sums; all 0 where none was fed, and then f_phen goes by the day.
    pub warmth: Warmth,
    /// The temperature sum of the earlier days, tenths of a degree over hours.
    pub sum: u32,
}

/// What an hour's dose goes by besides the hour ("The exact dose").
#[derive(Clone, Copy)]
pub struct Stand {
    /// The tree's figures.
    pub figures: Figures,
    /// Leaf age by warmth, or by the day.
    pub age: Age,
    /// Day A, the first of the period.
    pub first: u16,
    /// Day E, the last of the period.
    pub last: u16,
    /// The ozone ceiling, tenths of ppb; 0 where none was fed.
    pub ceiling: u16,
}
