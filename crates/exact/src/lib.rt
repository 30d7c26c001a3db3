//! Exact arithmetic: fractions of whole numbers, and what lies between two numbers.
#![tactic(auto)]

/// The fraction num / den, not in lowest terms.
#[derive(Clone, Copy)]
pub struct Fraction {
    /// The numerator.
    pub num: u64,
    /// The denominator.
    pub den: u64,
}

/// A quantity lies from lower to upper, both included.
#[derive(Clone, Copy, Default)]
pub struct Bounds {
    /// The quantity is not below it.
    pub lower: u64,
    /// The quantity is not above it.
    pub upper: u64,
}
