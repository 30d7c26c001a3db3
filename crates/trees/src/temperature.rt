//! A temperature on the scale that the factors take: tenths of a degree above -50.0 °C.
ghost use Rattle.std.specs.Prelude.{◌≤◌};
ghost use Rattle.trees.specs.Temperature.{highest_reading};

/// A temperature in range, from -50.0 to 60.0 °C, in tenths of a degree above -50.0 °C.
#[derive(Clone, Copy)]
pub struct Reading {
    /// Tenths of a degree above -50.0 °C.
    pub tenths: u16,
    pub ghost in_range: { tenths ≤ highest_reading },
}
