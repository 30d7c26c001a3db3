//! Records and hours that their own rows let pass ("Turned-back lines").
ghost use Rattle.std.specs.Prelude.{◌≡◌};
ghost use Rattle.frames.specs.Answers.{accepted};
ghost use Rattle.frames.specs.Ranges.{checked};
ghost use Rattle.frames.specs.declared.records.Record.{Record};

use crate::records::{Hour, Record};

/// A record that its own rows let pass: 5 to 8 of a header, 10 of an hour, 17 of a ceiling, 24 of
/// parameters, 25 of warmth.
#[derive(Clone, Copy)]
pub struct Checked {
    /// The record.
    pub record: Record,
    pub ghost passes: { checked «record» ≡ accepted tt },
}

/// An hour that row 10 lets pass, its soil in whichever measure.
#[derive(Clone, Copy)]
pub struct Passed {
    /// The hour.
    pub hour: Hour,
    pub ghost passes: { checked (Record.Hour hour) ≡ accepted tt },
}
