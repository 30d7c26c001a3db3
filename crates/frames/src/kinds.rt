//! The number of digits of a line of each kind (rows 1 and 3), by the kind's number. A later kind
//! is one more name in `widths`, where `KINDS` is the last, and one more arm here and in
//! `frame_at`.
ghost use Rattle.std.specs.Prelude.{◌≡◌};
ghost use Rattle.frames.specs.Kinds.{is_length, length_of};

use crate::widths::{
    CEILING_KIND, CeilingLine, DEFICIT_KIND, END_KIND, EndLine, HEADER_KIND, HUMIDITY_KIND,
    HeaderLine, HourLine, KINDS, PARAMETER_KIND, PRESSURE_KIND, ParameterLine, PressureLine,
    WARMTH_KIND, WarmthLine,
};

// The digits of a line of a kind, 0 where there is no such kind: no line that is read has 0 digits,
// so one comparison is enough.
#[tactic(auto, unfolding(crate::specs::Kinds::length_of))]
pub(crate) fn length_of(kind: u8) -> usize
    ensures { result ≡ length_of kind }
{
    match kind {
        HEADER_KIND => HeaderLine::DIGITS,
        DEFICIT_KIND => HourLine::DIGITS,
        END_KIND => EndLine::DIGITS,
        PRESSURE_KIND => PressureLine::DIGITS,
        HUMIDITY_KIND => HourLine::DIGITS,
        CEILING_KIND => CeilingLine::DIGITS,
        PARAMETER_KIND => ParameterLine::DIGITS,
        WARMTH_KIND => WarmthLine::DIGITS,
        _ => 0,
    }
}

// Whether some kind has lines of so many digits.
pub(crate) fn is_length(digits: usize) -> bool
    ensures { result ≡ is_length digits }
{
    (1..KINDS + 1).any(|kind| length_of(kind) == digits)
}
