//! What the worst stretch of a season text gives ("The worst stretch of days"), as numbers.
ghost use Rattle.std.specs.Prelude.{◌≡◌};
ghost use Rattle.stretch.specs.Worst.{stretch_as};
ghost use Rattle.stored.specs.Stretching.{no_stretch, stretch_of};

use crate::answers;
use stretch::{NoStretch, WorstDays};

/// The worst stretch, or its refusal and zeros.
#[repr(C)]
#[derive(Clone, Copy, Default)]
pub struct StretchNumbers {
    /// 0, or the row that refuses the text, or row 20 or 21.
    pub code: u32,
    /// 1, or 0 where there is no stretch yet or the call is refused.
    pub found: u32,
    /// The line that is refused, from 1; 0 for none.
    pub line: u64,
    /// The highest lower AOT40, tenths of ppb h.
    pub sum: u32,
    /// Its earliest first day, a day of the year.
    pub day: u32,
}

fn no_stretch(code: u32, line: u64) -> StretchNumbers
    ensures { result ≡ no_stretch code line }
{
    StretchNumbers {
        code,
        line,
        ..StretchNumbers::default()
    }
}

/// What the worst stretch gives, as numbers.
pub fn stretch_of(stretch: Result<Option<WorstDays>, NoStretch>) -> StretchNumbers
    ensures { result ≡ stretch_of (stretch_as stretch) }
{
    match stretch {
        Ok(Some(worst)) => StretchNumbers {
            found: 1,
            sum: worst.sum,
            day: worst.day as u32,
            ..StretchNumbers::default()
        },
        Ok(None) => no_stretch(0, 0),
        Err(NoStretch::Stopped(stop)) => {
            no_stretch(frames::row_of(stop.refusal) as u32, stop.line)
        },
        Err(NoStretch::Refused(refusal)) => no_stretch(answers::code_of(refusal), 0),
    }
}
