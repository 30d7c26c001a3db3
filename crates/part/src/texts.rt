//! Whole season texts: the report ("Report"), the comparison of two ("Two analysers on one mast"),
//! "The worst stretch of days".
ghost use Rattle.std.specs.Prelude.{◌≡◌};
ghost use Rattle.frames.specs.Answers.{accepted};
ghost use Rattle.text_spec.specs.Season.{report_of};
ghost use Rattle.text_spec.specs.Promise.{ReportPromise};
ghost use Rattle.compare.specs.Comparison.{compare_of};
ghost use Rattle.compare.specs.Promise.{ComparePromise};
ghost use Rattle.stretch.specs.Promise.{StretchPromise};
ghost use Rattle.stretch.specs.Day.{DayPromise};
ghost use Rattle.stored.specs.Comparing.{compared_of};
ghost use Rattle.part.specs.Calls.{PrintsBytes};
ghost use Rattle.part.specs.Stretch.{TellsWorst};

use stored::answers::Printed;
use stored::{ComparisonNumbers, StretchNumbers, answers};

/// Writes the report of a season text to the front of a lent buffer ("Report"). Row 12: the buffer
/// is shorter than the report, and stays as it was.
#[unsafe(no_mangle)]
pub extern "C" fn pod1_report(text: &[u8], buffer: &mut [u8]) -> Printed
    ensures prints_bytes { PrintsBytes (accepted (report_of text.now))
        buffer.old result buffer.new }
    ensures promise { ReportPromise }
{
    answers::printed_of(report::season_report(text, buffer))
}

/// Compares two texts that are alike but for ozone, by a tolerance in tenths of ppb ("Two analysers
/// on one mast"). Refused by the row and line of the first text, then of the second, then by row 19
/// (the texts are unlike, or an ozone is missing).
#[unsafe(no_mangle)]
pub extern "C" fn pod1_compare(first: &[u8], second: &[u8], tolerance: u16) -> ComparisonNumbers
    ensures value { result ≡ compared_of (compare_of first.now second.now tolerance) }
    ensures promise { ComparePromise }
{
    let comparison = compare::compare(first, second, tolerance);
    stored::comparison_of(comparison)
}

/// The highest lower AOT40 of so many days in a row ("The worst stretch of days"). Refused by row
/// 20 (the days are not 1 to 366), then 21 (the scratch is under 3 bytes a day), then by the text's
/// row and line. The first 3 scratch bytes a day are zero after any answer but rows 20 and 21.
#[unsafe(no_mangle)]
pub extern "C" fn pod1_worst_stretch(text: &[u8], days: u16, scratch: &mut [u8]) -> StretchNumbers
    ensures tells_worst { TellsWorst text.now days scratch.old result scratch.new }
    ensures promise { StretchPromise }
    ensures day { DayPromise }
{
    let stretch = stretch::worst_stretch(text, days, scratch);
    stored::stretch_of(stretch)
}
