//! What comparing two season texts gives ("Two analysers on one mast"), as numbers: a row and a
//! text as C is told them.
ghost use Rattle.std.specs.Prelude.{◌≡◌};
ghost use Rattle.compare.specs.Comparison.{comparison_as};
ghost use Rattle.stored.specs.Comparing.{differing, not_compared, compared_of};

use compare::{Differences, LinePlace, NotCompared};
use frames::Refusal;

/// The figures of a comparison, or its refusal and zeros.
#[repr(C)]
#[derive(Clone, Copy, Default)]
pub struct ComparisonNumbers {
    /// 0, or the row that refuses a text, or row 19.
    pub code: u32,
    /// The text that is refused, 1 or 2; 0 for none.
    pub text: u32,
    /// Its line, from 1; 0 for none.
    pub line: u64,
    /// The hours whose ozone differs by more than the tolerance.
    pub hours: u32,
    /// The sum of the differences over counted hours, tenths of ppb.
    pub sum: u32,
    /// Where the line of the first such hour begins in the second text; 0 for none.
    pub start: u64,
    /// The place past that line's last byte; 0 for none.
    pub end: u64,
}

fn differing(found: Differences, line: LinePlace) -> ComparisonNumbers
    ensures { result ≡ differing found.hours found.sum (line.start, line.end) }
{
    ComparisonNumbers {
        hours: found.hours as u32,
        sum: found.sum,
        start: line.start as u64,
        end: line.end as u64,
        ..ComparisonNumbers::default()
    }
}

fn not_compared(row: u8, text: u8, line: u64) -> ComparisonNumbers
    ensures { result ≡ not_compared row text line }
{
    ComparisonNumbers {
        code: row as u32,
        text: text as u32,
        line,
        ..ComparisonNumbers::default()
    }
}

/// What comparing gives, as numbers.
pub fn comparison_of(comparison: Result<Differences, NotCompared>) -> ComparisonNumbers
    ensures { result ≡ compared_of (comparison_as comparison) }
{
    match comparison {
        Ok(found) => differing(found, found.first.unwrap_or_default()),
        Err(NotCompared::First(stop)) => not_compared(frames::row_of(stop.refusal), 1, stop.line),
        Err(NotCompared::Second(stop)) => not_compared(frames::row_of(stop.refusal), 2, stop.line),
        Err(NotCompared::Unlike) => not_compared(frames::row_of(Refusal::Unlike), 0, 0),
    }
}
