//! The lines of a report ("Report") and of the other calls' answers ("The command"), each written
//! to the front of a lent buffer with its line feed; the answer is its length in bytes. Row 12: the
//! buffer is shorter than the line, and then nothing is written. Any number may be handed over as a
//! row, a line, a text or a header.
ghost use Rattle.std.specs.Prelude.{◌≡◌, ◌++◌};
ghost use Rattle.frames.specs.Answers.{accepted};
ghost use Rattle.frames.specs.Buffer.{Prints};
ghost use Rattle.text_spec.specs.Line.{totals_line};
ghost use Rattle.text_spec.specs.Months.{month_line};
ghost use Rattle.text_spec.specs.Season.{refusal_line};
ghost use Rattle.text_spec.specs.Text.{text_in};
ghost use Rattle.report.specs.Calls.{pair_line, none_yet_line, refused_line, header_refused_line};
ghost use Rattle.report.specs.Calls.{text_refused_line};

use crate::{calls, line, text};
use account_spec::{Sums, Totals};
use frames::Refusal;
use text_spec::Text;

/// The line of an account's figures.
pub(crate) fn put_totals(totals: Totals, buf: &mut [u8]) -> Result<usize, Refusal>
    ensures { Prints (accepted (totals_line totals)) buf.old result buf.new }
{
    text::put(line::of_totals(totals), buf)
}

/// The line of a month's number and sums ("Month totals").
pub(crate) fn month_line(month: u16, sums: Sums) -> Text
    ensures text { text_in result ≡ month_line month sums }
{
    line::of_month(month, sums)
}

/// The line of a season's figures, and the month lines given after it.
pub(crate) fn put_season(totals: Totals, months: &[u8], buf: &mut [u8]) -> Result<usize, Refusal>
    ensures { Prints (accepted (totals_line totals ++ months.now)) buf.old result buf.new }
{
    text::put_both(line::of_totals(totals), months, buf)
}

/// `refused N line L`: a text refused by a row at a line.
pub fn put_refusal(row: u8, line: u64, buf: &mut [u8]) -> Result<usize, Refusal>
    ensures { Prints (accepted (refusal_line row line)) buf.old result buf.new }
{
    text::put(line::of_refusal(row, line), buf)
}

/// `A B`: two numbers.
pub fn put_pair(a: u64, b: u64, buf: &mut [u8]) -> Result<usize, Refusal>
    ensures { Prints (accepted (pair_line a b)) buf.old result buf.new }
{
    text::put(calls::of_pair(a, b), buf)
}

/// `none yet`: there is no answer yet.
pub fn put_none_yet(buf: &mut [u8]) -> Result<usize, Refusal>
    ensures { Prints (accepted (none_yet_line)) buf.old result buf.new }
{
    text::put(calls::of_none_yet(), buf)
}

/// `refused N`: a call refused by a row.
pub fn put_refused(row: u8, buf: &mut [u8]) -> Result<usize, Refusal>
    ensures { Prints (accepted (refused_line row)) buf.old result buf.new }
{
    text::put(calls::of_refused(row), buf)
}

/// `refused N header H`: a header refused by a row, its place counted from 1.
pub fn put_header_refused(row: u8, header: u64, buf: &mut [u8]) -> Result<usize, Refusal>
    ensures { Prints (accepted (header_refused_line row header)) buf.old result buf.new }
{
    text::put(calls::of_header_refused(row, header), buf)
}

/// `text T refused N line L`: one of two texts, 1 or 2, refused by a row at a line.
pub fn put_text_refused(text: u8, row: u8, line: u64, buf: &mut [u8]) -> Result<usize, Refusal>
    ensures { Prints (accepted (text_refused_line text row line)) buf.old result buf.new }
{
    text::put(calls::of_text_refused(text, row, line), buf)
}
