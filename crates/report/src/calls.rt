//! The lines of the other calls' answers ("The command"). A row or a text is the number that is
//! printed.
ghost use Rattle.std.specs.Prelude.{◌≡◌};
ghost use Rattle.text_spec.specs.Text.{text_in};
ghost use Rattle.report.specs.Calls.{pair_line, none_yet_line, refused_line, header_refused_line};
ghost use Rattle.report.specs.Calls.{text_refused_line};

use crate::line::{column_before, of_refusal, phrase_before, refused_at, word_before};
use crate::text::{LINE_END, byte_before, number_before};
use text_spec::Text;

// `A B`
pub(crate) fn of_pair(a: u64, b: u64) -> Text
    ensures text { text_in result ≡ pair_line a b }
{
    column_before(number_before(LINE_END, b), a)
}

// `none yet`
pub(crate) fn of_none_yet() -> Text
    ensures text { text_in result ≡ none_yet_line }
{
    word_before(LINE_END, b"none yet")
}

// `refused N`
pub(crate) fn of_refused(row: u8) -> Text
    ensures text { text_in result ≡ refused_line row }
{
    phrase_before(LINE_END, b"refused ", u64::from(row))
}

// `refused N header H`
pub(crate) fn of_header_refused(row: u8, header: u64) -> Text
    ensures text { text_in result ≡ header_refused_line row header }
{
    refused_at(row, b" header ", header)
}

// `text T refused N line L`
pub(crate) fn of_text_refused(text: u8, row: u8, line: u64) -> Text
    ensures text { text_in result ≡ text_refused_line text row line }
{
    let refused = of_refusal(row, line);
    phrase_before(byte_before(refused, b' '), b"text ", u64::from(text))
}
