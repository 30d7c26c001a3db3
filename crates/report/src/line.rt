//! The lines of the report: a season's figures, a month's, or the first refusal. A row is the
//! number that is printed.
ghost use Rattle.std.specs.Prelude.{◌≡◌, ◌+◌, ◌≤◌, [], ◌∷◌, ◌++◌, length, codes};
ghost use Rattle.text_spec.specs.Lines.{line_feed};
ghost use Rattle.text_spec.specs.Text.{decimal, space, text_in};
ghost use Rattle.text_spec.specs.Line.{totals_line};
ghost use Rattle.text_spec.specs.Months.{month_line};
ghost use Rattle.text_spec.specs.Season.{refusal_line};
ghost use Rattle.text_spec.specs.steps.Report.{figures_before};
ghost use Rattle.report.specs.Calls.{phrase};

use crate::text::{LINE_END, byte_before, number_before};
use account_spec::{Sums, Totals};
use text_spec::Text;

// A word before the text.
pub(crate) fn word_before(t: Text, word: &[u8]) -> Text
    requires room { length word.now ≤ t.at }
    ensures text { text_in result ≡ word.now ++ text_in t }
    ensures room { result.at + length word.now ≡ t.at }
{
    let mut made = t;
    for c in word.iter().rev() {
        made = byte_before(made, *c);
    }
    made
}

// A word and a number before the text.
pub(crate) fn phrase_before(t: Text, word: &[u8], n: u64) -> Text
    requires room { 20 + length word.now ≤ t.at }
    ensures text { text_in result ≡ phrase word.now n (text_in t) }
    ensures room { t.at ≤ result.at + 20 + length word.now }
{
    word_before(number_before(t, n), word)
}

// A number and a space before the text.
pub(crate) fn column_before(t: Text, n: u64) -> Text
    requires room { 21 ≤ t.at }
    ensures text { text_in result ≡ decimal n (space ∷ text_in t) }
    ensures room { t.at ≤ result.at + 21 }
{
    number_before(byte_before(t, b' '), n)
}

// Counted hours, lower, upper and AOT40's lower number before the text.
fn figures_before(t: Text, sums: Sums) -> Text
    requires room { 84 ≤ t.at }
    ensures text { text_in result ≡ figures_before sums (text_in t) }
    ensures room { t.at ≤ result.at + 84 }
{
    let least = column_before(t, u64::from(sums.least));
    let upper = column_before(least, sums.upper);
    let lower = column_before(upper, sums.lower);
    column_before(lower, u64::from(sums.counted))
}

// Hours, counted hours, lower, upper, AOT40's lower and upper, and verdict.
#[tactic(auto, unfolding(text_spec::specs::Line::totals_line))]
pub(crate) fn of_totals(t: Totals) -> Text
    ensures text { text_in result ≡ totals_line t }
{
    let word = account_spec::word_of(t.verdict).as_bytes();
    let sums = t.sums;
    let end = word_before(LINE_END, word);
    let most = column_before(end, u64::from(sums.most));
    column_before(figures_before(most, sums), u64::from(sums.hours))
}

// Month number, counted hours, lower, upper, AOT40's lower and upper.
#[tactic(auto, unfolding(text_spec::specs::Months::month_line))]
pub(crate) fn of_month(month: u16, sums: Sums) -> Text
    ensures text { text_in result ≡ month_line month sums }
{
    let most = number_before(LINE_END, u64::from(sums.most));
    column_before(figures_before(most, sums), u64::from(month))
}

// `refused N`, a word and a place's number.
pub(crate) fn refused_at(row: u8, word: &[u8], place: u64) -> Text
    requires room { length word.now ≤ 8 }
    ensures text { text_in result
        ≡ phrase (codes "refused ") row (phrase word.now place (line_feed ∷ [])) }
    ensures room { 26 ≤ result.at }
{
    phrase_before(
        phrase_before(LINE_END, word, place),
        b"refused ",
        u64::from(row),
    )
}

// `refused N line L`
pub(crate) fn of_refusal(row: u8, line: u64) -> Text
    ensures text { text_in result ≡ refusal_line row line }
    ensures room { 26 ≤ result.at }
{
    refused_at(row, b" line ", line)
}
