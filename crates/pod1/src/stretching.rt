//! `stretch DAYS FILE`: the worst stretch of a season text ("The worst stretch of days"). Prints
//! its AOT40 and its first day; `none yet`; or the row, and the line, of a refusal.
ghost use Rattle.frames.specs.Answers.{accepted};
ghost use Rattle.frames.specs.Buffer.{Prints};
ghost use Rattle.stretch.specs.Worst.{stretch_as};
ghost use Rattle.pod1.specs.StretchLine.{stretch_line};

use crate::{digits, input, output};
use frames::Refusal;
use report::lines;
use std::env::Env;
use std::rt::Files;
use stretch::{NoStretch, WorstDays};

#[tactic(auto, unfolding(crate::specs::StretchLine::stretch_line))]
fn put_stretch(
    answer: Result<Option<WorstDays>, NoStretch>,
    buf: &mut [u8],
) -> Result<usize, Refusal>
    ensures { Prints (accepted (stretch_line (stretch_as answer))) buf.old result buf.new }
{
    match answer {
        Ok(Some(worst)) => lines::put_pair(u64::from(worst.sum), u64::from(worst.day), buf),
        Ok(None) => lines::put_none_yet(buf),
        Err(NoStretch::Stopped(stop)) => {
            lines::put_refusal(frames::row_of(stop.refusal), stop.line, buf)
        },
        Err(NoStretch::Refused(refusal)) => lines::put_refused(frames::row_of(refusal), buf),
    }
}

// The scratch has room for the most days, so row 21 does not come up.
fn print_stretch(rt: &impl Print, text: &[u8], days: u16) {
    let mut scratch = [0; 1098];
    let answer = stretch::worst_stretch(text, days, &mut scratch);
    output::print_line(rt, |line| put_stretch(answer, line));
}

/// A word that is no number and a file that cannot be read print nothing. A text longer than what
/// is read of it is refused by the same row at the same line.
pub(crate) fn print_answer(rt: &(impl Env + Files + Print)) -> Option<()> {
    if input::word_count(rt) != 4 {
        return None;
    }
    let days = digits::number_at(rt, 2)?;
    let mut buf = input::text_buffer();
    let text = input::read_named(rt, 3, &mut buf)?;
    print_stretch(rt, text, days);
    Some(())
}
