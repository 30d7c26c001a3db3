//! `compare FIRST SECOND TOLERANCE`: two season texts compared ("Two analysers on one mast").
//! Prints the hours whose ozone differs by more than the tolerance and the sum of the differences,
//! then the first such hour's line in the second text; or the text, row and line of a refusal; or
//! row 19.
ghost use Rattle.frames.specs.Answers.{accepted};
ghost use Rattle.frames.specs.Buffer.{Prints};
ghost use Rattle.compare.specs.Comparison.{comparison_as};
ghost use Rattle.pod1.specs.ComparisonLine.{comparison_line};

use crate::{digits, input, output};
use compare::{Differences, NotCompared};
use frames::Refusal;
use report::lines;
use std::env::Env;
use std::rt::Files;

// The first line of an answer.
#[tactic(auto, unfolding(crate::specs::ComparisonLine::comparison_line))]
fn put_comparison(
    answer: Result<Differences, NotCompared>,
    buf: &mut [u8],
) -> Result<usize, Refusal>
    ensures { Prints (accepted (comparison_line (comparison_as answer))) buf.old result buf.new }
{
    match answer {
        Ok(found) => lines::put_pair(u64::from(found.hours), u64::from(found.sum), buf),
        Err(NotCompared::First(stop)) => {
            lines::put_text_refused(1, frames::row_of(stop.refusal), stop.line, buf)
        },
        Err(NotCompared::Second(stop)) => {
            lines::put_text_refused(2, frames::row_of(stop.refusal), stop.line, buf)
        },
        Err(NotCompared::Unlike) => lines::put_refused(frames::row_of(Refusal::Unlike), buf),
    }
}

// The second line: an hour's line out of the second text, where there is one.
fn print_difference(rt: &impl Print, line: &[u8]) {
    if line.is_empty() {
        return;
    }
    let _ = rt.write_all(line);
    let _ = println!(rt; "");
}

fn print_comparison(rt: &impl Print, first: &[u8], second: &[u8], tolerance: u16) {
    let answer = compare::compare(first, second, tolerance);
    output::print_line(rt, |line| put_comparison(answer, line));
    print_difference(rt, compare::first_difference(first, second, tolerance));
}

/// A word that is no number and a file that cannot be read print nothing. A text longer than what
/// is read of it is refused by the same row at the same line, so it has no line to hand back.
pub(crate) fn print_answer(rt: &(impl Env + Files + Print)) -> Option<()> {
    if input::word_count(rt) != 5 {
        return None;
    }
    let tolerance = digits::number_at(rt, 4)?;
    let mut first_buf = input::text_buffer();
    let first = input::read_named(rt, 2, &mut first_buf)?;
    let mut second_buf = input::text_buffer();
    let second = input::read_named(rt, 3, &mut second_buf)?;
    print_comparison(rt, first, second, tolerance);
    Some(())
}
