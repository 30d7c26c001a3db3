//! The report of the season text on standard input ("Report").
use crate::{input, output};

/// The first 360,328 bytes decide the report of a text of any length (`ReportPromise.bounded`); no
/// more than the buffer takes are read. A read that fails prints nothing.
pub(crate) fn print_report(rt: &(impl Input + Print)) -> Option<()> {
    let mut text = input::text_buffer();
    let mut lines = [0; 600];
    let n = input::fill(&mut rt.reader(), &mut text)?;
    let written = report::season_report(output::front(&text, n), &mut lines);
    output::print_written(rt, &lines, written);
    Some(())
}
