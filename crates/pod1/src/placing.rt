//! `place TREE YEAR LEVEL LATITUDE HEIGHT`: the header of a place ("Dates from a place"). Prints
//! its line, or the row that refuses it.
use crate::{digits, input, output};
use frames::{Header, Record, Refusal};
use report::lines;
use std::env::Env;

// The header that the words' numbers ask for. A tree's number is the greatest of 8 bits for any
// that is greater. None where a word is no number.
fn header_of(rt: &impl Env) -> Option<Result<Header, Refusal>> {
    let tree = digits::number_at(rt, 2)?;
    let days = digits::number_at(rt, 3)?;
    let level = digits::number_at(rt, 4)?;
    let latitude = digits::number_at(rt, 5)?;
    let height = digits::number_at(rt, 6)?;
    Some(dates::header_at(
        u8::try_from(tree).unwrap_or(u8::MAX),
        days,
        level,
        latitude,
        height,
    ))
}

fn print_header(rt: &impl Print, header: Header) {
    output::print_line(rt, |line| {
        frames::write_frame(Record::Header(header), line)
    });
    let _ = println!(rt; "");
}

fn print_refused(rt: &impl Print, refusal: Refusal) {
    output::print_line(rt, |line| lines::put_refused(frames::row_of(refusal), line));
}

/// A word that is no number prints nothing.
pub(crate) fn print_answer(rt: &(impl Env + Print)) -> Option<()> {
    if input::word_count(rt) != 7 {
        return None;
    }
    match header_of(rt)? {
        Ok(header) => print_header(rt, header),
        Err(refusal) => print_refused(rt, refusal),
    }
    Some(())
}
