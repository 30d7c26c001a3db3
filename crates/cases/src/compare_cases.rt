//! Cases of two season texts. A head is 8 digits of the first text's length, 8 of the second's and
//! 4 of the tolerance, all capital hexadecimal; the two texts follow.
use crate::digits::{u16_at, u32_at};
use crate::input;
use crate::refused::Row;
use compare::{Differences, NotCompared, Stop};
use frames::Refusal;
use std::io;

fn print_differences(rt: &impl Print, found: Differences) -> io::Result<()> {
    print!(rt; "differ {} {}", found.hours, found.sum)?;
    match found.first {
        None => print!(rt; " none"),
        Some(line) => { print!(rt; " {} {}", line.start, line.end) },
    }
}

// With the text's number, 1 or 2.
fn print_stop(rt: &impl Print, text: u64, stop: Stop) -> io::Result<()> {
    print!(rt;
        "text {text} row {} line {}",
        frames::row_of(stop.refusal),
        stop.line
    )
}

fn print_comparison(
    rt: &impl Print,
    comparison: Result<Differences, NotCompared>,
) -> io::Result<()> {
    match comparison {
        Ok(found) => print_differences(rt, found),
        Err(NotCompared::First(stop)) => print_stop(rt, 1, stop),
        Err(NotCompared::Second(stop)) => print_stop(rt, 2, stop),
        Err(NotCompared::Unlike) => { print!(rt; "{}", Row(Refusal::Unlike)) },
    }
}

fn print_case(rt: &impl Print, first: &[u8], second: &[u8], tolerance: u16) -> io::Result<()> {
    print_comparison(rt, compare::compare(first, second, tolerance))?;
    print!(rt; " [")?;
    rt.write_all(compare::first_difference(first, second, tolerance))?;
    println!(rt; "]")
}

fn length_of(head: &[u8]) -> usize {
    u32_at(head, 0) as usize + u32_at(head, 8) as usize
}

/// Compares the two texts of each case, and prints the answer and the line handed back.
pub(crate) fn print_answers(rt: &impl Print, cases: &[u8]) -> io::Result<()> {
    input::for_each_case(cases, length_of, |head, texts| {
        match texts.split_at_checked(u32_at(head, 0) as usize) {
            Some((first, second)) => print_case(rt, first, second, u16_at(head, 16)),
            None => Ok(()),
        }
    })
}
