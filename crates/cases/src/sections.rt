//! A section is a head, which is a line, and the cases of one kind: their name, a space, and the
//! number of their bytes in eight hexadecimal digits. The name is printed on a line before what the
//! cases answer.
use crate::digits::u32_at;
use crate::{
    account_cases, compare_cases, dates_cases, dose_cases, floats_cases, frames_cases, input,
    power_cases, report_cases, stand_cases, stretch_cases, trial_cases,
};
use std::io;

// A name and the digits after its space; no name where the head is too short for both.
fn parts_of(head: &[u8]) -> (&[u8], &[u8]) {
    let (name, digits) = head.split_at(head.len().saturating_sub(9));
    (name, digits.get(1..).unwrap_or_default())
}

fn length_of(head: &[u8]) -> usize {
    u32_at(parts_of(head).1, 0) as usize
}

fn print_section(rt: &impl Print, head: &[u8], cases: &[u8]) -> io::Result<()> {
    let (name, _) = parts_of(head);
    rt.write_all(name)?;
    println!(rt; "")?;
    match name {
        b"account" => account_cases::print_answers(rt, cases),
        b"compare" => compare_cases::print_answers(rt, cases),
        b"dates" => dates_cases::print_answers(rt, cases),
        b"dose" => dose_cases::print_answers(rt, cases),
        b"floats" => floats_cases::print_answers(rt, cases),
        b"frames" => frames_cases::print_answers(rt, cases),
        b"power" => power_cases::print_answers(rt, cases),
        b"report" => report_cases::print_answers(rt, cases),
        b"stand" => stand_cases::print_answers(rt, cases),
        b"stretch" => stretch_cases::print_answers(rt, cases),
        b"trial" => trial_cases::print_answers(rt, cases),
        _ => Ok(()),
    }
}

/// Of a name that is none of these nothing more is printed.
pub(crate) fn print_sections(rt: &impl Print, text: &[u8]) -> io::Result<()> {
    input::for_each_case(text, length_of, |head, cases| {
        print_section(rt, head, cases)
    })
}
