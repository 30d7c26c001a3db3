//! Rows of tree (two hexadecimal digits), days in the year, level, latitude and height (four each),
//! with single spaces; the answer for each row on a line of its own: the header's first and last
//! day and its line, or the row that refuses it.
use crate::digits::{u8_at, u16_at};
use crate::input;
use crate::refused::Row;
use frames::{Header, Record};
use std::io;

fn print_header(rt: &impl Print, header: Header) -> io::Result<()> {
    print!(rt; "{} {} ", header.first, header.last)?;
    let mut line = [b'.'; 20];
    match frames::write_frame(Record::Header(header), &mut line) {
        Ok(_) => rt.write_all(&line)?,
        Err(refusal) => print!(rt; "{}", Row(refusal))?,
    }
    println!(rt; "")
}

fn print_row(rt: &impl Print, row: &[u8]) -> io::Result<()> {
    let placed = dates::header_at(
        u8_at(row, 0),
        u16_at(row, 3),
        u16_at(row, 8),
        u16_at(row, 13),
        u16_at(row, 18),
    );
    match placed {
        Ok(header) => print_header(rt, header),
        Err(refusal) => println!(rt; "{}", Row(refusal)),
    }
}

/// Prints the header of each place, or why it is refused.
pub(crate) fn print_answers(rt: &impl Print, rows: &[u8]) -> io::Result<()> {
    input::for_each_line(rows, |row| print_row(rt, row))
}
