//! A frame's record, checked, written into a lent part of a buffer, filled with `.` before, and
//! read back.
use super::records::{Fields, print_reading};
use super::unchecked::record_of;
use crate::refused::Row;
use frames::Record;
use frames::widths::LONGEST;
use std::io;

// Room for any line and four bytes more.
const ROOM: usize = LONGEST + 4;

fn print_checked(rt: &impl Print, record: Record) -> io::Result<()> {
    match frames::check(record) {
        Ok(()) => print!(rt; " sound"),
        Err(refusal) => print!(rt; " {}", Row(refusal)),
    }
}

// The record written into the lent bytes: the line and what it is read back as, or the row.
fn print_written(rt: &impl Print, tree: u8, record: Record, lent: &mut [u8]) -> io::Result<()> {
    match frames::write_frame(record, lent) {
        Ok(n) => {
            let line = lent.get(..n).unwrap_or_default();
            rt.write_all(b" ")?;
            rt.write_all(line)?;
            print_reading(rt, tree, line)
        },
        Err(refusal) => print!(rt; " {}", Row(refusal)),
    }
}

fn print_record(rt: &impl Print, tree: u8, record: Record, room: usize) -> io::Result<()> {
    print!(rt; " {}", Fields(record))?;
    print_checked(rt, record)?;
    let mut buf = [b'.'; ROOM];
    if let Some(lent) = buf.get_mut(..room) {
        print_written(rt, tree, record, lent)?;
    }
    rt.write_all(b" ")?;
    rt.write_all(&buf)
}

/// Rows 1 to 3, else the frame.
pub(crate) fn print_writing(
    rt: &impl Print,
    tree: u8,
    numeric: bool,
    line: &[u8],
    room: usize,
) -> io::Result<()> {
    match frames::parse(line) {
        Ok(raw) => print_record(rt, tree, record_of(tree, numeric, raw), room),
        Err(refusal) => print!(rt; " {}", Row(refusal)),
    }
}
