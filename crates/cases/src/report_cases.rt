//! Cases of a season text. A head is 8 digits of its length and 4 of the buffer's, all capital
//! hexadecimal; the text follows.
use crate::digits::{u16_at, u32_at};
use crate::input;
use crate::refused::Row;
use std::io;

// The report into the front of a buffer of 600 marks: the answer, and the whole buffer; nothing
// where the front is longer.
fn print_case(rt: &impl Print, text: &[u8], room: usize) -> io::Result<()> {
    let mut buf = [b'#'; 600];
    let Some(lent) = buf.get_mut(..room) else {
        return Ok(());
    };
    match report::season_report(text, lent) {
        Ok(n) => print!(rt; "bytes {n} ")?,
        Err(refusal) => print!(rt; "{} ", Row(refusal))?,
    }
    rt.write_all(&buf)?;
    println!(rt; "")
}

fn length_of(head: &[u8]) -> usize {
    u32_at(head, 0) as usize
}

/// Prints the report of each text, and the buffer that it was written into.
pub(crate) fn print_answers(rt: &impl Print, cases: &[u8]) -> io::Result<()> {
    input::for_each_case(cases, length_of, |head, text| {
        print_case(rt, text, u16_at(head, 8) as usize)
    })
}
