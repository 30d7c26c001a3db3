//! Cases of a season text. A head is 8 digits of its length, 4 of N, 4 of the buffer's length and 2
//! of the byte that fills it before, all capital hexadecimal; the text follows. The length FFFFFFFF
//! stands for the text of the case before.
use crate::digits::{u8_at, u16_at, u32_at};
use crate::input;
use crate::refused::Row;
use std::io;
use stretch::{NoStretch, WorstDays};

fn print_stretch(rt: &impl Print, found: Result<Option<WorstDays>, NoStretch>) -> io::Result<()> {
    match found {
        Ok(Some(worst)) => { print!(rt; "found {} {}", worst.sum, worst.day) },
        Ok(None) => print!(rt; "none yet"),
        Err(NoStretch::Stopped(stop)) => {
            print!(rt;
                "refused {} line {}",
                frames::row_of(stop.refusal),
                stop.line
            )
        },
        Err(NoStretch::Refused(refusal)) => { print!(rt; "{}", Row(refusal)) },
    }
}

// How many bytes in a row, from a place on, are a given one.
fn run_of(buf: &[u8], from: usize, byte: u8) -> usize {
    buf.iter().skip(from).take_while(|b| **b == byte).count()
}

// The stretch by the front of a buffer: the answer, the zeros that the buffer starts with, and the
// bytes after them that are as before; nothing where the front is longer than the buffer.
fn print_case(rt: &impl Print, text: &[u8], head: &[u8]) -> io::Result<()> {
    let mark = u8_at(head, 16);
    let mut buf = [mark; 4096];
    let Some(scratch) = buf.get_mut(..u16_at(head, 12) as usize) else {
        return Ok(());
    };
    print_stretch(rt, stretch::worst_stretch(text, u16_at(head, 8), scratch))?;
    let zeros = run_of(&buf, 0, 0);
    println!(rt; " {zeros} {}", run_of(&buf, zeros, mark))
}

// None for the text of the case before.
fn new_length(head: &[u8]) -> Option<usize> {
    let said = u32_at(head, 0);
    (said != u32::MAX).then_some(said as usize)
}

fn length_of(head: &[u8]) -> usize {
    new_length(head).unwrap_or(0)
}

/// Prints the worst stretch of each text, and what is left in the buffer lent for it.
pub(crate) fn print_answers(rt: &impl Print, cases: &[u8]) -> io::Result<()> {
    let mut text: &[u8] = b"";
    input::for_each_case(cases, length_of, |head, new| {
        if new_length(head).is_some() {
            text = &*new;
        }
        print_case(rt, text, head)
    })
}
