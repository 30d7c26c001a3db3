//! Commands, one a line: a letter, a tree's number and another number, of two digits each, and a
//! frame's line. `R` reads the line for the tree; `C` changes the character at the place that the
//! other number says; `W` writes the frame's record into so many bytes, its soil in the tree's
//! measure, and reads it back for the tree; `T` is `W` with an ozone of FFFF as a number. Each
//! command is printed before its answer.
mod changes;
mod records;
mod unchecked;
mod writing;

use crate::digits::u8_at;
use crate::input;
use changes::print_marks;
use records::print_reading;
use std::io;
use writing::print_writing;

fn obey(rt: &impl Print, command: &[u8]) -> io::Result<()> {
    if command.len() < 5 {
        return Ok(());
    }
    let (head, line) = command.split_at(5);
    let tree = u8_at(head, 1);
    let n = u8_at(head, 3) as usize;
    rt.write_all(command)?;
    match head[0] {
        b'R' => print_reading(rt, tree, line)?,
        b'C' => print_marks(rt, tree, line, n)?,
        letter => print_writing(rt, tree, letter == b'T', line, n)?,
    }
    println!(rt; "")
}

/// Reads, changes and writes frames as the commands say.
pub(crate) fn print_answers(rt: &impl Print, commands: &[u8]) -> io::Result<()> {
    input::for_each_line(commands, |command| obey(rt, command))
}
