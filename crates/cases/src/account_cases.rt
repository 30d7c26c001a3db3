//! Commands, one a line: `N` takes a fresh account, `A` and 84, 148 or 172 digits the account with
//! these fields, `F` and a line feeds that line. After each the account is read. An empty line says
//! nothing.
mod written;

use crate::answers::Answer;
use crate::input;
use crate::refused::Refused;
use account::Account;
use std::io;
use trial::left_by;
use written::account_of;

// The account's line by the formatter, or row 13.
fn print_line(rt: &impl Print, held: Account) -> io::Result<()> {
    let mut line = [0; 128];
    match report::format(held, &mut line) {
        Ok(n) => rt.write_all(&line[..n]),
        Err(refusal) => println!(rt; "{}", Refused(refusal)),
    }
}

fn feed(rt: &impl Print, held: &mut Account, line: &[u8]) -> io::Result<()> {
    let answer = account::feed(*held, line);
    *held = left_by(answer);
    print!(rt; "{}: ", Answer(answer))
}

fn obey(rt: &impl Print, held: &mut Account, command: &[u8]) -> io::Result<()> {
    let Some((letter, rest)) = command.split_first() else {
        return Ok(());
    };
    match *letter {
        b'N' => *held = account::fresh(),
        b'A' => *held = account_of(rest),
        b'F' => feed(rt, held, rest)?,
        _ => return Ok(()),
    }
    print_line(rt, *held)
}

/// Feeds and reads accounts as the commands say.
pub(crate) fn print_answers(rt: &impl Print, commands: &[u8]) -> io::Result<()> {
    let mut held = account::fresh();
    input::for_each_line(commands, |command| obey(rt, &mut held, command))
}
