//! Commands, one a line, over two accounts that are held. `N` makes both fresh, `C` and four digits
//! sets the counted hours of both, `F` and a line feeds both; `L` and a line feeds the first; `G`,
//! a day, an hour and seven floats' bits feeds the second; `A` prints both. `F`, `L` and `G` print
//! the answers.
mod bits;

use crate::answers::Answer;
use crate::digits::{u8_at, u16_at};
use crate::fields::Fields;
use crate::input;
use account::{Account, Fed};
use bits::readings_at;
use std::io;
use trial::left_by;

#[derive(Clone, Copy)]
struct Held {
    lines: Account,
    floats: Account,
}

// Prints an answer, and takes the account that it leaves.
fn leave(rt: &impl Print, held: &mut Account, answer: Fed) -> io::Result<()> {
    *held = left_by(answer);
    println!(rt; "{}", Answer(answer))
}

impl Held {
    fn new() -> Held {
        Held {
            lines: account::fresh(),
            floats: account::fresh(),
        }
    }

    fn set_counted(&mut self, n: u16) {
        self.lines.sums.counted = n;
        self.floats.sums.counted = n;
    }

    fn feed_line(&mut self, rt: &impl Print, line: &[u8]) -> io::Result<()> {
        let answer = account::feed(self.lines, line);
        leave(rt, &mut self.lines, answer)
    }

    fn feed_both(&mut self, rt: &impl Print, line: &[u8]) -> io::Result<()> {
        self.feed_line(rt, line)?;
        let answer = account::feed(self.floats, line);
        leave(rt, &mut self.floats, answer)
    }

    fn feed_floats(&mut self, rt: &impl Print, digits: &[u8]) -> io::Result<()> {
        let day = u16_at(digits, 0);
        let hour = u8_at(digits, 4);
        let answer = floats::feed_floats(self.floats, day, hour, readings_at(digits));
        leave(rt, &mut self.floats, answer)
    }

    fn show(&self, rt: &impl Print) -> io::Result<()> {
        println!(rt; "{}", Fields(self.lines))?;
        println!(rt; "{}", Fields(self.floats))
    }

    fn obey(&mut self, rt: &impl Print, command: &[u8]) -> io::Result<()> {
        let Some((letter, rest)) = command.split_first() else {
            return Ok(());
        };
        match *letter {
            b'N' => *self = Held::new(),
            b'C' => self.set_counted(u16_at(rest, 0)),
            b'F' => self.feed_both(rt, rest)?,
            b'L' => self.feed_line(rt, rest)?,
            b'G' => self.feed_floats(rt, rest)?,
            b'A' => self.show(rt)?,
            _ => (),
        }
        Ok(())
    }
}

/// Feeds one account lines and another floats, as the commands say.
pub(crate) fn print_answers(rt: &impl Print, commands: &[u8]) -> io::Result<()> {
    let mut held = Held::new();
    input::for_each_line(commands, |command| held.obey(rt, command))
}
