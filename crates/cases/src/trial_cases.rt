//! Commands, one a line, over an account and a trial that are held. `H` sets a field of the
//! account, `F` and a line feeds it; `T` and a line tries it; `K` takes the trial. `P` sets a field
//! of the account tried, `Q` makes the answer an acceptance and sets a field of its account, `R`
//! makes it a refusal, `V` makes the reading row 13. `T`, `F` and `K` print.
mod forged;
mod printing;

use crate::fields::with_field;
use crate::input;
use account::{Account, Fed};
use printing::{Answered, print_trial};
use std::io;
use trial::Trial;

#[derive(Clone, Copy)]
struct Held {
    account: Account,
    made: Trial,
}

impl Held {
    fn new() -> Held {
        let account = account::fresh();
        let made = trial::try_line(account, b"");
        Held { account, made }
    }

    fn try_line(&mut self, rt: &impl Print, line: &[u8]) -> io::Result<()> {
        self.made = trial::try_line(self.account, line);
        print_trial(rt, self.made)
    }

    // Prints an answer, and takes the account that it leaves.
    fn leave(&mut self, rt: &impl Print, answer: Fed) -> io::Result<()> {
        self.account = trial::left_by(answer);
        println!(rt; "{}", Answered(answer))
    }

    fn obey(&mut self, rt: &impl Print, command: &[u8]) -> io::Result<()> {
        let Some((letter, rest)) = command.split_first() else {
            return Ok(());
        };
        match *letter {
            b'H' => self.account = with_field(self.account, rest),
            b'F' => self.leave(rt, account::feed(self.account, rest))?,
            b'T' => self.try_line(rt, rest)?,
            b'K' => self.leave(rt, trial::take(self.account, self.made))?,
            b'P' => self.made = forged::with_tried(self.made, rest),
            b'Q' => self.made = forged::with_acceptance(self.made, rest),
            b'R' => self.made = forged::with_refusal(self.made, rest),
            b'V' => self.made = forged::without_reading(self.made),
            _ => (),
        }
        Ok(())
    }
}

/// Tries lines and takes trials, made and forged, as the commands say.
pub(crate) fn print_answers(rt: &impl Print, commands: &[u8]) -> io::Result<()> {
    let mut held = Held::new();
    input::for_each_line(commands, |command| held.obey(rt, command))
}
