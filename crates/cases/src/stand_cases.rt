//! Commands, one a line, over six accounts, of which the first ones are the list. `N` takes six
//! fresh ones, `C` says in two digits how many are listed. Two digits after `H` and `F` are a
//! place: `H` sets a field of that account, `F` feeds it alone a line. `L` feeds a line to the
//! list, `P` prints every account.
use crate::answers::Answer;
use crate::digits::u8_at;
use crate::fields::{Fields, with_field};
use crate::input;
use crate::refused::Refused;
use account::Account;
use stand::MOST;
use std::io;
use trial::left_by;

// The count says how many of the six are listed; those past it are set, fed and printed too.
#[derive(Clone, Copy)]
struct Held {
    accounts: [Account; MOST],
    count: usize,
}

// The place that two digits say, and the rest of a command after them.
fn placed(digits: &[u8]) -> (usize, &[u8]) {
    let place = u8_at(digits, 0) as usize;
    (place, digits.get(2..).unwrap_or(digits))
}

impl Held {
    fn new() -> Held {
        Held {
            accounts: [account::fresh(); MOST],
            count: 0,
        }
    }

    // A place past the last account changes none.
    fn put(&mut self, place: usize, account: Account) {
        if let Some(held) = self.accounts.get_mut(place) {
            *held = account;
        }
    }

    // A fresh account past the last one.
    fn account_at(&self, place: usize) -> Account {
        self.accounts
            .get(place)
            .copied()
            .unwrap_or(account::fresh())
    }

    fn set(&mut self, digits: &[u8]) {
        let (place, field) = placed(digits);
        self.put(place, with_field(self.account_at(place), field));
    }

    fn feed_one(&mut self, rt: &impl Print, digits: &[u8]) -> io::Result<()> {
        let (place, line) = placed(digits);
        let answer = account::feed(self.account_at(place), line);
        let left = left_by(answer);
        self.put(place, left);
        println!(rt; "{}: {}", Answer(answer), Fields(left))
    }

    fn feed_list(&mut self, rt: &impl Print, line: &[u8]) -> io::Result<()> {
        match stand::feed_first(&mut self.accounts, self.count, line) {
            Ok(()) => println!(rt; "accepted"),
            Err(refusal) => println!(rt; "{}", Refused(refusal)),
        }
    }

    fn show(&self, rt: &impl Print) -> io::Result<()> {
        for account in &self.accounts {
            println!(rt; "{}", Fields(*account))?;
        }
        Ok(())
    }

    fn obey(&mut self, rt: &impl Print, command: &[u8]) -> io::Result<()> {
        let Some((letter, rest)) = command.split_first() else {
            return Ok(());
        };
        match *letter {
            b'N' => *self = Held::new(),
            b'C' => self.count = u8_at(rest, 0) as usize,
            b'H' => self.set(rest),
            b'F' => self.feed_one(rt, rest)?,
            b'L' => self.feed_list(rt, rest)?,
            b'P' => self.show(rt)?,
            _ => (),
        }
        Ok(())
    }
}

/// Feeds lines to a list of accounts, and to an account alone, as the commands say.
pub(crate) fn print_answers(rt: &impl Print, commands: &[u8]) -> io::Result<()> {
    let mut held = Held::new();
    input::for_each_line(commands, |command| held.obey(rt, command))
}
