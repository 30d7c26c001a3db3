//! An account for each header.
use crate::input;
use crate::stopped::Stopped;
use account::Account;
use frames::Refusal;
use std::env::Env;

// A header's line, and behind commas those that belong to it, fed to a fresh account.
fn open_by(word: &[u8]) -> Result<Account, Refusal> {
    let mut held = account::fresh();
    for line in word.split(|b| *b == b',') {
        held = account::feed(held, line).map_err(|(refusal, _)| refusal)?;
    }
    Ok(held)
}

// By the program's word at a place.
fn open_at(rt: &impl Env, place: usize) -> Result<Account, Refusal> {
    let mut buf = input::word_buffer();
    open_by(input::word_at(rt, place, &mut buf))
}

/// The program's words from place 3 on are the headers, six at most.
pub(crate) fn open_all(rt: &impl Env, accounts: &mut [Account]) -> Result<(), Stopped> {
    for (header, account) in (1u8..=6).zip(accounts.iter_mut()) {
        *account = open_at(rt, usize::from(header) + 2).map_err(|refusal| Stopped::Header {
            refusal,
            header: u64::from(header),
        })?;
    }
    Ok(())
}
