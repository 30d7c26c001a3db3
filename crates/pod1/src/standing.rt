//! `stand FILE HEADER..`: one text's lines for one to six accounts ("Several trees, one reading").
//! Prints a line for each account, in the order of the headers; or the row, with the line or the
//! header, of a refusal; or row 22 where there is no header or more than six.
use crate::stopped::Stopped;
use crate::{headers, input, output};
use account::Account;
use frames::Refusal;
use report::lines;
use std::env::Env;
use std::rt::Files;

fn print_account(rt: &impl Print, held: Account) {
    output::print_line(rt, |line| report::format(held, line));
}

fn print_accounts(rt: &impl Print, accounts: &[Account]) {
    for account in accounts {
        print_account(rt, *account);
    }
}

fn put_stopped(stopped: Stopped, buf: &mut [u8]) -> Result<usize, Refusal> {
    match stopped {
        Stopped::Call(refusal) => lines::put_refused(frames::row_of(refusal), buf),
        Stopped::Header { refusal, header } => {
            lines::put_header_refused(frames::row_of(refusal), header, buf)
        },
        Stopped::Line(stop) => lines::put_refusal(frames::row_of(stop.refusal), stop.line, buf),
    }
}

fn print_stopped(rt: &impl Print, stopped: Stopped) {
    output::print_line(rt, |line| put_stopped(stopped, line));
}

// An account for each header, fed the text.
// A text longer than what is read of it: no account takes more lines than a book does, so the first
// that is refused, with the three lines that may be passed over before it, stands within what is
// read.
fn feed(rt: &impl Env, text: &[u8], accounts: &mut [Account]) -> Result<(), Stopped> {
    if accounts.is_empty() {
        return Err(Stopped::Call(Refusal::ListSize));
    }
    headers::open_all(rt, accounts)?;
    stand::feed_text(accounts, text).map_err(Stopped::Line)
}

fn print_stand(rt: &(impl Env + Print), text: &[u8], count: usize) {
    let mut six = [account::fresh(); stand::MOST];
    let Some(accounts) = six.get_mut(..count) else {
        return print_stopped(rt, Stopped::Call(Refusal::ListSize));
    };
    match feed(rt, text, accounts) {
        Ok(()) => print_accounts(rt, accounts),
        Err(stopped) => print_stopped(rt, stopped),
    }
}

/// A file that cannot be read prints nothing.
pub(crate) fn print_answer(rt: &(impl Env + Files + Print)) -> Option<()> {
    let count = input::word_count(rt).checked_sub(3)?;
    let mut buf = input::text_buffer();
    let text = input::read_named(rt, 2, &mut buf)?;
    print_stand(rt, text, count);
    Some(())
}
