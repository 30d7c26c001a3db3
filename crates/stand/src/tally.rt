//! What is known of a list of accounts and a line after some of them are seen, and the answer once
//! all are.
ghost use Rattle.frames.specs.Answers.{outcome_of};
ghost use Rattle.frames.specs.Checked.{checked_as};
ghost use Rattle.std.specs.Prelude.{◌≡◌, length};
ghost use Rattle.stand.specs.steps.ListSteps.{common_as, tallied_as, tally_start, first_common};
ghost use Rattle.stand.specs.steps.ListSteps.{next_line};
ghost use Rattle.stand.specs.steps.ListSteps.{tallied_line, seen_of, seen_all, fit_of, settled_of};

use crate::MOST;
use crate::alike::{Common, alike, common_of};
use account::Account;
use frames::{Checked, Raw, Refusal};

// Rows 22, 13 and 23, what the first account is compared by where one was seen, and the record that
// all seen so far take, or the first refusal. A flag for each row: an impossible account comes
// before an unlike one, in whichever order they are seen; row 22, by the length alone, stands with
// them so that one function says the order of all. Before the first account is seen, `line` is not
// read: an empty list is row 22. `first` and `line` stand apart: one Option of both would be taken
// apart in `kept`, `line_after` and `answer`.
#[derive(Clone, Copy)]
pub(crate) struct Tally {
    outside: bool,
    impossible: bool,
    unlike: bool,
    first: Option<Common>,
    pub(crate) line: Result<Checked, Refusal>,
}

fn start(n: usize) -> Tally
    ensures { tallied_as result ≡ tally_start n }
{
    Tally {
        outside: (n == 0) | (MOST < n),
        impossible: false,
        unlike: false,
        first: None,
        line: Err(Refusal::ListSize),
    }
}

// What an account is compared with: the first one.
fn first_of(seen: Tally, own: Common) -> Common
    ensures { common_as result ≡ first_common (tallied_as seen) (common_as own) }
{
    seen.first.unwrap_or(own)
}

// What a further account does. It is alike to the first, or row 23 answers: only its turn is its
// own.
fn next_line(
    line: Result<Checked, Refusal>,
    account: Account,
    parsed: Result<Raw, Refusal>,
) -> Result<Checked, Refusal>
    ensures { checked_as result ≡ next_line (outcome_of parsed) (checked_as line) account }
{
    let read = line?;
    match parsed {
        Ok(frame) if account::out_of_turn(account, frame) => Err(Refusal::Turn),
        _ => Ok(read),
    }
}

// The first account reads the line.
fn line_after(
    seen: Tally,
    account: Account,
    parsed: Result<Raw, Refusal>,
) -> Result<Checked, Refusal>
    ensures { checked_as result ≡ tallied_line (outcome_of parsed) (tallied_as seen) account }
{
    match seen.first {
        None => account::decoded(account, parsed?),
        Some(_) => next_line(seen.line, account, parsed),
    }
}

fn tried(seen: Tally, account: Account, parsed: Result<Raw, Refusal>) -> Tally
    ensures { tallied_as result ≡ seen_of (outcome_of parsed) (tallied_as seen) account }
{
    let own = common_of(account);
    let first = first_of(seen, own);
    Tally {
        impossible: seen.impossible | account::impossible(account),
        unlike: seen.unlike | !alike(first, own),
        first: Some(first),
        line: line_after(seen, account, parsed),
        ..seen
    }
}

// Of a whole list and a line.
pub(crate) fn of(accounts: &[Account], parsed: Result<Raw, Refusal>) -> Tally
    ensures { tallied_as result
        ≡ seen_all (outcome_of parsed) (tally_start (length accounts.now)) accounts.now }
{
    let mut seen = start(accounts.len());
    for account in accounts.iter() {
        seen = tried(seen, *account, parsed);
    }
    seen
}

// The rows of the list alone: 22, then 13 and 23.
pub(crate) fn fit(seen: Tally) -> Result<(), Refusal>
    ensures { outcome_of result ≡ fit_of (tallied_as seen) }
{
    if seen.outside {
        return Err(Refusal::ListSize);
    }
    if seen.impossible {
        return Err(Refusal::Account);
    }
    if seen.unlike {
        return Err(Refusal::UnlikeAccounts);
    }
    Ok(())
}

// These, then the row of the line.
pub(crate) fn answer(seen: Tally) -> Result<(), Refusal>
    ensures { outcome_of result ≡ settled_of (tallied_as seen) }
{
    fit(seen)?;
    seen.line?;
    Ok(())
}
