//! "Trials": what a line would do to an account, before it counts, and taking it.
#![tactic(auto)]

ghost use Rattle.std.specs.Prelude.{◌≡◌};
ghost use Rattle.account_spec.specs.Rules.{left_by};
ghost use Rattle.trial.specs.Same.{is_same};
ghost use Rattle.trial.specs.Trial.{Tries};
ghost use Rattle.trial.specs.Taking.{TakesTrial};
ghost use Rattle.trial.specs.Promise.{TrialPromise};

use account_spec::{Account, Fed, Possible, Totals};
use frames::Refusal;

/// What a line would do to an account ("Trials"). It is plain data, and any may be handed in.
#[derive(Clone, Copy)]
pub struct Trial {
    /// The account tried.
    pub tried: Account,
    /// The answer that feeding the line would give, with the account that would follow.
    pub answer: Fed,
    /// The reading that would follow; row 13 where no season gives the account.
    pub reading: Result<Totals, Refusal>,
}

/// The account that an answer leaves: the next one, or where the line is refused the one as it was.
pub fn left_by(answer: Fed) -> Account
    ensures { result ≡ left_by answer }
{
    match answer {
        Ok(next) => next,
        Err((_, same)) => same,
    }
}

// The trial of a line on an account that row 13 lets pass.
fn try_possible(held: Possible, line: &[u8]) -> Trial
    ensures { Tries held.account line.now result }
{
    let fed = account::feed_line(held, line);
    let left = fed.unwrap_or(held);
    Trial {
        tried: held.account,
        answer: account::answered(held.account, fed),
        reading: Ok(account::totals(left)),
    }
}

/// What feeding a line to an account would answer, and the reading that would follow ("Trials").
/// The line's characters are given without a line feed. The account is by value, and stays as it
/// is; where no season gives it, answer and reading are row 13.
pub fn try_line(account: Account, line: &[u8]) -> Trial
    ensures { Tries account line.now result }
{
    let Some(held) = account::tested(account) else {
        return Trial {
            tried: account,
            answer: Err((Refusal::Account, account)),
            reading: Err(Refusal::Account),
        };
    };
    try_possible(held, line)
}

// Whether row 16 lets an account pass: it is the tried one in every field, each nested one too. A
// call of its own: written out where it is used, the derived comparison takes 17 kB more.
#[inline(never)]
#[tactic(auto, unfolding(crate::specs::Same::is_same))]
fn same(a: &Account, b: &Account) -> bool
    ensures { result ≡ is_same a.now b.now }
{
    a == b
}

/// The next account of one that takes a trial, whoever made it, or the row that refuses it with the
/// account as it was ("Trials"): 13 (no season gives the account), 16 (the account differs from the
/// tried one), then what the trial carries: its refusal, row 13 where no season gives the account
/// that it carries, or that account.
#[tactic(auto, using(crate::proofs::Cited::promise_cited))]
#[inline(never)]
pub fn take(account: Account, trial: Trial) -> Fed
    ensures takes_trial { TakesTrial account trial result }
    ensures promise { TrialPromise }
{
    if account::impossible(account) {
        return Err((Refusal::Account, account));
    }
    if !same(&account, &trial.tried) {
        return Err((Refusal::Tried, account));
    }
    match trial.answer {
        Ok(next) if account::impossible(next) => Err((Refusal::Account, account)),
        Ok(next) => Ok(next),
        Err((refusal, _)) => Err((refusal, account)),
    }
}
