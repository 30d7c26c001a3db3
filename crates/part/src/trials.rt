//! Try a line on the account in a buffer, then take it ("Trials").
ghost use Rattle.frames.specs.Answers.{outcome_of};
ghost use Rattle.std.specs.Prelude.{◌≡◌};
ghost use Rattle.account_spec.specs.Rules.{fed_as};
ghost use Rattle.stored.specs.Code.{code_of};
ghost use Rattle.stored.specs.Reading.{readout_of};
ghost use Rattle.part.specs.Trials.{TriesBytes, taken_from, TakesBytes, TrialBytesPromise};

use crate::leaving::{leave, next_by};
use account_spec::Account;
use frames::Refusal;
use stored::answers;
use stored::answers::Tried;
use trial::Trial;

// What trying answers in numbers. No `From`: both structs are of other crates.
fn tried_of(made: Trial) -> Tried
    ensures { result
        ≡ record {
          code = 0;
          answer = code_of (fed_as made.answer);
          reading = readout_of (outcome_of made.reading);
        } }
{
    Tried {
        code: 0,
        answer: u32::from(answers::of_fed(made.answer)),
        reading: answers::of_reading(made.reading),
    }
}

/// Stores what a line would do to the account in a buffer into the first 178 bytes of another, and
/// answers the line's code and the reading that would follow ("Trials"). Refused by row 13 (the
/// bytes hold no account), then 12 (the other buffer is shorter); it is unchanged where a row
/// refuses.
#[unsafe(no_mangle)]
pub extern "C" fn pod1_trial(account: &[u8], line: &[u8], trial: &mut [u8]) -> Tried
    ensures { TriesBytes account.now line.now trial.old result trial.new }
{
    // One match: a helper would need a definition of its own for its contract about the bytes, and
    // of what the closure of an `and_then` writes into the buffer nothing would reach the clause.
    match stored::take_up(account) {
        Ok(a) => {
            let made = trial::try_line(a, line);
            match stored::trials::store(made, trial) {
                Ok(_) => tried_of(made),
                Err(refusal) => answers::no_trial(answers::code_of(refusal)),
            }
        },
        Err(refusal) => answers::no_trial(answers::code_of(refusal)),
    }
}

// The next account of one that takes the trial in some bytes: row 13 where there is none, then
// those of taking.
fn taken(account: Account, trial: &[u8]) -> Result<Account, Refusal>
    ensures { outcome_of result ≡ taken_from trial.now account }
{
    let t = stored::trials::take_up(trial)?;
    next_by(trial::take(account, t))
}

/// The account in a buffer takes a trial ("Trials"). Refused by row 13 (the bytes hold no account
/// or no trial, or an account that no season gives), then by the rows of `trial::take`. The buffer
/// is unchanged where a row refuses.
#[unsafe(no_mangle)]
pub extern "C" fn pod1_take(account: &mut [u8], trial: &[u8]) -> u32
    ensures takes_bytes { TakesBytes account.old trial.now result account.new }
    ensures promise { TrialBytesPromise }
{
    let next = stored::take_up(account).and_then(|a| taken(a, trial));
    leave(next, account)
}
