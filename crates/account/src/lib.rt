//! The season account ("Account", "The book"): a fresh one, feeding it a line, reading it, and the
//! rows of a frame in its turn.
#![tactic(auto)]

mod adding;
mod limits;
mod possible;
mod reading;
pub mod sums;
pub mod turns;

ghost use Rattle.std.specs.Prelude.{◌≡◌};
ghost use Rattle.frames.specs.Answers.{row_of, outcome_of};
ghost use Rattle.frames.specs.Checked.{checked_as};
ghost use Rattle.account_spec.specs.Account.{fresh_account};
ghost use Rattle.account_spec.specs.Rules.{out_of_turn, turn_of, answer_of, state_of};
ghost use Rattle.account_spec.specs.Rules.{feed_frame_of, feed_of, unread_row, Answers, Feeds};
ghost use Rattle.account_spec.specs.Timely.{timely_of};
ghost use Rattle.account_spec.specs.Promise.{SeasonPromise};
ghost use Rattle.account_spec.specs.FillingPromise.{FillingPromise};
ghost use Rattle.account.specs.steps.Account.{possible_as};

use account_spec::State;
pub use account_spec::{
    Account, Carried, Fed, HourKind, Phase, Possible, Season, Sums, Totals, Verdict,
};
pub use adding::enter;
use frames::{Checked, Raw, RawHour, Refusal};
pub use possible::{impossible, tested};
pub use reading::{read, totals};
pub use turns::{kind_number, phase_number};

/// An account before its season ("Account"): header fields, ceiling, parameters, warmth and sums 0.
pub fn fresh() -> Account
    ensures value { result ≡ fresh_account }
    ensures season { SeasonPromise }
    ensures filling { FillingPromise }
{
    Account::default()
}

/// A fresh account, as one that row 13 lets pass.
pub fn start() -> Possible
    ensures { result.account ≡ fresh_account }
{
    Possible { account: fresh() }
}

/// The answer to a line: a refusal comes with the account that it refuses.
pub fn answered(account: Account, fed: Result<Possible, Refusal>) -> Fed
    ensures { Answers account (possible_as fed) result }
{
    match fed {
        Ok(next) => Ok(next.account),
        Err(refusal) => Err((refusal, account)),
    }
}

/// The next account of one that takes a frame, which rows 1 to 3 let pass, or the first row that
/// refuses it, as `decoded` has them ("Turned-back lines").
pub fn feed_possible(held: Possible, frame: Raw) -> Result<Possible, Refusal>
    ensures { possible_as result ≡ feed_frame_of held.account frame }
{
    let read = turns::decode(State::from(held.account), frame)?;
    Ok(adding::enter(held, read))
}

// The record of a line, or the row that refuses it, 1 to 3 first. Row 13 is not tested.
fn read_line(account: Account, line: &[u8]) -> Result<Checked, Refusal>
    ensures { checked_as result ≡ answer_of (state_of account) line.now }
{
    turns::decode(State::from(account), frames::parse(line)?)
}

/// The same of a line, its characters given without a line feed: rows 1 (a length that no kind
/// has), 2 (a character is no digit) and 3 (the kind is not one of the length) come first.
pub fn feed_line(held: Possible, line: &[u8]) -> Result<Possible, Refusal>
    ensures { possible_as result ≡ feed_of held.account line.now }
{
    Ok(adding::enter(held, read_line(held.account, line)?))
}

/// The next account of one that takes a frame, which rows 1 to 3 let pass, or the row that refuses
/// it with the account as it was ("Account"): 13 (no season gives the account), then 4 (out of
/// turn), then the rows of the frame's kind, as `decoded` has them.
pub fn feed_frame(account: Account, frame: Raw) -> Fed
    ensures { Answers account (feed_frame_of account frame) result }
{
    let Some(held) = possible::tested(account) else {
        return Err((Refusal::Account, account));
    };
    let decoded = turns::decode(State::from(held.account), frame);
    let Ok(read) = decoded else {
        let Err(refusal) = decoded else {
            unreachable!()
        };
        return Err((refusal, account));
    };
    Ok(adding::enter(held, read).account)
}

/// The record of a frame, or the first row that refuses it ("Turned-back lines"): 4 (out of turn);
/// of a header 5 to 8; of an hour 15 (another kind than the first hour's), 9 (not the hour due), 18
/// (no ozone and no ceiling), 10 (a reading out of range, with its field); of an end 11 (the count,
/// or hours still due); of a ceiling 17; of parameters 24 and 7 (the ramps); of warmth 25. Row 13
/// is not tested.
pub fn decoded(account: Account, frame: Raw) -> Result<Checked, Refusal>
    ensures { checked_as result ≡ turn_of (state_of account) frame }
{
    turns::decode(State::from(account), frame)
}

/// Whether a frame is out of turn: row 4 alone.
pub fn out_of_turn(account: Account, frame: Raw) -> bool
    ensures { result ≡ out_of_turn (state_of account) frame }
{
    turns::out_of_turn(State::from(account), frame)
}

/// The rows of an hour that look at no reading, in this order: 13 (no season gives the account), 4
/// (out of turn), 15 (another kind than the first hour's), 9 (not the hour due).
#[tactic(auto, unfolding(account_spec::specs::Timely::timely_in, account_spec::specs::Timely::timely_of))]
pub fn timely(account: Account, raw: RawHour) -> Result<(), Refusal>
    ensures { outcome_of result ≡ timely_of account raw }
{
    if possible::impossible(account) {
        return Err(Refusal::Account);
    }
    turns::timely(State::from(account), raw)
}

/// The refusal of a line that rows 1 to 3 refuse: row 13 where no season gives the account, else
/// the refusal given.
pub fn refused_by(account: Account, refusal: Refusal) -> Refusal
    ensures { row_of result ≡ unread_row account (row_of «refusal») }
{
    if possible::impossible(account) {
        return Refusal::Account;
    }
    refusal
}

/// The next account of one that takes a line, its characters given without a line feed, or the row
/// that refuses it with the account as it was ("Account", "Turned-back lines"): 13 (no season gives
/// the account), 1 (a length that no kind has), 2 (a character is no digit), 3 (the kind is not one
/// of the length), then the rows of `decoded`.
pub fn feed(account: Account, line: &[u8]) -> Fed
    ensures { Feeds account line.now result }
{
    let Some(held) = possible::tested(account) else {
        return Err((Refusal::Account, account));
    };
    let decoded = read_line(held.account, line);
    let Ok(read) = decoded else {
        let Err(refused) = decoded else {
            unreachable!()
        };
        return Err((refused, account));
    };
    Ok(adding::enter(held, read).account)
}
