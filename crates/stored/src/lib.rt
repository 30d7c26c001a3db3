//! An account in a lent buffer of bytes ("Promises"), so that it can be stored and taken up again;
//! several of them, a trial, and the answers of calls as numbers. The bytes are the same on every
//! machine; behind each name stands its width:
//!
//! version 1 | phase 1 | kind 1 | hours 2 | counted 2 | missing 2 | lower 8 | upper 8 | least 4
//! | most 4 | sum 4 | total 2 | tree 1 | days 2 | first 2 | last 2 | level 2 | ceiling 2 | rise 2
//! | fall 2 | end 2 | sixteen parameters, 2 each: 88 bytes
#![tactic(auto)]

pub mod answers;
mod big_endian;
mod comparing;
pub mod listed;
mod storing;
mod stretching;
mod taking;
pub mod trials;

ghost use Rattle.std.specs.Prelude.{◌≡◌};
ghost use Rattle.frames.specs.Answers.{accepted, outcome_of};
ghost use Rattle.frames.specs.Buffer.{Prints};
ghost use Rattle.stored.specs.Layout.{account_bytes, take_up_of};
ghost use Rattle.stored.specs.RoundTrip.{TakenUp, StoredBack};

use account_spec::Account;
pub use comparing::{ComparisonNumbers, comparison_of};
use frames::Refusal;
pub use stretching::{StretchNumbers, stretch_of};

/// The bytes of an account.
pub(crate) const SIZE: usize = 88;

/// This layout's version, byte 0 of an account.
pub(crate) const VERSION: u8 = 1;

/// Stores an account into the first 88 bytes of a lent buffer, and answers 88. Row 12: the buffer
/// is shorter. The bytes behind them, and on a refusal all bytes, stay as they were.
pub fn store(account: Account, buffer: &mut [u8]) -> Result<usize, Refusal>
    ensures prints { Prints (accepted (account_bytes account)) buffer.old result buffer.new }
    ensures back { TakenUp account }
{
    let Some(front) = buffer.first_chunk_mut::<SIZE>() else {
        return Err(Refusal::Buffer);
    };
    storing::put_front(front, account);
    storing::put_season(front, account.season);
    Ok(SIZE)
}

/// The account in the first 88 bytes of a slice. Row 13: there are fewer bytes, or they are of
/// another layout's version or of no account. An account that no season gives is taken up all the
/// same.
pub fn take_up(bytes: &[u8]) -> Result<Account, Refusal>
    ensures result_value { outcome_of result ≡ take_up_of bytes.now }
    ensures same { StoredBack bytes.now }
{
    let Some(front) = bytes.first_chunk::<SIZE>() else {
        return Err(Refusal::Account);
    };
    taking::account_in(front)
}
