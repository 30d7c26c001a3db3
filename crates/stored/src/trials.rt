//! A trial in a lent buffer of bytes ("Trials"), so that it can be stored and taken up again. The
//! bytes are the same on every machine; behind each name stands its width:
//!
//! code 2 (field, row) | tried account 88 | account that would follow 88: 178 bytes
ghost use Rattle.std.specs.Prelude.{◌≡◌, [], ◌≤◌, ◌<◌, length};
ghost use Rattle.std.proofs.lemmas.List.Edits.{sets};
ghost use Rattle.frames.specs.Answers.{accepted, outcome_of};
ghost use Rattle.frames.specs.Buffer.{Prints};
ghost use Rattle.account_spec.specs.Rules.{fed_as, left_by};
ghost use Rattle.account_spec.specs.Reading.{Reads};
ghost use Rattle.stored.specs.Packing.{big_endian, big_endian_at};
ghost use Rattle.stored.specs.Code.{code_of, coded_as, coded_of};
ghost use Rattle.stored.specs.TrialLayout.{contents_of, code_width, trial_width, trial_bytes};
ghost use Rattle.stored.specs.TrialLayout.{contents_in, HoldsTrial};
ghost use Rattle.stored.specs.TrialRoundTrip.{TrialTakenUp, TrialStoredBack};

use crate::answers;
use account_spec::{Account, Fed};
use frames::Refusal;
use trial::Trial;

/// The bytes of a trial.
pub const SIZE: usize = NEXT + crate::SIZE;

// Where the two accounts start.
const TRIED: usize = 2;

const NEXT: usize = TRIED + crate::SIZE;

// ---- storing

// An answer's code into the first two bytes, the field first.
fn put_code(answer: Fed, buffer: &mut [u8])
    requires { code_width ≤ length buffer.old }
    ensures is { buffer.new
        ≡ sets buffer.old 0 (big_endian code_width (code_of (fed_as answer)) []) }
    ensures small { code_of (fed_as answer) < 65536 }
{
    buffer[..TRIED].copy_from_slice(&answers::of_fed(answer).to_be_bytes());
}

/// Stores a trial into the first 178 bytes of a lent buffer, and answers 178. Row 12: the buffer is
/// shorter. The bytes behind them, and on a refusal all bytes, stay as they were.
pub fn store(trial: Trial, buffer: &mut [u8]) -> Result<usize, Refusal>
    ensures prints { Prints (accepted (trial_bytes (contents_of trial)))
        buffer.old result buffer.new }
    ensures back { outcome_of result ≡ accepted trial_width → TrialTakenUp trial }
{
    // A test, and not `first_chunk_mut`: the laws say both parts by the length of what is left.
    if buffer.len() < SIZE {
        return Err(Refusal::Buffer);
    }
    put_code(trial.answer, buffer);
    let _ = crate::store(trial.tried, &mut buffer[TRIED..]);
    let next = trial::left_by(trial.answer);
    let _ = crate::store(next, &mut buffer[NEXT..]);
    Ok(SIZE)
}

// ---- taking up

// The answer that a code names, where it is one.
fn named_in(code: &[u8; TRIED]) -> Option<Result<(), Refusal>>
    ensures { coded_as result ≡ coded_of (big_endian_at code_width 0 code.now) }
{
    answers::answer_of(u16::from_be_bytes(*code))
}

// The answer with this name, which leaves this account. A match: of `map` with `map_err` the check
// does not find which account is left.
fn answer_with(named: Result<(), Refusal>, next: Account) -> Fed
    ensures code { code_of (fed_as result) ≡ code_of (outcome_of named) }
    ensures next { left_by result ≡ next }
{
    match named {
        Ok(()) => Ok(next),
        Err(refusal) => Err((refusal, next)),
    }
}

// The trial of an account that got this answer.
#[inline(never)]
fn with_reading(tried: Account, answer: Fed) -> Trial
    ensures is { (result.tried ≡ tried) × (result.answer ≡ answer) }
    ensures reading { Reads (left_by answer) result.reading }
{
    let next = trial::left_by(answer);
    let reading = account::read(next);
    Trial {
        tried,
        answer,
        reading,
    }
}

/// The trial in the first 178 bytes of a slice; its reading is worked out anew. Row 13: there are
/// fewer bytes, or they hold no trial.
#[inline(never)]
pub fn take_up(bytes: &[u8]) -> Result<Trial, Refusal>
    ensures holds { HoldsTrial (contents_in bytes.now) result }
    ensures same { TrialStoredBack bytes.now }
{
    let Some((code, accounts)) = bytes.split_first_chunk::<TRIED>() else {
        return Err(Refusal::Account);
    };
    let named = named_in(code).ok_or(Refusal::Account)?;
    let tried = crate::take_up(accounts)?;
    let next = crate::take_up(&accounts[crate::SIZE..])?;
    Ok(with_reading(tried, answer_with(named, next)))
}
