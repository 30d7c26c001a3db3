//! The account that an answer gives, over the bytes of the one before.
ghost use Rattle.std.specs.Prelude.{◌≡◌, ◌≤◌, length};
ghost use Rattle.std.specs.Result.{ForOk};
ghost use Rattle.frames.specs.Answers.{outcome_of};
ghost use Rattle.account_spec.specs.Rules.{fed_as};
ghost use Rattle.stored.specs.Packing.{total_width};
ghost use Rattle.stored.specs.Layout.{widths};
ghost use Rattle.part.specs.Calls.{LeavesBytes};

use account_spec::{Account, Fed};
use frames::Refusal;
use stored::answers;

// The next account that an answer gives.
pub(crate) fn next_by(fed: Fed) -> Result<Account, Refusal>
    ensures { outcome_of result ≡ fed_as fed }
{
    fed.map_err(|(refusal, _)| refusal)
}

// The next account, stored over the one in a buffer that has room for it, or the code of a refusal.
// Three calls take up, step and leave in two statements each: a helper for all would take the step
// as a closure, and need a contract about what it ensures.
pub(crate) fn leave(next: Result<Account, Refusal>, account: &mut [u8]) -> u32
    requires { ForOk next (λ _. total_width widths ≤ length account.old) }
    ensures { LeavesBytes account.old (outcome_of next) result account.new }
{
    match next {
        Ok(a) => answers::of_answer(stored::store(a, account)),
        Err(refusal) => answers::code_of(refusal),
    }
}
