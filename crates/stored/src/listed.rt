//! A list of accounts in a lent buffer of bytes, one after the other, that takes each line
//! together, or not at all ("Several trees, one reading").
ghost use Rattle.std.specs.Prelude.{◌≡◌, length};
ghost use Rattle.stored.specs.InBytes.{count_in, list_in};
ghost use Rattle.stored.specs.Feeding.{FeedsListed};
ghost use Rattle.stored.specs.Promise.{ListedPromise};
ghost use Rattle.stored.specs.steps.Listed.{taken_as, StoresAll};

use crate::SIZE;
use account::Account;
use frames::Refusal;
use stand::MOST;

// The accounts that bytes hold, into as many: row 13 where the bytes of one hold none. Each
// account's place in the bytes is computed, here and below: after an adapter of iter_mut (zip,
// enumerate) std says nothing of the slice's values, and a rest of the bytes, cut by SIZE each
// turn, would be one more variable of each loop.
fn take_up_all(accounts: &mut [Account], bytes: &[u8]) -> Result<(), Refusal>
    requires { length accounts.old ≡ count_in bytes.now }
    ensures { taken_as result accounts.new ≡ list_in bytes.now }
{
    for i in 0..accounts.len() {
        accounts[i] = crate::take_up(&bytes[SIZE * i..])?;
    }
    Ok(())
}

// As many accounts as a buffer has room for into its first bytes.
fn store_all(accounts: &[Account], bytes: &mut [u8])
    requires { length accounts.now ≡ count_in bytes.old }
    ensures { StoresAll accounts.now bytes.old bytes.new }
{
    for (i, account) in accounts.iter().enumerate() {
        let _ = crate::store(*account, &mut bytes[SIZE * i..]);
    }
}

/// Feeds a line to the accounts of a buffer, 88 bytes each ("Several trees, one reading"); bytes
/// behind the last whole account are not looked at. Refused, in this order, by row 22 (no account,
/// or more than six), 13 (the bytes of one hold none), then those of a list. The buffer is
/// unchanged where a row refuses.
pub fn feed_all(accounts: &mut [u8], line: &[u8]) -> Result<(), Refusal>
    ensures feeds_listed { FeedsListed accounts.old line.now result accounts.new }
    ensures promise { ListedPromise }
{
    let count = accounts.len() / SIZE;
    if (count == 0) | (MOST < count) {
        return Err(Refusal::ListSize);
    }
    let mut six = [account::fresh(); MOST];
    let listed = &mut six[..count];
    take_up_all(listed, accounts)?;
    stand::feed_all(listed, line)?;
    store_all(listed, accounts);
    Ok(())
}
