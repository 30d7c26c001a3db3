//! Several accounts of one stand, one after the other in a buffer ("Several trees, one reading").
ghost use Rattle.stored.specs.Promise.{ListedPromise};
ghost use Rattle.part.specs.Lists.{FeedsAllBytes};

use stored::{answers, listed};

/// Feeds a line, without a line feed, to one to six accounts, 88 bytes each: all take it, or none
/// ("Several trees, one reading"). Refused, in this order, by row 22 (no account, or more than
/// six), 13 (the bytes of one hold none, or one that no season gives), 23 (two are unlike), then by
/// the row of the first account that refuses the line. The buffer is unchanged where a row refuses.
#[unsafe(no_mangle)]
pub extern "C" fn pod1_feed_all(accounts: &mut [u8], line: &[u8]) -> u32
    ensures feeds_all_bytes { FeedsAllBytes accounts.old line.now result accounts.new }
    ensures promise { ListedPromise }
{
    answers::of_answer(listed::feed_all(accounts, line))
}
