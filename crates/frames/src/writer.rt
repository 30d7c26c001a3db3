//! The writer of frames ("Frames"): a record to its line in a lent buffer.
ghost use Rattle.frames.specs.Buffer.{Prints};
ghost use Rattle.frames.specs.Writer.{text_of};
ghost use Rattle.frames.specs.RoundTrip.{RoundTrip};

use crate::{Record, Refusal, writing};

/// Writes a record's line to the front of a lent buffer, without a line feed, and answers its
/// length in bytes ("Frames"). Refused by the rows of `check` (5 to 8, 10 with its field, 17, 24 or
/// 25) and then by 12 (the buffer is shorter than the line). The bytes behind the line, and on a
/// refusal all bytes, stay as they were.
#[tactic(auto, using(crate::proofs::RoundTrip::round_trip), unfolding(crate::specs::Writer::text_of))]
pub fn write_frame(record: Record, buf: &mut [u8]) -> Result<usize, Refusal>
    ensures prints { Prints (text_of «record») buf.old result buf.new }
    ensures round_trip { RoundTrip }
{
    crate::check(record)?;
    writing::put(record, buf)
}
