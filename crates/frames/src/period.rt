//! The hours of a header's accumulation period ("Frames").
ghost use Rattle.std.specs.Prelude.{◌≡◌};
ghost use Rattle.frames.specs.Period.{period_hours, all_given};

use crate::records::Header;

/// The hours from day A hour 0 to day E hour 23; none where E is before A.
pub fn period_hours(h: Header) -> u32
    ensures { result ≡ period_hours h }
{
    if h.last < h.first {
        return 0;
    }
    24 * (((h.last - h.first) as u32) + 1)
}

/// Whether all hours of the period are given, `hours` of them being given ("The book").
pub fn all_given(h: Header, hours: u16) -> bool
    ensures { result ≡ all_given h hours }
{
    (hours as u32) == period_hours(h)
}
