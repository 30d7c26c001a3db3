//! Temperatures in tenths of °C, and their two bytes in two's complement.
ghost use Rattle.std.specs.Prelude.{◌≡◌};
ghost use Rattle.frames.specs.Temperature.{signed_of, complement_of};

/// The temperature in tenths of °C that two bytes say ("Frames").
pub fn signed(n: u16) -> i16
    ensures { result ≡ signed_of n }
{
    n.cast_signed()
}

/// The two bytes that say a temperature in tenths of °C ("Frames").
pub fn complement(t: i16) -> u16
    ensures { result ≡ complement_of t }
{
    t.cast_unsigned()
}
