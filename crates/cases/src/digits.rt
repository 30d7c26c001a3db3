//! The numbers that capital hexadecimal digits in a line say. A byte that is no digit and a place
//! past the line's end say 0, each in its own place, so this is no `from_str_radix`.
ghost use Rattle.std.specs.Prelude.{◌+◌, ◌^◌, ◌≤◌, ◌<◌, ◌≡◌, slice_index};
ghost use Rattle.frames.specs.Digits.{value_of};
ghost use Rattle.frames.specs.Temperature.{signed_of};
ghost use Rattle.cases.specs.Digits.{hex_at};

fn value(c: u8) -> u8
    ensures { result ≡ value_of c }
{
    if frames::is_digit(c) {
        frames::digit_value(c)
    } else {
        0
    }
}

// What the digit i places after `at` says.
fn digit(line: &[u8], at: usize, i: usize) -> u8
    ensures { result ≡ value_of (slice_index line.now (at + i)) }
{
    value(line.get(at.saturating_add(i)).copied().unwrap_or(0))
}

// What n digits from a place on say.
fn number(line: &[u8], at: usize, n: usize) -> u64
    requires { n ≤ 16 }
    ensures value { result ≡ hex_at n at line.now }
    ensures upper_bound { result < 16 ^ n }
{
    let mut said: u64 = 0;
    for i in 0..n {
        said = said * 16 + digit(line, at, i) as u64;
    }
    said
}

/// What two digits from a place on say.
pub(crate) fn u8_at(line: &[u8], at: usize) -> u8
    ensures { result ≡ hex_at 2 at line.now }
{
    number(line, at, 2) as u8
}

/// What four digits from a place on say.
pub(crate) fn u16_at(line: &[u8], at: usize) -> u16
    ensures { result ≡ hex_at 4 at line.now }
{
    number(line, at, 4) as u16
}

/// What four digits from a place on say in two's complement.
pub(crate) fn i16_at(line: &[u8], at: usize) -> i16
    ensures { result ≡ signed_of (hex_at 4 at line.now) }
{
    frames::signed(u16_at(line, at))
}

/// What eight digits from a place on say.
pub(crate) fn u32_at(line: &[u8], at: usize) -> u32
    ensures { result ≡ hex_at 8 at line.now }
{
    number(line, at, 8) as u32
}

/// What sixteen digits from a place on say.
pub(crate) fn u64_at(line: &[u8], at: usize) -> u64
    ensures { result ≡ hex_at 16 at line.now }
{
    number(line, at, 16)
}
