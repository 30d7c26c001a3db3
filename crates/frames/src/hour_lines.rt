//! The hour that a line of kind 02, 04 or 05 says, many characters at a time ("Frames"). The shape
//! is for speed: a loop of 16 turns with no branch is compiled to vectors. A line that does not go
//! this way goes through `frames::parse`.
ghost use Rattle.std.specs.Prelude.{◌≡◌, List, ℕ, ◌+◌, ◌*◌, ◌≤◌, ◌<◌, length, ◌==◌, slice_index};
ghost use Rattle.frames.specs.Frames.{parsed_of};
ghost use Rattle.frames.specs.Read.{hour_read_of};
ghost use Rattle.frames.specs.steps.HourLines.{ReadTo, HourOfKind, LengthOf, hour_in};

use crate::widths::{DEFICIT_KIND, HUMIDITY_KIND, HourLine, PRESSURE_KIND, PressureLine};
use crate::{Air, Raw, RawHour, Refusal, digits, layout};

// Of the 16 characters from a place on: whether all are digits, and the byte that each says with
// the character after it. No branch in the loop, and in `read` one test of three such flags: so the
// loop is compiled to vectors.
fn chunk(line: &[u8], from: usize, bytes: &mut [u8; 16]) -> bool
    requires { from + 17 ≤ length line.now }
    ensures { ReadTo line.now from 16 result bytes.new }
{
    let mut digits = true;
    for i in 0..16 {
        digits = digits & digits::is_digit(line[from + i]);
        let high = digits::digit_value(line[from + i]);
        let low = digits::digit_value(line[from + i + 1]);
        bytes[i] = high * 16 + low;
    }
    digits
}

// The two-byte number whose digits begin at a place of a chunk.
fn number(bytes: &[u8; 16], at: usize) -> u16
    requires { at + 2 < 16 }
    ensures { result ≡ slice_index bytes.now at * 256 + slice_index bytes.now (at + 2) }
{
    u16::from_be_bytes([bytes[at], bytes[at + 2]])
}

// By `crate::parse`, which reads every line. The kind is any byte that `read` is given.
#[tactic(auto, unfolding(crate::specs::Read::hour_read_of))]
fn by_parse(kind: u8, line: &[u8]) -> Option<RawHour>
    ensures { result ≡ hour_read_of kind (parsed_of line.now) }
{
    let Ok(Raw::Hour(h)) = crate::parse(line) else {
        return None;
    };
    (layout::air_kind(h.air) == kind).then_some(h)
}

// The hour of a line of an hour's kind: its first chunk, the one after it, and the one that ends at
// its last digit but one. The kind is the line's byte: an enum of an hour's kinds would be one more
// match from it. `layout` has this match too: a helper for both would need a definition of its own,
// since `air_of` takes the list of a line's numbers.
fn hour_at(kind: u8, a: &[u8; 16], b: &[u8; 16], c: &[u8; 16]) -> RawHour
    ensures { (l : List ℕ) → HourOfKind kind l a.now b.now c.now → result ≡ hour_in kind l }
{
    let last = number(c, 13);
    let vapour = number(b, 8);
    let air = match kind {
        PRESSURE_KIND => Air::Pressure {
            deficit: vapour,
            pressure: last,
        },
        HUMIDITY_KIND => Air::Humidity(vapour),
        _ => Air::Deficit(vapour),
    };
    let soil = if kind == PRESSURE_KIND {
        number(c, 9)
    } else {
        last
    };
    RawHour {
        day: number(a, 2),
        hour: a[6],
        ozone: number(a, 8),
        ppfd: number(a, 12),
        radiation: number(b, 0),
        temperature: number(b, 4),
        air,
        wind: number(b, 12),
        soil,
    }
}

// The digits of a line of an hour's kind, 0 for any other kind: `read` compares a line's length
// with it, and an Option would be one test more.
#[tactic(auto, unfolding(crate::specs::Kinds::length_of))]
fn length_of(kind: u8) -> usize
    ensures { 0 < result → LengthOf kind result }
{
    match kind {
        DEFICIT_KIND | HUMIDITY_KIND => HourLine::DIGITS,
        PRESSURE_KIND => PressureLine::DIGITS,
        _ => 0,
    }
}

/// The hour that a line says, where its kind is the one given; none where the line is refused or of
/// another kind ("Frames"). Any byte may be given as the kind.
pub fn read(kind: u8, line: &[u8]) -> Option<RawHour>
    ensures { result ≡ hour_read_of kind (parsed_of line.now) }
{
    let n = line.len();
    if HourLine::DIGITS <= n && n == length_of(kind) {
        let mut a = [0u8; 16];
        let mut b = [0u8; 16];
        let mut c = [0u8; 16];
        let d = chunk(line, 0, &mut a);
        let e = chunk(line, 16, &mut b);
        let f = chunk(line, n - 17, &mut c);
        if d & e & f & digits::is_digit(line[n - 1]) & (a[0] == kind) {
            return Some(hour_at(kind, &a, &b, &c));
        }
    }
    by_parse(kind, line)
}
