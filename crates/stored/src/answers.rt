//! Answers as numbers, for callers in C and Rust: a code and what it names, and what reading,
//! writing and trying give. A code is 0, or the row that refuses the call ("Turned-back lines")
//! plus 256 times the field that rows 10 and 26 name; where a text's line stops a comparison or a
//! stretch it is the row alone. In each struct a code stands beside its values, and a kind by its
//! number, as C reads them.
ghost use Rattle.std.specs.Prelude.{true, ◌≡◌};
ghost use Rattle.frames.specs.Answers.{accepted, row_of, outcome_of};
ghost use Rattle.account_spec.specs.Rules.{fed_as};
ghost use Rattle.stored.specs.Code.{code_of, code_of_row, is_row, coded_of, coded_as};
ghost use Rattle.stored.specs.CodePromise.{CodePromise};
ghost use Rattle.stored.specs.Reading.{verdict_number, no_readout, readout_of, no_trial};
ghost use Rattle.stored.specs.Writing.{printed_of};

use account_spec::{Fed, Totals, Verdict};
use frames::Refusal;

/// What reading an account gives ("Account"): the figures, or the code of a refusal and zeros.
#[repr(C)]
#[derive(Clone, Copy, Default)]
pub struct Readout {
    /// 0, or the code of the refusal.
    pub code: u32,
    /// The verdict: 0 none, 1 undecided, 2 exceeded, 3 below.
    pub verdict: u32,
    /// The hours accepted.
    pub hours: u32,
    /// The counted ones among them.
    pub counted: u32,
    /// Those of the counted ones that are without ozone.
    pub missing: u32,
    /// AOT40's lower figure, tenths of ppb h.
    pub least: u32,
    /// AOT40's upper figure, tenths of ppb h.
    pub most: u32,
    /// POD1 is not below it, nmol m⁻².
    pub lower: u64,
    /// POD1 is not above it, nmol m⁻².
    pub upper: u64,
}

/// What writing gives: the bytes written, or the code of a refusal and 0.
#[repr(C)]
#[derive(Clone, Copy)]
pub struct Printed {
    /// 0, or the code of the refusal.
    pub code: u32,
    /// The bytes written.
    pub length: u64,
}

/// What trying a line gives ("Trials"): what would follow, or the code of a refusal and zeros.
#[repr(C)]
#[derive(Clone, Copy, Default)]
pub struct Tried {
    /// 0, or the code of the refusal of the call.
    pub code: u32,
    /// The code that feeding the line would give.
    pub answer: u32,
    /// The reading that would follow.
    pub reading: Readout,
}

// The field that rows 10 and 26 name; 0 for any other row, as a code has it.
fn field_of(refusal: Refusal) -> u8
    ensures { result ≡ (row_of «refusal»).1 }
{
    match refusal {
        Refusal::Range(field) | Refusal::Float(field) => field,
        _ => 0,
    }
}

// A refusal's code in 16 bits.
fn short_code(refusal: Refusal) -> u16
    ensures { result ≡ code_of_row (row_of «refusal») }
{
    (frames::row_of(refusal) as u16) + 256 * (field_of(refusal) as u16)
}

/// The code of a refusal: its row, and 256 times the field that rows 10 and 26 name.
pub fn code_of(refusal: Refusal) -> u32
    ensures { result ≡ code_of_row (row_of «refusal») }
{
    short_code(refusal) as u32
}

// The code of an answer in 16 bits, whatever it gives.
fn short_of<T: Copy>(answer: Result<T, Refusal>) -> u16
    ensures { result ≡ code_of (outcome_of answer) }
{
    match answer {
        Ok(_) => 0,
        Err(refusal) => short_code(refusal),
    }
}

/// The code of the answer to a line, in 16 bits: 0 where it is accepted.
pub fn of_fed(answer: Fed) -> u16
    ensures { result ≡ code_of (fed_as answer) }
{
    short_of(answer.map_err(|(refusal, _)| refusal))
}

/// The code of an answer, whatever it gives: 0 where it is no refusal.
pub fn of_answer<T: Copy>(answer: Result<T, Refusal>) -> u32
    ensures { result ≡ code_of (outcome_of answer) }
{
    u32::from(short_of(answer))
}

// Whether a refusal has this row and field: the bytes of a code, before they are a refusal.
fn is_row(row: u8, field: u8) -> bool
    ensures { result ≡ is_row row field }
{
    matches!((row, field), (1..=26, 0) | (10 | 26, _))
}

// The refusal with a row and field. A match: two cases have a field, so the enum has no numbers of
// its own.
fn refusal_of(row: u8, field: u8) -> Refusal
    requires { is_row row field ≡ true }
    ensures { row_of result ≡ (row, field) }
{
    match row {
        1 => Refusal::Length,
        2 => Refusal::Digit,
        3 => Refusal::Kind,
        4 => Refusal::Turn,
        5 => Refusal::Tree,
        6 => Refusal::Year,
        7 => Refusal::Period,
        8 => Refusal::Level,
        9 => Refusal::Due,
        10 => Refusal::Range(field),
        11 => Refusal::Count,
        12 => Refusal::Buffer,
        13 => Refusal::Account,
        14 => Refusal::Place,
        15 => Refusal::Mixed,
        16 => Refusal::Tried,
        17 => Refusal::Ceiling,
        18 => Refusal::NoCeiling,
        19 => Refusal::Unlike,
        20 => Refusal::Days,
        21 => Refusal::Scratch,
        22 => Refusal::ListSize,
        23 => Refusal::UnlikeAccounts,
        24 => Refusal::Parameter,
        25 => Refusal::Warmth,
        _ => Refusal::Float(field),
    }
}

/// The answer that a number names, accepted or refused; none where it is no code.
pub fn answer_of(code: u16) -> Option<Result<(), Refusal>>
    ensures result_value { coded_as result ≡ coded_of code }
    ensures promise { CodePromise }
{
    if code == 0 {
        return Some(Ok(()));
    }
    let row = (code % 256) as u8;
    let field = (code / 256) as u8;
    if is_row(row, field) {
        return Some(Err(refusal_of(row, field)));
    }
    None
}

/// What writing gives, as numbers.
pub fn printed_of(written: Result<usize, Refusal>) -> Printed
    ensures { result ≡ printed_of (outcome_of «written») }
{
    match written {
        Ok(n) => Printed {
            code: 0,
            length: n as u64,
        },
        Err(refusal) => Printed {
            code: code_of(refusal),
            length: 0,
        },
    }
}

fn verdict_number(verdict: Verdict) -> u32
    ensures { result ≡ verdict_number verdict }
{
    verdict as u32
}

/// What reading gives that is refused: this code, and zeros.
pub fn no_readout(code: u32) -> Readout
    ensures { result ≡ no_readout code }
{
    Readout {
        code,
        ..Readout::default()
    }
}

impl From<Totals> for Readout {
    ghost from_gives = { λ totals readout. readout ≡ readout_of (accepted totals) };

    // Field by field: their names and widths are those that C reads.
    fn from(totals: Totals) -> Readout
        ensures { result ≡ readout_of (accepted totals) }
    {
        let sums = totals.sums;
        Readout {
            verdict: verdict_number(totals.verdict),
            hours: sums.hours as u32,
            counted: sums.counted as u32,
            missing: sums.missing as u32,
            least: sums.least,
            most: sums.most,
            lower: sums.lower,
            upper: sums.upper,
            ..Readout::default()
        }
    }
}

/// What reading gives, as numbers.
pub fn of_reading(reading: Result<Totals, Refusal>) -> Readout
    ensures { result ≡ readout_of (outcome_of reading) }
{
    match reading {
        Ok(totals) => Readout::from(totals),
        Err(refusal) => no_readout(code_of(refusal)),
    }
}

/// What trying gives that is refused: this code, and zeros.
pub fn no_trial(code: u32) -> Tried
    ensures { result ≡ no_trial code }
{
    Tried {
        code,
        ..Tried::default()
    }
}
