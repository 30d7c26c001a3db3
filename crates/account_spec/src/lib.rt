//! The season account, the book and the rules of both ("Account", "The book", "Turned-back lines"),
//! with lines whose missing ozone is filled ("Hours without ozone"): definitions and laws, the
//! types that they speak of, a state of an account, and a phase and a kind of hours by their
//! numbers.
#![tactic(auto)]

ghost use Rattle.std.specs.Prelude.{◌≡◌, false, ok_or};
ghost use Rattle.frames.specs.declared.records.Refusal.TheVariants.{Account};
ghost use Rattle.account_spec.specs.HourKinds.{numbered_kind};
ghost use Rattle.account_spec.specs.Account.{numbered_phase, impossible};
ghost use Rattle.account_spec.specs.Reading.{word_of};
ghost use Rattle.account_spec.specs.Rules.{state_of};

use frames::{Header, Parameters, Refusal, Warmth};

/// An account's phase ("Account").
#[derive(Clone, Copy, Default, PartialEq)]
pub enum Phase {
    /// Before a header: number 0.
    #[default]
    Fresh,
    /// After it: number 1.
    Open,
    /// After the right end frame: number 2.
    Closed,
}

// The phase with a number; row 13 for a number that none has.
impl TryFrom<u8> for Phase {
    type Error = Refusal;

    ghost try_from_gives = { λ n phase. phase ≡ ok_or (numbered_phase n) Account };

    fn try_from(n: u8) -> Result<Phase, Refusal> {
        match n {
            0 => Ok(Phase::Fresh),
            1 => Ok(Phase::Open),
            2 => Ok(Phase::Closed),
            _ => Err(Refusal::Account),
        }
    }
}

/// The kind of a season's hours, by what they say of the air: that of its first hour.
#[derive(Clone, Copy, PartialEq)]
pub enum HourKind {
    /// A deficit alone: frames of kind 02.
    Deficit = 2,
    /// A deficit and a pressure: frames of kind 04 ("Station pressure").
    Pressure = 4,
    /// A humidity: frames of kind 05 ("Humidity in place of VPD").
    Humidity = 5,
}

// The kind of the frames with a number; row 13 for a number that none has.
impl TryFrom<u8> for HourKind {
    type Error = Refusal;

    ghost try_from_gives = { λ n kind. kind ≡ ok_or (numbered_kind n) Account };

    fn try_from(n: u8) -> Result<HourKind, Refusal> {
        match n {
            2 => Ok(HourKind::Deficit),
            4 => Ok(HourKind::Pressure),
            5 => Ok(HourKind::Humidity),
            _ => Err(Refusal::Account),
        }
    }
}

/// What the frames before the first hour said.
// Zeros for not fed: with `Option` an account with a `Some` of zeros would have the bytes of
// another, which has none.
#[derive(Clone, Copy, Default, PartialEq)]
pub struct Season {
    /// The header.
    pub header: Header,
    /// The ozone ceiling, tenths of ppb; 0 where none was fed.
    pub ceiling: u16,
    /// A laboratory's parameters; all 0 where none were fed.
    pub parameters: Parameters,
    /// Its leaf age by warmth; all 0 where none was fed.
    pub warmth: Warmth,
}

/// What hours add up to ("Account").
// With the wide ones first an account takes eight bytes less.
#[derive(Clone, Copy, Default, PartialEq)]
pub struct Sums {
    /// POD1 is not below it, nmol m⁻².
    pub lower: u64,
    /// POD1 is not above it, nmol m⁻².
    pub upper: u64,
    /// AOT40's lower figure, tenths of ppb h.
    pub least: u32,
    /// AOT40's upper figure, tenths of ppb h.
    pub most: u32,
    /// The hours accepted.
    pub hours: u16,
    /// The counted ones among them.
    pub counted: u16,
    /// Those of the counted ones that are without ozone.
    pub missing: u16,
}

/// What leaf age by warmth takes from the hours before ("Leaf age by warmth"), in tenths of a
/// degree over hours; both 0 where no frame of warmth was fed.
#[derive(Clone, Copy, Default, PartialEq)]
pub struct Carried {
    /// The temperature sum of the earlier days, a day's negative total taken as 0.
    pub sum: u32,
    /// The running day's total.
    pub total: i16,
}

/// The season so far ("Account"): a plain struct of numbers, which row 13 judges.
#[derive(Clone, Copy, Default, PartialEq)]
pub struct Account {
    /// Fresh, open or closed.
    pub phase: Phase,
    /// What the frames before the first hour said.
    pub season: Season,
    /// The kind of its hours; none before the first.
    pub kind: Option<HourKind>,
    /// What its hours add up to.
    pub sums: Sums,
    /// What leaf age by warmth takes from them.
    pub carried: Carried,
}

/// An account that row 13 lets pass ("Turned-back lines").
#[derive(Clone, Copy)]
pub struct Possible {
    /// The account.
    pub account: Account,
    pub ghost possible: { impossible account ≡ false },
}

/// What a line's answer depends on, of an account or a book.
#[derive(Clone, Copy)]
pub struct State {
    /// Fresh, open or closed.
    pub phase: Phase,
    /// What the frames before the first hour said.
    pub season: Season,
    /// The kind of its hours; none before the first.
    pub kind: Option<HourKind>,
    /// The hours accepted.
    pub hours: u16,
}

impl From<Account> for State {
    ghost from_gives = { λ account state. state ≡ state_of account };

    fn from(account: Account) -> State {
        State {
            phase: account.phase,
            season: account.season,
            kind: account.kind,
            hours: account.sums.hours,
        }
    }
}

/// Whether POD1 is above the critical level ("Account").
// No Option: "none" is one of the four words of a verdict.
#[derive(Clone, Copy)]
pub enum Verdict {
    /// The account is fresh.
    None,
    /// Neither of the two that follow.
    Undecided,
    /// Lower is above level × 10000.
    Exceeded,
    /// Upper is at most level × 10000.
    Below,
}

/// The verdict's word, as reports print it ("Report").
pub fn word_of(verdict: Verdict) -> &'static str
    ensures { result.now ≡ word_of verdict }
{
    match verdict {
        Verdict::None => "none",
        Verdict::Undecided => "undecided",
        Verdict::Exceeded => "exceeded",
        Verdict::Below => "below",
    }
}

/// What reading an account gives ("Account").
#[derive(Clone, Copy)]
pub struct Totals {
    /// The sums that it carries.
    pub sums: Sums,
    /// Its verdict.
    pub verdict: Verdict,
}

/// The answer to a line: the new account, or the row that refuses the line and the account as it
/// was.
pub type Fed = Result<Account, (Refusal, Account)>;
