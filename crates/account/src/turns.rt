//! Rows 4 to 11, 15, 17, 18, 24 and 25 for a state: phase, season, kind and number of hours
//! accepted so far ("Turned-back lines").
ghost use Rattle.frames.specs.Answers.{accepted, row, outcome_of};
ghost use Rattle.frames.specs.Checked.{checked_as};
ghost use Rattle.std.specs.Prelude.{◌≡◌, ◌+◌, ◌/◌, ◌%◌, ◌&&◌, not, ◌==◌};
ghost use Rattle.account_spec.specs.declared.Phase.TheVariants.{Open};
ghost use Rattle.account_spec.specs.Account.{phase_number, awaits};
ghost use Rattle.account_spec.specs.HourKinds.{hour_kind, kind_number, is_mixed};
ghost use Rattle.account_spec.specs.Rules.{ceiling_late, warmth_late, turn_in, out_of_turn, is_due};
ghost use Rattle.account_spec.specs.Rules.{count_wrong, due_of, turn_of};
ghost use Rattle.account_spec.specs.Timely.{timely_in};

use account_spec::{HourKind, Phase, Season, State};
use frames::{Air, Checked, Raw, RawHour, Refusal};

// Whether a ceiling is late: it comes before the first hour, and once.
fn ceiling_late(s: State) -> bool
    ensures { result ≡ ceiling_late s }
{
    (s.season.ceiling != 0) | (s.hours != 0)
}

// Whether a laboratory's parameters are still to come.
fn awaited(season: Season) -> bool
    ensures { result ≡ awaits season }
{
    season.header.tree == trees::MEASURED && !trees::is_fed(season.parameters)
}

// Whether warmth is late: it comes directly after parameters, and once.
fn warmth_late(s: State) -> bool
    ensures { result ≡ warmth_late s }
{
    !trees::is_fed(s.season.parameters) || trees::has_warmth(s.season.warmth) || ceiling_late(s)
}

// Row 4 of a frame in an open season.
fn open_turn(s: State, frame: Raw) -> bool
    ensures { result ≡ turn_in Open s frame }
{
    match frame {
        Raw::Header(_) => true,
        Raw::Hour(_) | Raw::End(_) => awaited(s.season),
        Raw::Ceiling(_) => awaited(s.season) | ceiling_late(s),
        Raw::Parameters(_) => !awaited(s.season),
        Raw::Warmth(_) => warmth_late(s),
    }
}

/// Whether row 4 is given: a second header; an hour or end when fresh; anything when closed; a
/// ceiling or warmth out of turn; parameters where they are not awaited, any other frame where they
/// are ("Turned-back lines").
pub fn out_of_turn(s: State, frame: Raw) -> bool
    ensures { result ≡ out_of_turn s frame }
{
    match s.phase {
        Phase::Fresh => !matches!(frame, Raw::Header(_)),
        Phase::Open => open_turn(s, frame),
        Phase::Closed => true,
    }
}

/// The kind of the season's hour frames, 2, 4 or 5, and 0 before the first: the byte that is stored
/// and printed.
pub fn kind_number(kind: Option<HourKind>) -> u8
    ensures { result ≡ kind_number kind }
{
    kind.map_or(0, |own| own as u8)
}

/// The kind of season that an hour's frame makes, by its air.
pub fn kind_of(air: Air) -> HourKind
    ensures { result ≡ hour_kind air }
{
    match air {
        Air::Deficit(_) => HourKind::Deficit,
        Air::Pressure { .. } => HourKind::Pressure,
        Air::Humidity(_) => HourKind::Humidity,
    }
}

/// The number of a phase, as it is stored and printed.
pub fn phase_number(phase: Phase) -> u8
    ensures { result ≡ phase_number phase }
{
    phase as u8
}

// Whether row 15 is given: the season's first hour is of another kind.
fn mixed(kind: Option<HourKind>, air: Air) -> bool
    ensures { result ≡ is_mixed kind air }
{
    kind.is_some_and(|own| own != kind_of(air))
}

/// Whether an hour is the one after so many hours from day `first`, hour 0, on ("The book").
#[inline(always)]
pub fn due(first: u16, hours: u16, raw: RawHour) -> bool
    ensures { result ≡ (raw.day == first + hours / 24 && raw.hour == hours % 24) }
{
    (raw.day as u32) == (first as u32) + ((hours / 24) as u32) && (raw.hour as u16) == hours % 24
}

// Whether an hour is the one that is due, the period having hours left.
fn is_due(s: State, raw: RawHour) -> bool
    ensures { result ≡ is_due s raw }
{
    let header = s.season.header;
    !frames::all_given(header, s.hours) && due(header.first, s.hours, raw)
}

// Rows 15 and 9 of an hour.
fn in_order(s: State, raw: RawHour) -> Result<(), Refusal>
    ensures { outcome_of result
        ≡ row 15 (is_mixed s.kind raw.air) (row 9 (not (is_due s raw)) (accepted tt)) }
{
    if mixed(s.kind, raw.air) {
        return Err(Refusal::Mixed);
    }
    if !is_due(s, raw) {
        return Err(Refusal::Due);
    }
    Ok(())
}

/// The rows of an hour that look at no reading, in this order: 4 (out of turn), 15 (another kind
/// than the first hour's), 9 (not the hour due).
#[tactic(auto, unfolding(account_spec::specs::Timely::timely_in))]
pub fn timely(s: State, raw: RawHour) -> Result<(), Refusal>
    ensures { outcome_of result ≡ timely_in s raw }
{
    if out_of_turn(s, Raw::Hour(raw)) {
        return Err(Refusal::Turn);
    }
    in_order(s, raw)
}

// Whether row 11 is given: the count is not the hours accepted, or hours are still due.
fn count_wrong(s: State, count: u16) -> bool
    ensures { result ≡ count_wrong s count }
{
    count != s.hours || !frames::all_given(s.season.header, s.hours)
}

// Rows 5 to 8 of a header, 15, 9, 18 and 10 of an hour, 11 of an end, 17 of a ceiling, 24 and 7 of
// parameters, 25 of warmth. `record_of` is called at one place, where it is inlined.
#[tactic(auto, unfolding(account_spec::specs::Rules::due_of))]
fn by_kind(s: State, frame: Raw) -> Result<Checked, Refusal>
    ensures { checked_as result ≡ due_of s frame }
{
    match frame {
        Raw::Header(_) | Raw::Ceiling(_) | Raw::Warmth(_) => {},
        Raw::Hour(raw) => {
            in_order(s, raw)?;
            if frames::lacks_ceiling(s.season.ceiling, frames::ozone_of(raw.ozone)) {
                return Err(Refusal::NoCeiling);
            }
        },
        Raw::End(end) => {
            if count_wrong(s, end.hours) {
                return Err(Refusal::Count);
            }
        },
        Raw::Parameters(parameters) => {
            frames::check_parameters(parameters)?;
            if frames::ramps_out(s.season.header, parameters) {
                return Err(Refusal::Period);
            }
        },
    }
    frames::record_of(s.season.header.tree, frame)
}

/// The record of a frame that the state takes, or the first row that refuses it: 4 (out of turn),
/// then those of the frame's kind, as `decoded` has them ("Turned-back lines").
#[tactic(auto, unfolding(account_spec::specs::Rules::turn_of))]
pub fn decode(s: State, frame: Raw) -> Result<Checked, Refusal>
    ensures { checked_as result ≡ turn_of s frame }
{
    if out_of_turn(s, frame) {
        return Err(Refusal::Turn);
    }
    by_kind(s, frame)
}
