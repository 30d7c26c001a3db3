//! The places of a line's fields, counted in digits ("Frames"): each stands past those before it,
//! the kind first, and a line ends past its last field. Reader and writer go by these names;
//! specs/Kinds.antt has the same table by widths.

/// The digits of a byte.
pub(crate) const BYTE: usize = 2;

/// The digits of a two-byte number.
pub(crate) const NUMBER: usize = 4;

/// The kind of a header: the byte that its line begins with.
pub(crate) const HEADER_KIND: u8 = 1;

/// The kind of an hour with a vapour pressure deficit.
pub(crate) const DEFICIT_KIND: u8 = 2;

/// The kind of an end.
pub(crate) const END_KIND: u8 = 3;

/// The kind of an hour with a deficit and a pressure.
pub const PRESSURE_KIND: u8 = 4;

/// The kind of an hour with a humidity.
pub const HUMIDITY_KIND: u8 = 5;

/// The kind of an ozone ceiling.
pub(crate) const CEILING_KIND: u8 = 6;

/// The kind of a laboratory's parameters.
pub(crate) const PARAMETER_KIND: u8 = 7;

/// The kind of leaf age by warmth.
pub(crate) const WARMTH_KIND: u8 = 8;

/// The number of kinds.
pub(crate) const KINDS: u8 = WARMTH_KIND;

/// The place of a line's kind.
pub(crate) const KIND: usize = 0;

/// The place of the first of its fields.
pub(crate) const FIELDS: usize = KIND + BYTE;

/// 01 | tree 1 | days 2 | first 2 | last 2 | level 2
#[derive(Clone, Copy)]
pub(crate) struct HeaderLine;

impl HeaderLine {
    /// The place of the tree's number.
    pub(crate) const TREE: usize = FIELDS;

    /// The place of the days in the year.
    pub(crate) const DAYS: usize = HeaderLine::TREE + BYTE;

    /// The place of day A.
    pub(crate) const FIRST: usize = HeaderLine::DAYS + NUMBER;

    /// The place of day E.
    pub(crate) const LAST: usize = HeaderLine::FIRST + NUMBER;

    /// The place of the critical level.
    pub(crate) const LEVEL: usize = HeaderLine::LAST + NUMBER;

    /// The digits of the line.
    pub(crate) const DIGITS: usize = HeaderLine::LEVEL + NUMBER;
}

/// 02 | day 2 | hour 1 | ozone 2 | PPFD 2 | G 2 | T 2 | VPD 2 | wind 2 | soil 2
/// 05 | the same, humidity in VPD's place
#[derive(Clone, Copy)]
pub struct HourLine;

impl HourLine {
    /// The place of the day.
    pub const DAY: usize = FIELDS;

    /// The place of the hour.
    pub const HOUR: usize = HourLine::DAY + NUMBER;

    /// The place of ozone.
    pub const OZONE: usize = HourLine::HOUR + BYTE;

    /// The place of PPFD.
    pub const PPFD: usize = HourLine::OZONE + NUMBER;

    /// The place of global radiation.
    pub const RADIATION: usize = HourLine::PPFD + NUMBER;

    /// The place of the temperature.
    pub const TEMPERATURE: usize = HourLine::RADIATION + NUMBER;

    /// The place of VPD, in kind 05 of humidity.
    pub const VAPOUR: usize = HourLine::TEMPERATURE + NUMBER;

    /// The place of wind.
    pub const WIND: usize = HourLine::VAPOUR + NUMBER;

    /// The place of soil.
    pub const SOIL: usize = HourLine::WIND + NUMBER;

    /// The digits of the line.
    pub const DIGITS: usize = HourLine::SOIL + NUMBER;
}

/// 03 | number of hour frames 2
#[derive(Clone, Copy)]
pub(crate) struct EndLine;

impl EndLine {
    /// The place of the number of hour frames.
    pub(crate) const HOURS: usize = FIELDS;

    /// The digits of the line.
    pub(crate) const DIGITS: usize = EndLine::HOURS + NUMBER;
}

/// 04 | the fields of 02 | pressure 2
#[derive(Clone, Copy)]
pub struct PressureLine;

impl PressureLine {
    /// The place of the pressure.
    pub const PRESSURE: usize = HourLine::DIGITS;

    /// The digits of the line.
    pub const DIGITS: usize = PressureLine::PRESSURE + NUMBER;
}

/// 06 | ozone ceiling 2
#[derive(Clone, Copy)]
pub(crate) struct CeilingLine;

impl CeilingLine {
    /// The place of the ceiling.
    pub(crate) const OZONE: usize = FIELDS;

    /// The digits of the line.
    pub(crate) const DIGITS: usize = CeilingLine::OZONE + NUMBER;
}

/// 07 | g_max 2 | f_min 2 | light_a 2 | Tmin 2 | Topt 2 | Tmax 2 | VPD max 2 | VPD min 2
///    | suction max 2 | suction min 2 | leaf 2 | a 2 | e 2 | f1 2 | f4 2 | Y 2
#[derive(Clone, Copy)]
pub(crate) struct ParameterLine;

impl ParameterLine {
    /// The place of g_max.
    pub(crate) const GMAX: usize = FIELDS;

    /// The place of f_min.
    pub(crate) const FMIN: usize = ParameterLine::GMAX + NUMBER;

    /// The place of light_a.
    pub(crate) const LIGHTA: usize = ParameterLine::FMIN + NUMBER;

    /// The place of Tmin.
    pub(crate) const TMIN: usize = ParameterLine::LIGHTA + NUMBER;

    /// The place of Topt.
    pub(crate) const TOPT: usize = ParameterLine::TMIN + NUMBER;

    /// The place of Tmax.
    pub(crate) const TMAX: usize = ParameterLine::TOPT + NUMBER;

    /// The place of VPD max.
    pub(crate) const VPDMAX: usize = ParameterLine::TMAX + NUMBER;

    /// The place of VPD min.
    pub(crate) const VPDMIN: usize = ParameterLine::VPDMAX + NUMBER;

    /// The place of suction max.
    pub(crate) const SOILMAX: usize = ParameterLine::VPDMIN + NUMBER;

    /// The place of suction min.
    pub(crate) const SOILMIN: usize = ParameterLine::SOILMAX + NUMBER;

    /// The place of leaf.
    pub(crate) const LEAF: usize = ParameterLine::SOILMIN + NUMBER;

    /// The place of a.
    pub(crate) const A: usize = ParameterLine::LEAF + NUMBER;

    /// The place of e.
    pub(crate) const E: usize = ParameterLine::A + NUMBER;

    /// The place of f1.
    pub(crate) const F1: usize = ParameterLine::E + NUMBER;

    /// The place of f4.
    pub(crate) const F4: usize = ParameterLine::F1 + NUMBER;

    /// The place of Y.
    pub(crate) const Y: usize = ParameterLine::F4 + NUMBER;

    /// The digits of the line.
    pub(crate) const DIGITS: usize = ParameterLine::Y + NUMBER;
}

/// 08 | rise 2 | fall 2 | end 2
#[derive(Clone, Copy)]
pub(crate) struct WarmthLine;

impl WarmthLine {
    /// The place of rise.
    pub(crate) const RISE: usize = FIELDS;

    /// The place of fall.
    pub(crate) const FALL: usize = WarmthLine::RISE + NUMBER;

    /// The place of end.
    pub(crate) const END: usize = WarmthLine::FALL + NUMBER;

    /// The digits of the line.
    pub(crate) const DIGITS: usize = WarmthLine::END + NUMBER;
}

/// The digits of the longest lines.
pub const LONGEST: usize = ParameterLine::DIGITS;
