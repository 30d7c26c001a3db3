//! A frame's numbers as a record that nothing has checked.
use frames::{Hour, Raw, RawHour, Record};
use trees::Measure;

// Trees 1 and 2 are measured in available water.
fn measure_of(tree: u8) -> Measure {
    if tree < 3 {
        Measure::Water
    } else {
        Measure::Suction
    }
}

fn ozone_of(numeric: bool, n: u16) -> Option<u16> {
    if numeric {
        Some(n)
    } else {
        frames::ozone_of(n)
    }
}

fn hour_of(tree: u8, numeric: bool, raw: RawHour) -> Hour {
    Hour {
        ozone: ozone_of(numeric, raw.ozone),
        ..frames::hour_of(raw, measure_of(tree))
    }
}

/// Its ozone, where `numeric`, is a number even if that is FFFF.
pub(crate) fn record_of(tree: u8, numeric: bool, raw: Raw) -> Record {
    match raw {
        Raw::Header(h) => Record::Header(h),
        Raw::Hour(h) => Record::Hour(hour_of(tree, numeric, h)),
        Raw::End(e) => Record::End(e),
        Raw::Ceiling(c) => Record::Ceiling(c),
        Raw::Parameters(p) => Record::Parameters(p),
        Raw::Warmth(w) => Record::Warmth(w),
    }
}
