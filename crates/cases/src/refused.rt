//! Refusals as text.
use frames::Refusal;
use std::fmt;

// The field that a refusal names.
fn field_of(refusal: Refusal) -> Option<u8> {
    match refusal {
        Refusal::Range(field) | Refusal::Float(field) => Some(field),
        _ => None,
    }
}

// A word and the row, then, where the refusal names a field, a second word and the field.
fn put<W: fmt::Write>(
    f: &mut fmt::Formatter<W>,
    refusal: Refusal,
    word: &str,
    second: &str,
) -> fmt::Result {
    let row = frames::row_of(refusal);
    write!(f, "{word} {row}")?;
    if let Some(field) = field_of(refusal) {
        write!(f, "{second} {field}")?;
    }
    Ok(())
}

/// As `row 10 field 3`, the field where the refusal names one.
#[derive(Clone, Copy)]
pub(crate) struct Row(pub(crate) Refusal);

impl fmt::Display for Row {
    fn fmt<W: fmt::Write>(&self, f: &mut fmt::Formatter<W>) -> fmt::Result {
        put(f, self.0, "row", " field")
    }
}

/// As `refused 10 3`, the field where the refusal names one.
#[derive(Clone, Copy)]
pub(crate) struct Refused(pub(crate) Refusal);

impl fmt::Display for Refused {
    fn fmt<W: fmt::Write>(&self, f: &mut fmt::Formatter<W>) -> fmt::Result {
        put(f, self.0, "refused", "")
    }
}
