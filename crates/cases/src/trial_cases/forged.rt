//! Trials that nothing made: one part of a trial set to something else.
use crate::digits::u8_at;
use crate::fields::with_field;
use frames::Refusal;
use stored::answers;
use trial::Trial;

// Row 13 where no refusal has this row and field, which stand as digits in the command.
fn refusal_of(row: u8, field: u8) -> Refusal {
    match answers::answer_of((row as u16) + 256 * (field as u16)) {
        Some(Err(refusal)) => refusal,
        _ => Refusal::Account,
    }
}

/// One field of the account tried.
pub(crate) fn with_tried(made: Trial, digits: &[u8]) -> Trial {
    Trial {
        tried: with_field(made.tried, digits),
        ..made
    }
}

/// The answer an acceptance, of the account inside it with one field anew; none where the field's
/// number is none.
pub(crate) fn with_acceptance(made: Trial, digits: &[u8]) -> Trial {
    Trial {
        answer: Ok(with_field(trial::left_by(made.answer), digits)),
        ..made
    }
}

/// The answer a refusal, two digits its row and two more its field; the account inside it stays.
pub(crate) fn with_refusal(made: Trial, digits: &[u8]) -> Trial {
    let refusal = refusal_of(u8_at(digits, 0), u8_at(digits, 2));
    Trial {
        answer: Err((refusal, trial::left_by(made.answer))),
        ..made
    }
}

/// The reading row 13.
pub(crate) fn without_reading(made: Trial) -> Trial {
    Trial {
        reading: Err(Refusal::Account),
        ..made
    }
}
