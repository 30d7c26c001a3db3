//! What feeding answers, as words.
use crate::refused::Refused;
use account::Fed;
use std::fmt;

/// As `accepted`, or `refused 10 3`.
#[derive(Clone, Copy)]
pub(crate) struct Answer(pub(crate) Fed);

impl fmt::Display for Answer {
    fn fmt<W: fmt::Write>(&self, f: &mut fmt::Formatter<W>) -> fmt::Result {
        match self.0 {
            Ok(_) => f.write_str("accepted"),
            Err((refusal, _)) => write!(f, "{}", Refused(refusal)),
        }
    }
}
