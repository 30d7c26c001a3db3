//! Answers as words.
use crate::answers::Answer;
use crate::counted::Seven;
use crate::fields::Fields;
use crate::refused::Refused;
use account::{Fed, Totals};
use frames::Refusal;
use std::{fmt, io};
use trial::Trial;

/// An answer, and the account that it leaves.
#[derive(Clone, Copy)]
pub(crate) struct Answered(pub(crate) Fed);

impl fmt::Display for Answered {
    fn fmt<W: fmt::Write>(&self, f: &mut fmt::Formatter<W>) -> fmt::Result {
        write!(f, "{}: {}", Answer(self.0), Fields(trial::left_by(self.0)))
    }
}

#[derive(Clone, Copy)]
struct Reading(Result<Totals, Refusal>);

impl fmt::Display for Reading {
    fn fmt<W: fmt::Write>(&self, f: &mut fmt::Formatter<W>) -> fmt::Result {
        match self.0 {
            Ok(Totals { sums, verdict }) => {
                write!(f, "{} {}", Seven(sums), account_spec::word_of(verdict))
            }
            Err(refusal) => write!(f, "{}", Refused(refusal)),
        }
    }
}

/// The account tried, the answer with the account that would follow, the reading that would follow.
pub(crate) fn print_trial(rt: &impl Print, made: Trial) -> io::Result<()> {
    let tried = Fields(made.tried);
    let answered = Answered(made.answer);
    let reading = Reading(made.reading);
    println!(rt; "{tried}: {answered}: {reading}")
}
