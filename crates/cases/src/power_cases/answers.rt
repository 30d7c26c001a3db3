//! Answers as words.
use exact::Bounds;
use std::fmt;
use trees::Ratio;

/// p and q, or none.
#[derive(Clone, Copy)]
pub(crate) struct Powers(pub(crate) Option<Ratio>);

impl fmt::Display for Powers {
    fn fmt<W: fmt::Write>(&self, f: &mut fmt::Formatter<W>) -> fmt::Result {
        match self.0 {
            Some(Ratio { p, q }) => write!(f, "{p} {q}"),
            None => f.write_str("none"),
        }
    }
}

/// The lower and the upper number of f_temp, or unfit.
#[derive(Clone, Copy)]
pub(crate) struct Factor(pub(crate) Option<Bounds>);

impl fmt::Display for Factor {
    fn fmt<W: fmt::Write>(&self, f: &mut fmt::Formatter<W>) -> fmt::Result {
        match self.0 {
            Some(Bounds { lower, upper }) => write!(f, "{lower} {upper}"),
            None => f.write_str("unfit"),
        }
    }
}
