//! What a root is asked of.
ghost use Rattle.power.specs.steps.Asked.{Asked};

// a = above/rise and w = below/fall, in tenths of a degree, with their powers p/q.
#[derive(Clone, Copy)]
pub(crate) struct Terms {
    /// T - Tmin.
    pub above: u32,
    /// Topt - Tmin.
    pub rise: u32,
    /// Tmax - T.
    pub below: u32,
    /// Tmax - Topt.
    pub fall: u32,
    /// The power of w is p/q.
    pub p: u32,
    /// See p.
    pub q: u32,
    ghost asked: { Asked above rise below fall p q },
}
