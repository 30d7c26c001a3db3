//! What an hour's dose is worked out from besides the hour: what holds for a whole run.
ghost use Rattle.std.specs.Prelude.{◌≤◌};
ghost use Rattle.trees.specs.Sound.{Sound};
ghost use Rattle.trees.specs.steps.Trees.{HasTable};
ghost use Rattle.dose.specs.steps.Given.{Sound-prop};

use dose_spec::Stand;

/// What the hours of a run are dosed by: a tree's sound figures, which have f_temp of their curve's
/// table, and a ceiling in range.
#[derive(Clone, Copy)]
pub struct Dosing {
    /// What the hours go by.
    pub stand: Stand,
    pub ghost sound: { Sound stand.figures } by { Sound-prop stand.figures },
    pub ghost tabled: { HasTable stand.figures },
    pub ghost few: { stand.ceiling ≤ 5000 },
}
