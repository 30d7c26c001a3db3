//! A tree's f_temp at a reading, tenths of a degree above -50.0 °C: f_min outside the tree's table,
//! else out of it.
ghost use Rattle.std.specs.Prelude.{ℕ, ◌≡◌};
ghost use Rattle.trees.specs.Temperature.{temperature_pair};
ghost use Rattle.power.specs.steps.Tables.{IsTable};

use crate::entries::table_entry;
use crate::floor_of;
use exact::Bounds;
use trees::{Reading, Tree};

// A tree with a table: the reading at which it begins, and its entries, lent.
pub(crate) trait Table: Tree {
    ghost FIRST: { ℕ };

    const FIRST: u16;

    fn entries() -> &'static [u32]
        ensures { IsTable Self.FIGURES FIRST result.now };
}

// By a tree's f_min and its table.
pub(crate) fn pair_of<T: Table>(x: Reading) -> Bounds
    ensures { result ≡ temperature_pair T.FIGURES x.tenths }
{
    let f_min = T::figures().f_min;
    let first = T::FIRST;
    let table = T::entries();
    let t = x.tenths;
    if t < first {
        return floor_of(f_min);
    }
    if table.len() <= (t - first) as usize {
        return floor_of(f_min);
    }
    table_entry(table, first, f_min, t)
}
