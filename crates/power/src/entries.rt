//! An entry of a table as the pair that f_temp lies between, in units of 10⁻⁹.
ghost use Rattle.power.specs.steps.Tables.{Readable, ReadAs};

use crate::floor_of;
use exact::Bounds;

// The pair out of a table that begins at a reading: f_min where the entry is below it.
pub(crate) fn table_entry(table: &[u32], from: u16, f_min: u16, x: u16) -> Bounds
    requires { Readable f_min table.now from x }
    ensures { ReadAs f_min table.now from x result }
{
    let least = floor_of(f_min);
    let i = (x - from) as usize;
    let t = table[i] as u64;
    let next = t + 1;
    Bounds {
        lower: least.lower.max(t),
        upper: least.upper.max(next),
    }
}
