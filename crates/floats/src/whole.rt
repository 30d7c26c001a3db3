//! The whole number that a float is, its size cut where no field needs more.
ghost use Rattle.std.specs.Prelude.{◌≡◌, false, T, pos};
ghost use Rattle.std.specs.Float.Ieee as Ieee;
ghost use Rattle.std.specs.Float.{fin};
ghost use Rattle.floats.specs.Whole.{whole_of};
ghost use Rattle.floats.specs.steps.Floats.{cut_size, cut};

// The size of an x that is not below 0, 16777216 where it is larger; none where x is not finite or
// not whole. From 2^24 on every f32 but the infinity is a whole number.
fn size_of(x: f32) -> Option<u32>
    requires { T (Ieee.le (fin false 0 (pos 0)) x) }
    ensures { result ≡ cut_size x }
{
    if x >= 16777216.0 {
        if x == f32::INFINITY {
            return None;
        }
        return Some(16777216);
    }
    let n = std::num::truncating_f32_to_u64(x) as u32;
    let back = n as f32;
    if back == x { Some(n) } else { None }
}

pub(crate) fn whole_number(x: f32) -> Option<i32>
    ensures { result ≡ cut (whole_of x) }
{
    if x >= 0.0 {
        let n = size_of(x)?;
        return Some(n as i32);
    }
    if x < 0.0 {
        let n = size_of(-x)?;
        return Some(-(n as i32));
    }
    None
}
