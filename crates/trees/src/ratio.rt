//! p and q of f_temp ("Factors", "A laboratory's own tree") out of the three temperatures.
ghost use Rattle.std.specs.Prelude.{◌≡◌, ◌*◌, ◌<◌, ◌≤◌};
ghost use Rattle.trees.specs.Powers.{lowest_p, lowest_q, both_small, powers_of, PowersFacts};

/// The greatest p and q that a laboratory's tree may have.
pub const GREATEST_POWER: u32 = 22;

/// p/q in lowest terms.
#[derive(Clone, Copy, Default)]
pub struct Ratio {
    /// The power of the cold side's product.
    pub p: u16,
    /// The root that is taken.
    pub q: u16,
}

// fall/rise in lowest terms: q grows until r, which is q·fall - p·rise, is 0.
fn lowest_terms(rise: u32, fall: u32) -> Option<Ratio>
    requires { (0 < rise) × (rise < 65536) × (fall < 65536) }
    ensures { result ≡ both_small (lowest_p rise fall) (lowest_q rise fall) }
{
    let each = fall / rise;
    let rest = fall % rise;
    let mut p = each;
    let mut r = rest;
    for q in 1..GREATEST_POWER + 1 {
        if r == 0 {
            if p <= GREATEST_POWER {
                return Some(Ratio {
                    p: p as u16,
                    q: q as u16,
                });
            }
            return None;
        }
        p += each;
        r += rest;
        if rise <= r {
            r -= rise;
            p += 1;
        }
    }
    None
}

/// p/q = (Tmax - Topt)/(Topt - Tmin) in lowest terms, the temperatures given in whole degrees above
/// -50 °C; none where they do not rise, or p or q is above 22 ("A laboratory's own tree").
pub fn ratio_of(t_min: u16, t_opt: u16, t_max: u16) -> Option<Ratio>
    ensures value { result ≡ powers_of t_min t_opt t_max }
    ensures facts { PowersFacts t_min t_opt t_max result }
{
    if t_opt <= t_min {
        return None;
    }
    if t_max <= t_opt {
        return None;
    }
    lowest_terms((t_opt - t_min) as u32, (t_max - t_opt) as u32)
}
