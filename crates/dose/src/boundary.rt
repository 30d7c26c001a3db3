//! √(leaf/wind), for Rb ("Factors").
ghost use Rattle.std.specs.Prelude.{◌≡◌, ◌/◌, ◌<◌, ◌≤◌, true};
ghost use Rattle.exact.specs.Root.{square_root};
ghost use Rattle.dose_spec.specs.Pair.{root_low};

// √(k/w) or next to it, by doubles: `has_root` tests what comes out, so nothing is promised of it.
fn near(k: u64, w: u64) -> u64 {
    let n = std::num::nearest_u64_to_f64(k) / std::num::nearest_u64_to_f64(w);
    std::num::saturating_f64_to_u64(n.sqrt())
}

// r is √(k/w), rounded down; no division, since r² ≤ k/w where r²·w ≤ k.
fn has_root(k: u64, w: u64, r: u64) -> bool
    requires { (0 < w) × (w ≤ 65535) }
    ensures { result ≡ true → r ≡ square_root (k / w) }
{
    r <= 14142136 && r * r * w <= k && k < (r + 1) * (r + 1) * w
}

// √(leaf/wind) in units of 10⁻⁷, rounded down, for a leaf in mm and a wind in cm/s; one under 10
// cm/s is read as 10.
pub(crate) fn root_low(leaf: u16, wind: u16) -> u64
    requires { leaf ≤ 200 }
    ensures { result ≡ root_low leaf wind }
{
    let w = u16::max(10, wind) as u64;
    let k = (leaf as u64) * 10000000000000;
    let r = near(k, w);
    if has_root(k, w, r) {
        return r;
    }
    (k / w).isqrt()
}
