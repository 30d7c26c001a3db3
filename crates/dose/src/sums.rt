//! What a counted hour's ozone adds to the sums ("Factors", "Hours without ozone").
ghost use Rattle.std.specs.Prelude.{◌-◌, ◌<◌, ◌≡◌, if◌then◌else◌};
ghost use Rattle.frames.specs.Ozone.{is_missing, read_as};
ghost use Rattle.dose_spec.specs.Dose.{excess};

use frames::Hour;

// max(ozone - 400, 0)
fn excess(ozone: u16) -> u32
    ensures is { result ≡ ozone - 400 }
    ensures small { result < 65536 }
{
    u32::from(ozone.saturating_sub(400))
}

/// What a counted hour's ozone adds: to AOT40's two figures, and to the hours without ozone.
#[derive(Clone, Copy)]
pub struct OzoneSums {
    /// To AOT40's lower figure, tenths of ppb h.
    pub least: u32,
    /// To AOT40's upper figure, tenths of ppb h.
    pub most: u32,
    /// To the hours without ozone: 1 or 0.
    pub missing: u16,
}

/// What a counted hour's ozone adds, by the ceiling in tenths of ppb: a missing ozone is read as 0
/// for the lower figure, as the ceiling for the upper one ("Hours without ozone").
pub fn ozone_sums(ceiling: u16, h: Hour) -> OzoneSums
    ensures least { result.least ≡ excess (read_as 0 h) }
    ensures most { result.most ≡ excess (read_as ceiling h) }
    ensures missing { result.missing ≡ (if is_missing h.ozone then 1 else 0) }
    ensures small { (result.least < 65536) × (result.most < 65536) × (result.missing < 2) }
{
    match h.ozone {
        Some(n) => {
            let over = excess(n);
            OzoneSums {
                least: over,
                most: over,
                missing: 0,
            }
        },
        None => OzoneSums {
            least: 0,
            most: excess(ceiling),
            missing: 1,
        },
    }
}
