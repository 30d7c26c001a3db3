//! The part that makers link from C and Rust, exported by the C names ("Promises"): accounts as
//! bytes in a lent buffer, answers as numbers, and the promise for every list of calls. A code is
//! 0, or the row that refuses the call ("Turned-back lines") plus 256 times the field that rows 10
//! and 26 name.
//! Numbers come in and go out as C has them: a kind by its number beside its value.
#![tactic(auto)]

mod given;
mod leaving;
mod logger;
mod several;
mod texts;
mod trials;
mod writing;

ghost use Rattle.std.specs.Prelude.{◌≡◌};
ghost use Rattle.part.specs.Frames.{parameters_from};
ghost use Rattle.account_spec.specs.Account.{fresh_account};
ghost use Rattle.frames.specs.Buffer.{Prints};
ghost use Rattle.stored.specs.Reading.{readout_of};
ghost use Rattle.part.specs.Calls.{Stores, FeedsBytes, read_in, printed_line, PrintsBytes};
ghost use Rattle.part.specs.Promise.{PartPromise};

use frames::{Parameters, Refusal};
use stored::answers;
use stored::answers::{Printed, Readout};

/// An hour's readings, in the units of its frames ("Frames").
#[repr(C)]
#[derive(Clone, Copy)]
pub struct HourReadings {
    /// The day of the year, from 1.
    pub day: u16,
    /// The hour of the day, 0 to 23.
    pub hour: u8,
    /// 0 where soil is suction, else it is available water.
    pub water: u8,
    /// Ozone, tenths of ppb; 65535 is missing.
    pub ozone: u16,
    /// PPFD, µmol m⁻² s⁻¹.
    pub ppfd: u16,
    /// Global radiation, W m⁻².
    pub radiation: u16,
    /// Air temperature, tenths of °C.
    pub temperature: i16,
    /// The deficit of kinds 02 and 04, Pa, or the humidity of kind 05, tenths of a percent.
    pub vapour: u16,
    /// Wind speed, cm/s.
    pub wind: u16,
    /// Suction, kPa, or available water, tenths of a percent.
    pub soil: u16,
}

/// The numbers of a frame of kind 07 ("A laboratory's own tree"): those of `Parameters`, the
/// temperatures with their sign.
#[repr(C)]
#[derive(Clone, Copy)]
pub struct TreeParameters {
    /// The greatest conductance, mmol m⁻² s⁻¹.
    pub g_max: u16,
    /// f_min, percent.
    pub f_min: u16,
    /// light_a, ten-thousandths.
    pub light_a: u16,
    /// Tmin, whole °C.
    pub t_min: i16,
    /// Topt, whole °C.
    pub t_opt: i16,
    /// Tmax, whole °C.
    pub t_max: i16,
    /// VPD max, Pa.
    pub vpd_max: u16,
    /// VPD min, Pa.
    pub vpd_min: u16,
    /// Suction max, kPa.
    pub soil_max: u16,
    /// Suction min, kPa.
    pub soil_min: u16,
    /// The leaf's width, mm.
    pub leaf: u16,
    /// f_phen on the first day, percent.
    pub a: u16,
    /// f_phen on the last day, percent.
    pub e: u16,
    /// The days within which f_phen rises.
    pub f1: u16,
    /// The days within which it falls.
    pub f4: u16,
    /// Y, the flux that adds no dose, nmol m⁻² s⁻¹.
    pub y: u16,
}

impl From<TreeParameters> for Parameters {
    ghost from_gives = { λ given made. made ≡ parameters_from given };

    // Field by field: the two structs' temperatures are of two types, so no struct update takes the
    // others.
    fn from(p: TreeParameters) -> Parameters
        ensures { result ≡ parameters_from p }
    {
        Parameters {
            g_max: p.g_max,
            f_min: p.f_min,
            light_a: p.light_a,
            t_min: frames::complement(p.t_min),
            t_opt: frames::complement(p.t_opt),
            t_max: frames::complement(p.t_max),
            vpd_max: p.vpd_max,
            vpd_min: p.vpd_min,
            soil_max: p.soil_max,
            soil_min: p.soil_min,
            leaf: p.leaf,
            a: p.a,
            e: p.e,
            f1: p.f1,
            f4: p.f4,
            y: p.y,
        }
    }
}

/// Stores a fresh account into the first 88 bytes of a buffer ("Account"). Row 12: the buffer is
/// shorter, and stays as it was.
#[unsafe(no_mangle)]
pub extern "C" fn pod1_fresh(account: &mut [u8]) -> u32
    ensures stores { Stores fresh_account account.old result account.new }
    ensures season { PartPromise }
{
    answers::of_answer(stored::store(account::fresh(), account))
}

/// Feeds a line, without a line feed, to the account in a buffer ("Account", "Turned-back lines").
/// Refused by row 13 (the bytes hold no account, or one that no season gives), then by the rows of
/// `account::feed`. The buffer is unchanged where a row refuses.
#[unsafe(no_mangle)]
pub extern "C" fn pod1_feed(account: &mut [u8], line: &[u8]) -> u32
    ensures { FeedsBytes account.old line.now result account.new }
{
    let next = stored::take_up(account).and_then(|a| leaving::next_by(account::feed(a, line)));
    leaving::leave(next, account)
}

/// The sums and the verdict of the account in a buffer ("Account"). Row 13: the bytes hold no
/// account, or one that no season gives.
#[unsafe(no_mangle)]
pub extern "C" fn pod1_read(account: &[u8]) -> Readout
    ensures { result ≡ readout_of (read_in account.now) }
{
    answers::of_reading(stored::take_up(account).and_then(|a| account::read(a)))
}

// The report line of the account in a buffer into another.
fn write_line(account: &[u8], buffer: &mut [u8]) -> Result<usize, Refusal>
    ensures { Prints (printed_line account.now) buffer.old result buffer.new }
{
    report::format(stored::take_up(account)?, buffer)
}

/// Writes the report line of the account in a buffer to the front of another, line feed included
/// ("Report"). Refused by row 13 (the bytes hold no account, or one that no season gives), then 12
/// (the other buffer is shorter than the line); it is unchanged where a row refuses.
#[unsafe(no_mangle)]
pub extern "C" fn pod1_line(account: &[u8], buffer: &mut [u8]) -> Printed
    ensures { PrintsBytes (printed_line account.now) buffer.old result buffer.new }
{
    answers::printed_of(write_line(account, buffer))
}
