//! What the library answers to many cases, one section of standard input after another. What it
//! must print is made by the scripts tests/*_cases.py, and put together by tests/sections.py.
#![tactic(auto)]

mod account_cases;
mod answers;
mod compare_cases;
mod counted;
mod dates_cases;
mod digits;
mod dose_cases;
mod fields;
mod floats_cases;
mod frames_cases;
mod input;
mod parameters;
mod power_cases;
mod refused;
mod report_cases;
mod sections;
mod stand_cases;
mod stretch_cases;
mod trial_cases;
mod warmth;

// A read or a write that fails ends it.
fn main(rt: HostRuntime) {
    let _ = input::read_all(&rt).and_then(|text| sections::print_sections(&rt, text.as_slice()));
}
