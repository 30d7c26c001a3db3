//! Rows of Tmin, Topt, Tmax, p, q, f_min and a reading, four hexadecimal digits each, with single
//! spaces; the answers for each row on a line of their own.
mod answers;

use crate::digits::u16_at;
use crate::input;
use answers::{Factor, Powers};
use std::io;
use trees::{Beech, Figures, Source, Tree};

// Beech's figures but for those of f_temp.
fn figures_of(row: &[u8]) -> Figures {
    Figures {
        f_min: u16_at(row, 25),
        t_min: u16_at(row, 0),
        t_opt: u16_at(row, 5),
        t_max: u16_at(row, 10),
        p: u16_at(row, 15),
        q: u16_at(row, 20),
        source: Source::Worked,
        ..Beech::figures()
    }
}

fn print_row(rt: &impl Print, row: &[u8]) -> io::Result<()> {
    let f = figures_of(row);
    let powers = Powers(trees::ratio_of(f.t_min, f.t_opt, f.t_max));
    let factor = Factor(power::worked_f_temp(f, u16_at(row, 30)));
    println!(rt; "{powers} {factor}")
}

/// Prints p and q and f_temp's pair of each row.
pub(crate) fn print_answers(rt: &impl Print, rows: &[u8]) -> io::Result<()> {
    input::for_each_line(rows, |row| print_row(rt, row))
}
