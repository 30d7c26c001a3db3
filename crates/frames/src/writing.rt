//! A record's line at the front of a lent buffer: row 12 where the buffer is shorter than the line.
ghost use Rattle.std.specs.Prelude.{◌≡◌, [], ◌∷◌, ◌++◌, ◌≤◌, length, nat_lt, if◌then◌else◌};
ghost use Rattle.std.proofs.lemmas.List.Edits.{sets};
ghost use Rattle.frames.specs.Digits.{number};
ghost use Rattle.frames.specs.Kinds.{one, two, widths_of, digits_in};
ghost use Rattle.frames.specs.Fields.{digits_of};
ghost use Rattle.frames.specs.Layout.{air_kind, hour_numbers, frame_line};
ghost use Rattle.frames.specs.Answers.{accepted, refused, outcome_of};
ghost use Rattle.frames.specs.Buffer.{Prints};
ghost use Rattle.frames.specs.declared.records.Record.{Record};

use crate::widths::{
    CEILING_KIND, END_KIND, EndLine, HEADER_KIND, HeaderLine, HourLine, PARAMETER_KIND,
    ParameterLine, PressureLine, WARMTH_KIND, WarmthLine,
};
use crate::writing_digits::{put_byte, put_number, put_numbers};
use crate::{Air, Header, Hour, Parameters, Record, Refusal, Warmth, layout, temperature};

// Row 12 where a buffer is shorter than a line.
fn room_for(digits: usize, buf: &[u8]) -> Result<(), Refusal>
    ensures { outcome_of result
        ≡ (if nat_lt (length buf.now) digits then refused (12, 0) else accepted tt) }
{
    if buf.len() < digits {
        return Err(Refusal::Buffer);
    }
    Ok(())
}

#[tactic(auto, unfolding(crate::specs::Layout::frame_line))]
fn put_header(h: Header, buf: &mut [u8]) -> Result<usize, Refusal>
    ensures { Prints (accepted (frame_line (Record.Header h))) buf.old result buf.new }
{
    room_for(HeaderLine::DIGITS, buf)?;
    put_byte(buf, HEADER_KIND);
    put_byte(&mut buf[HeaderLine::TREE..], h.tree);
    put_numbers(
        &mut buf[HeaderLine::DAYS..],
        &[h.days, h.first, h.last, h.level],
    );
    Ok(HeaderLine::DIGITS)
}

// What a line of any kind of hour begins with: its air's kind, and the nine numbers of kind 02.
fn put_hour_fields(h: Hour, buf: &mut [u8])
    requires { digits_in (widths_of 2) ≤ length buf.old }
    ensures { buf.new
        ≡ sets buf.old 0 (digits_of (one ∷ widths_of 2) (air_kind h.air ∷ hour_numbers h)) }
{
    let t = temperature::complement(h.temperature);
    let ozone = layout::ozone_number(h.ozone);
    let vapour = layout::vapour_number(h.air);
    let n = layout::soil_number(h.soil);
    put_byte(buf, layout::air_kind(h.air));
    put_number(&mut buf[HourLine::DAY..], h.day);
    put_byte(&mut buf[HourLine::HOUR..], h.hour);
    put_numbers(
        &mut buf[HourLine::OZONE..],
        &[ozone, h.ppfd, h.radiation, t],
    );
    put_numbers(&mut buf[HourLine::VAPOUR..], &[vapour, h.wind]);
    put_number(&mut buf[HourLine::SOIL..], n);
}

// An hour of a kind with those numbers only.
fn put_hour_line(h: Hour, buf: &mut [u8]) -> Result<usize, Refusal>
    ensures { Prints (accepted (digits_of (one ∷ widths_of 2) (air_kind h.air ∷ hour_numbers h)))
        buf.old result buf.new }
{
    room_for(HourLine::DIGITS, buf)?;
    put_hour_fields(h, buf);
    Ok(HourLine::DIGITS)
}

// An hour of kind 04, its pressure given.
fn put_pressure_line(h: Hour, pressure: u16, buf: &mut [u8]) -> Result<usize, Refusal>
    ensures { Prints
        (accepted
        (digits_of (one ∷ widths_of 2) (air_kind h.air ∷ hour_numbers h) ++ number pressure []))
        buf.old result buf.new }
{
    room_for(PressureLine::DIGITS, buf)?;
    put_hour_fields(h, buf);
    put_number(&mut buf[PressureLine::PRESSURE..], pressure);
    Ok(PressureLine::DIGITS)
}

fn put_hour(h: Hour, buf: &mut [u8]) -> Result<usize, Refusal>
    ensures { Prints (accepted (frame_line (Record.Hour h))) buf.old result buf.new }
{
    match h.air {
        Air::Deficit(_) | Air::Humidity(_) => put_hour_line(h, buf),
        Air::Pressure { pressure, .. } => put_pressure_line(h, pressure, buf),
    }
}

// A line of a kind with one number: 03 and 06, which are alike. The kind is the byte that is
// written.
fn put_number_line(kind: u8, n: u16, buf: &mut [u8]) -> Result<usize, Refusal>
    ensures { Prints (accepted (digits_of (one ∷ two ∷ []) (kind ∷ n ∷ [])))
        buf.old result buf.new }
{
    room_for(EndLine::DIGITS, buf)?;
    put_byte(buf, kind);
    put_number(&mut buf[EndLine::HOURS..], n);
    Ok(EndLine::DIGITS)
}

// Kind 07.
#[tactic(auto, unfolding(crate::specs::Layout::frame_line))]
fn put_parameters(p: Parameters, buf: &mut [u8]) -> Result<usize, Refusal>
    ensures { Prints (accepted (frame_line (Record.Parameters p))) buf.old result buf.new }
{
    room_for(ParameterLine::DIGITS, buf)?;
    put_byte(buf, PARAMETER_KIND);
    put_numbers(
        &mut buf[ParameterLine::GMAX..],
        &[p.g_max, p.f_min, p.light_a, p.t_min],
    );
    put_numbers(
        &mut buf[ParameterLine::TOPT..],
        &[p.t_opt, p.t_max, p.vpd_max, p.vpd_min],
    );
    put_numbers(
        &mut buf[ParameterLine::SOILMAX..],
        &[p.soil_max, p.soil_min, p.leaf, p.a],
    );
    put_numbers(&mut buf[ParameterLine::E..], &[p.e, p.f1, p.f4, p.y]);
    Ok(ParameterLine::DIGITS)
}

// Kind 08.
#[tactic(auto, unfolding(crate::specs::Layout::frame_line))]
fn put_warmth(w: Warmth, buf: &mut [u8]) -> Result<usize, Refusal>
    ensures { Prints (accepted (frame_line (Record.Warmth w))) buf.old result buf.new }
{
    room_for(WarmthLine::DIGITS, buf)?;
    put_byte(buf, WARMTH_KIND);
    put_numbers(&mut buf[WarmthLine::RISE..], &[w.rise, w.fall]);
    put_number(&mut buf[WarmthLine::END..], w.end);
    Ok(WarmthLine::DIGITS)
}

// A record's line, whatever its kind.
#[tactic(auto, unfolding(crate::specs::Layout::frame_line))]
pub(crate) fn put(record: Record, buf: &mut [u8]) -> Result<usize, Refusal>
    ensures { Prints (accepted (frame_line «record»)) buf.old result buf.new }
{
    match record {
        Record::Header(h) => put_header(h, buf),
        Record::Hour(h) => put_hour(h, buf),
        Record::End(e) => put_number_line(END_KIND, e.hours, buf),
        Record::Ceiling(c) => put_number_line(CEILING_KIND, c.ozone, buf),
        Record::Parameters(p) => put_parameters(p, buf),
        Record::Warmth(w) => put_warmth(w, buf),
    }
}
