// The amplitude code, written one minute a call by a plan with messages.
#![tactic(auto)]

ghost use Rattle.std.specs.Prelude.{◌≡◌, true, ◌++◌, ◌-◌, ◌≤◌, ◌<◌, length, take, drop, replicate};
ghost use Rattle.codewords.specs.CodeWords.{daylight_number};
ghost use Rattle.plan.specs.Plan.{min_frame, max_frame, daylight_at};
ghost use Rattle.messages.specs.Bytes.{schedule_of};
ghost use Rattle.symbols.specs.Symbols.{marker};
ghost use Rattle.amplitude_rules.specs.Amplitude.{sign_bits, legal_sign, legal_ut1, legal_values, fields_of, symbols};
ghost use Rattle.amplitude_rules.specs.Writing.{warning_at, values_at, write_amplitude, symbols_written};
ghost use Rattle.amplitude_writer.specs.Answer.{write_numbers};

use amplitude_row::{LEAP_SECOND, MARKER, MINUS, PLUS, ROW};
use amplitude_rules::{Fields, Ut1, Values};
use calendar::Minute;
use codewords::LeapState;
use gregorian::Year;
use messages::Schedule;
use plan::Plan;
use questions::Refusal;

// Question 18 of UT1: its sign and tenths.
#[tactic(auto, unfolding(amplitude_rules::specs::Amplitude::legal_ut1, amplitude_rules::specs::Amplitude::legal_sign))]
fn is_ut1(ut1: Ut1) -> bool
    ensures { result ≡ legal_ut1 ut1.sign ut1.tenths }
{
    matches!(ut1.sign, 1 | -1) && ut1.tenths <= 9
}

// The bits of a UT1 sign, which is legal.
#[tactic(auto, unfolding(amplitude_rules::specs::Amplitude::sign_bits, amplitude_rules::specs::Amplitude::legal_sign))]
fn sign_bits(sign: i32) -> u32
    requires { legal_sign sign ≡ true }
    ensures { result ≡ sign_bits sign }
{
    if sign == 1 { PLUS } else { MINUS }
}

// The leap warning of a minute.
#[tactic(auto, unfolding(amplitude_rules::specs::Writing::warning_at))]
fn warning(plan: Plan, minute: u32) -> u32
    ensures { result ≡ warning_at plan minute }
{
    u32::from(plan.leap(minute) != LeapState::None)
}

// The daylight state of a minute, as a number.
fn daylight(plan: Plan, minute: Minute) -> u32
    ensures { result ≡ daylight_number (daylight_at plan minute.index) }
{
    u32::from(u8::from(plan.daylight(minute.index)))
}

// The values that a plan gives a minute, with the caller's UT1.
#[tactic(auto, unfolding(amplitude_rules::specs::Writing::values_at))]
fn values_at(plan: Plan, minute: Minute, ut1: Ut1) -> Values
    ensures { result ≡ values_at plan minute.index ut1.sign ut1.tenths }
{
    Values {
        minute: minute.index,
        sign: ut1.sign,
        tenths: ut1.tenths,
        warning: warning(plan, minute.index),
        daylight: daylight(plan, minute),
        seconds: plan.length(minute.index),
    }
}

// The fields of values.
fn fields_of(r: Values) -> Fields
    requires { legal_values r ≡ true }
    ensures { result ≡ fields_of r }
{
    let day = r.minute / 1440;
    let years = Year::of_day(day).since_first;
    Fields {
        minute: r.minute % 60,
        hour: r.minute % 1440 / 60,
        day: day - gregorian::days_before(years) + 1,
        sign: sign_bits(r.sign),
        tenths: r.tenths,
        year: years,
        leap: amplitude_row::leap_mark(years),
        warning: r.warning,
        daylight: r.daylight,
    }
}

// Writes the markers after second 58, one by one: to fill a part of any length the compiler calls `memset`, and the shared library has none.
fn put_ends(seconds: usize, out: &mut [u8])
    requires { (min_frame ≤ seconds) × (seconds ≤ max_frame) × (seconds ≤ length out.old) }
    ensures { out.new
        ≡ take min_frame out.old ++ replicate (seconds - min_frame) marker ++ drop seconds out.old }
{
    if seconds <= ROW {
        return;
    }
    out[ROW] = MARKER;
    if seconds <= LEAP_SECOND {
        return;
    }
    out[LEAP_SECOND] = MARKER;
}

// Writes the symbols of a minute.
fn put(r: Values, out: &mut [u8])
    requires { (legal_values r ≡ true) × (r.seconds ≤ length out.old) }
    ensures { out.new ≡ symbols r ++ drop r.seconds out.old }
{
    amplitude_row::put_row(fields_of(r), out);
    put_ends(r.seconds as usize, out);
}

// Writes one minute; a refused one leaves the buffer as it was. Of the messages only question 1 is asked.
pub fn write_minute(
    schedule: Schedule,
    minute: u32,
    ut1: Ut1,
    out: &mut [u8],
) -> Result<usize, Refusal>
    ensures { (write_numbers result
        ≡ write_amplitude (schedule_of schedule.entry.plan schedule.entry.messages.now) minute ut1.sign ut1.tenths (length out.old))
        × (out.new
        ≡ symbols_written (schedule_of schedule.entry.plan schedule.entry.messages.now) minute ut1.sign ut1.tenths out.old) }
{
    if !schedule.is_legal() {
        return Err(Refusal::IllegalPlan);
    }
    let minute = Minute::try_from(minute)?;
    if !is_ut1(ut1) {
        return Err(Refusal::BadValue);
    }
    let values = values_at(schedule.plan, minute, ut1);
    let needed = values.seconds as usize;
    if out.len() < needed {
        return Err(Refusal::NoBitSpace);
    }
    put(values, out);
    Ok(needed)
}
