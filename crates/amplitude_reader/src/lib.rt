// The amplitude code, read one minute a call.
#![tactic(auto)]

ghost use Rattle.std.specs.Prelude.{◌≡◌, true, ◌&&◌, ◌||◌, ◌+◌, ◌*◌, ◌<◌, eqb, leb};
ghost use Rattle.gregorian.specs.Gregorian.{first_year, year_count, year_length};
ghost use Rattle.calendar.specs.Calendar.{last_of_month};
ghost use Rattle.amplitude_rules.specs.Amplitude.{plus_bits, minus_bits, length_fits};
ghost use Rattle.amplitude_rules.specs.Reading.{fields_from, sign_of, values_of, decimal_digits, real_fields, read_amplitude};
ghost use Rattle.amplitude_row.specs.Row.{row_numbers};
ghost use Rattle.amplitude_reader.specs.Answer.{answer_of, numbers_reading};

use amplitude_row::{MINUS, PLUS, Row};
use amplitude_rules::{Fields, Values};
use calendar::Date;
use plan::{MAX_FRAME, MIN_FRAME, USUAL_FRAME};
use questions::Refusal;

// Whether the digits are decimal; those of two and three bits cannot be above 9.
#[tactic(auto, unfolding(amplitude_rules::specs::Reading::decimal_digits))]
fn has_decimal_digits(d: Row) -> bool
    ensures { result ≡ decimal_digits (row_numbers d) }
{
    d.minute_units <= 9
        && d.hour_units <= 9
        && d.day_tens <= 9
        && d.day_units <= 9
        && d.tenths <= 9
        && d.year_tens <= 9
        && d.year_units <= 9
}

// The number of two digits.
fn two(tens: u8, units: u8) -> u32
    ensures { result ≡ tens * 10 + units }
{
    u32::from(tens) * 10 + u32::from(units)
}

// The fields of the numbers of a row.
#[tactic(auto, unfolding(amplitude_rules::specs::Reading::fields_from))]
fn fields_from(d: Row) -> Fields
    ensures { result ≡ fields_from (row_numbers d) }
{
    Fields {
        minute: two(d.minute_tens, d.minute_units),
        hour: two(d.hour_tens, d.hour_units),
        day: u32::from(d.day_hundreds) * 100 + two(d.day_tens, d.day_units),
        sign: u32::from(d.sign),
        tenths: u32::from(d.tenths),
        year: two(d.year_tens, d.year_units),
        leap: u32::from(d.leap),
        warning: u32::from(d.warning),
        daylight: u32::from(d.daylight),
    }
}

// Whether three bits are a UT1 sign.
fn is_sign(bits: u32) -> bool
    ensures { result ≡ (eqb bits plus_bits || eqb bits minus_bits) }
{
    matches!(bits, PLUS | MINUS)
}

// Whether the year has the day.
#[tactic(auto, using(crate::proofs::Reading::mark_small))]
fn has_real_day(x: Fields) -> bool
    ensures { result ≡ (leb 1 x.day && leb x.day (year_length (first_year + x.year))) }
{
    (1..=365 + amplitude_row::leap_mark(x.year)).contains(&x.day)
}

// Whether the fields are real, with the year's leap-year mark.
#[tactic(auto, unfolding(amplitude_rules::specs::Reading::real_fields))]
fn has_real_fields(x: Fields) -> bool
    ensures { result ≡ real_fields x }
{
    is_sign(x.sign)
        && x.minute < 60
        && x.hour < 24
        && has_real_day(x)
        && x.leap == amplitude_row::leap_mark(x.year)
}

// The UT1 sign of its bits.
#[tactic(auto, unfolding(amplitude_rules::specs::Reading::sign_of))]
fn sign_of(bits: u32) -> i32
    ensures { result ≡ sign_of bits }
{
    if bits == PLUS { 1 } else { -1 }
}

// The values of real fields.
fn values_of(x: Fields, seconds: u32) -> Values
    requires { (x.year < year_count) × (real_fields x ≡ true) }
    ensures { result ≡ values_of x seconds }
{
    let day = gregorian::days_before(x.year) + (x.day - 1);
    Values {
        minute: day * 1440 + x.hour * 60 + x.minute,
        sign: sign_of(x.sign),
        tenths: x.tenths,
        warning: x.warning,
        daylight: x.daylight,
        seconds,
    }
}

// Whether a minute may have so many seconds.
#[tactic(auto, unfolding(amplitude_rules::specs::Amplitude::length_fits))]
fn length_fits(minute: u32, warning: u32, seconds: u32) -> bool
    ensures { result ≡ length_fits (last_of_month minute) warning seconds }
{
    if warning == 1 && Date::is_last_of_month(minute) {
        matches!(seconds, MIN_FRAME | MAX_FRAME)
    } else {
        seconds == USUAL_FRAME
    }
}

// Question 18, and the values of the numbers of a row.
fn read_numbers(d: Row, seconds: u32) -> Result<Values, Refusal>
    ensures { answer_of result ≡ numbers_reading (row_numbers d) seconds }
{
    if !has_decimal_digits(d) {
        return Err(Refusal::BadValue);
    }
    let x = fields_from(d);
    if !has_real_fields(x) {
        return Err(Refusal::BadValue);
    }
    let values = values_of(x, seconds);
    if length_fits(values.minute, values.warning, values.seconds) {
        Ok(values)
    } else {
        Err(Refusal::BadValue)
    }
}

// Reads one minute.
pub fn read_minute(symbols: &[u8]) -> Result<Values, Refusal>
    ensures { answer_of result ≡ read_amplitude symbols.now }
{
    let row = amplitude_row::read_layout(symbols)?;
    read_numbers(row, symbols.len() as u32)
}
