// The calls of the amplitude code.
ghost use Rattle.std.specs.Prelude.{◌≡◌, true, length};
ghost use Rattle.messages.specs.Bytes.{schedule_of};
ghost use Rattle.amplitude_rules.specs.Amplitude.{legal_values};
ghost use Rattle.amplitude_rules.specs.Reading.{read_amplitude};
ghost use Rattle.amplitude_rules.specs.Writing.{write_amplitude, symbols_written};
ghost use Rattle.wwvb.specs.Replies.{plan_of, reply_numbers};
ghost use Rattle.wwvb.specs.Amplitude.{symbols_reply, accepted_reply, refused_reply, amplitude_reply};

use crate::WriteReply;
use amplitude_rules::{Ut1, Values};
use calendar::Date;
use messages::Schedule;
use plan::Plan;

// The refusal or 0, the date, UT1, leap warning, daylight state and length; refused, every other field is 0.
#[repr(C)]
#[derive(Clone, Copy)]
pub struct AmplitudeReply {
    pub refusal: u32,
    pub year: u32,
    pub month: u32,
    pub day: u32,
    pub hour: u32,
    pub minute: u32,
    pub weekday: u32,
    pub ut1_sign: i32,
    pub ut1_tenths: u32,
    pub warning: u32,
    pub daylight: u32,
    pub length: u32,
}

// Writes a minute of the amplitude code by the plan of the six numbers and the messages.
#[unsafe(no_mangle)]
pub extern "C" fn wwvb_write_amplitude(
    kind: u32,
    spring: u32,
    autumn: u32,
    leap_month: u32,
    leap_sign: i32,
    notice: u32,
    messages: &[u8],
    minute: u32,
    ut1_sign: i32,
    ut1_tenths: u32,
    out: &mut [u8],
) -> WriteReply
    ensures { (symbols_reply result
        ≡ reply_numbers 1
        (write_amplitude (schedule_of (plan_of kind spring autumn leap_month leap_sign notice) messages.now) minute ut1_sign ut1_tenths (length out.old)))
        × (out.new
        ≡ symbols_written (schedule_of (plan_of kind spring autumn leap_month leap_sign notice) messages.now) minute ut1_sign ut1_tenths out.old) }
{
    let schedule = Schedule {
        plan: Plan {
            kind,
            spring,
            autumn,
            leap_month,
            leap_sign,
            notice,
        },
        messages,
    };
    let ut1 = Ut1 {
        sign: ut1_sign,
        tenths: ut1_tenths,
    };
    WriteReply::from(amplitude_writer::write_minute(schedule, minute, ut1, out))
}

// 0 and the values of a minute, with its date.
fn accepted(values: Values) -> AmplitudeReply
    requires { legal_values values ≡ true }
    ensures { result ≡ accepted_reply values }
{
    let date = Date::at_minute(values.minute);
    AmplitudeReply {
        refusal: 0,
        year: date.year,
        month: date.month,
        day: date.day,
        hour: date.hour,
        minute: date.minute,
        weekday: date.weekday,
        ut1_sign: values.sign,
        ut1_tenths: values.tenths,
        warning: values.warning,
        daylight: values.daylight,
        length: values.seconds,
    }
}

// A refusal and no values.
fn refused(refusal: u32) -> AmplitudeReply
    ensures { result ≡ refused_reply refusal }
{
    AmplitudeReply {
        refusal,
        year: 0,
        month: 0,
        day: 0,
        hour: 0,
        minute: 0,
        weekday: 0,
        ut1_sign: 0,
        ut1_tenths: 0,
        warning: 0,
        daylight: 0,
        length: 0,
    }
}

// Reads a minute of the amplitude code.
#[unsafe(no_mangle)]
pub extern "C" fn wwvb_read_amplitude(symbols: &[u8]) -> AmplitudeReply
    ensures { result ≡ amplitude_reply (read_amplitude symbols.now) }
{
    match amplitude_reader::read_minute(symbols) {
        Ok(values) => accepted(values),
        Err(refusal) => refused(u32::from(refusal)),
    }
}
