// The calls for programs in C: numbers, byte slices, and replies that are structs of numbers of one width.
#![tactic(auto)]

pub mod amplitude;
pub mod irig_b;
pub mod pages;

ghost use Rattle.std.specs.Prelude.{◌≡◌, [], ◌∷◌, length};
ghost use Rattle.calendar.specs.Answer.{date_numbers, minute_numbers, date_of_minute, minute_of_date};
ghost use Rattle.localtime.specs.Local.{local_of};
ghost use Rattle.messages.specs.Bytes.{schedule_of};
ghost use Rattle.format.specs.Questions.{start};
ghost use Rattle.format.specs.Next.{read_one};
ghost use Rattle.sequence.specs.Writing.{write_result, buffer_written};
ghost use Rattle.sequence.specs.Reading.{read_into};
ghost use Rattle.questions.specs.Refusals.{answer_numbers};
ghost use Rattle.recording.specs.Answer.{write_numbers};
ghost use Rattle.entries.specs.Answer.{end_number};
ghost use Rattle.wwvb.specs.Amplitude.{symbols_reply};
ghost use Rattle.wwvb.specs.Replies.{plan_of, date_of, reply_numbers, date_reply, minute_reply, write_reply, one_reply, read_reply};

use calendar::Date;
use format::Due;
use messages::Schedule;
use plan::Plan;
use questions::Refusal;

// The refusal or 0, and the date; refused, every other field is 0.
#[repr(C)]
#[derive(Clone, Copy)]
pub struct DateReply {
    pub refusal: u32,
    pub year: u32,
    pub month: u32,
    pub day: u32,
    pub hour: u32,
    pub minute: u32,
    pub weekday: u32,
}

// The refusal or 0, and the minute; refused, the minute is 0.
#[repr(C)]
#[derive(Clone, Copy)]
pub struct MinuteReply {
    pub refusal: u32,
    pub minute: u32,
}

// The refusal or 0, and the number of bits or of symbols; refused, that number is 0.
#[repr(C)]
#[derive(Clone, Copy)]
pub struct WriteReply {
    pub refusal: usize,
    pub bits: usize,
}

// The entries, the bits that they took, and the refusal or 0.
#[repr(C)]
#[derive(Clone, Copy)]
pub struct ReadReply {
    pub entries: usize,
    pub used: usize,
    pub refusal: usize,
}

impl From<Result<Date, Refusal>> for DateReply {
    ghost from_gives = { λ answer reply. date_reply reply ≡ reply_numbers 6 (date_numbers answer) };

    #[tactic(auto, using(crate::proofs::Refused::not_zero), unfolding(crate::specs::Replies::reply_numbers))]
    fn from(answer: Result<Date, Refusal>) -> DateReply {
        match answer {
            Ok(date) => DateReply {
                refusal: 0,
                year: date.year,
                month: date.month,
                day: date.day,
                hour: date.hour,
                minute: date.minute,
                weekday: date.weekday,
            },
            Err(refusal) => DateReply {
                refusal: u32::from(refusal),
                year: 0,
                month: 0,
                day: 0,
                hour: 0,
                minute: 0,
                weekday: 0,
            },
        }
    }
}

impl From<Result<u32, Refusal>> for MinuteReply {
    ghost from_gives = { λ answer reply. minute_reply reply ≡ reply_numbers 1 (minute_numbers answer) };

    #[tactic(auto, using(crate::proofs::Refused::not_zero), unfolding(crate::specs::Replies::reply_numbers))]
    fn from(answer: Result<u32, Refusal>) -> MinuteReply {
        match answer {
            Ok(minute) => MinuteReply { refusal: 0, minute },
            Err(refusal) => MinuteReply {
                refusal: u32::from(refusal),
                minute: 0,
            },
        }
    }
}

impl From<Result<usize, Refusal>> for WriteReply {
    ghost from_gives = { λ answer reply. (write_reply reply ≡ write_numbers answer)
        × (symbols_reply reply ≡ reply_numbers 1 (answer_numbers (λ bits. bits ∷ []) answer)) };

    #[tactic(auto, using(crate::proofs::Refused::not_zero), unfolding(crate::specs::Replies::reply_numbers))]
    fn from(answer: Result<usize, Refusal>) -> WriteReply {
        match answer {
            Ok(bits) => WriteReply { refusal: 0, bits },
            Err(refusal) => WriteReply {
                refusal: u32::from(refusal) as usize,
                bits: 0,
            },
        }
    }
}

// The number of a refusal, or 0.
fn number(end: Result<(), Refusal>) -> u32
    ensures { result ≡ end_number end }
{
    match end {
        Ok(()) => 0,
        Err(refusal) => u32::from(refusal),
    }
}

// The date of a minute.
#[unsafe(no_mangle)]
pub extern "C" fn wwvb_minute_to_date(minute: u32) -> DateReply
    ensures { date_reply result ≡ reply_numbers 6 (date_of_minute minute) }
{
    DateReply::from(Date::from_minute(minute))
}

// The local date of a minute with its daylight state, by a standard offset and a change hour.
#[unsafe(no_mangle)]
pub extern "C" fn wwvb_local_date(minute: u32, state: u32, offset: i32, hour: u32) -> DateReply
    ensures { date_reply result ≡ reply_numbers 6 (local_of minute state offset hour) }
{
    DateReply::from(localtime::local_date(minute, state, offset, hour))
}

// The minute of a date.
#[unsafe(no_mangle)]
pub extern "C" fn wwvb_date_to_minute(
    year: u32,
    month: u32,
    day: u32,
    hour: u32,
    minute: u32,
) -> MinuteReply
    ensures { minute_reply result ≡ reply_numbers 1 (minute_of_date (date_of year month day hour minute)) }
{
    let date = Date {
        year,
        month,
        day,
        hour,
        minute,
        weekday: 0,
    };
    MinuteReply::from(date.to_minute())
}

// Writes a recording by the plan of the six numbers and its messages, ten bytes each.
#[unsafe(no_mangle)]
pub extern "C" fn wwvb_write_recording(
    kind: u32,
    spring: u32,
    autumn: u32,
    leap_month: u32,
    leap_sign: i32,
    notice: u32,
    messages: &[u8],
    first: u32,
    count: u32,
    out: &mut [u8],
) -> WriteReply
    ensures { (write_reply result
        ≡ write_result (schedule_of (plan_of kind spring autumn leap_month leap_sign notice) messages.now) first count (length out.old))
        × (out.new
        ≡ buffer_written (schedule_of (plan_of kind spring autumn leap_month leap_sign notice) messages.now) first count out.old) }
{
    let schedule = Schedule {
        plan: Plan {
            kind,
            spring,
            autumn,
            leap_month,
            leap_sign,
            notice,
        },
        messages,
    };
    WriteReply::from(recording::write_recording(schedule, first, count, out))
}

// Reads one frame alone into an entry; gives the refusal or 0.
#[unsafe(no_mangle)]
pub extern "C" fn wwvb_read_frame(bits: &[u8], entry: &mut [u8]) -> u32
    ensures { one_reply result entry.new ≡ read_one start entry.old bits.now }
{
    let one = entries::read_one(bits, entry, Due::Any);
    number(one.end)
}

// Reads a recording into entries.
#[unsafe(no_mangle)]
pub extern "C" fn wwvb_read_recording(bits: &[u8], entries: &mut [u8]) -> ReadReply
    ensures { read_reply result entries.new ≡ read_into entries.old bits.now }
{
    let summary = entries::read_recording(bits, entries);
    ReadReply {
        entries: summary.entries,
        used: summary.used,
        refusal: number(summary.end) as usize,
    }
}
