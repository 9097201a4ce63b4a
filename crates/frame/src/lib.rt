// One frame: writing it and reading it.
#![tactic(auto)]

mod message;

ghost use Rattle.std.specs.Prelude.{◌≡◌, true, ◌&&◌, ◌++◌, ◌-◌, ◌/◌, ◌%◌, ◌^◌, ◌≤◌, ◌<◌, length, take, drop, replicate};
ghost use Rattle.questions.specs.Questions.{asked};
ghost use Rattle.bits.specs.Bits.{bits, number, pick, is_bit, is_zero, all};
ghost use Rattle.gregorian.specs.Gregorian.{day_count};
ghost use Rattle.calendar.specs.Calendar.{minute_count, last_of_month};
ghost use Rattle.codewords.specs.CodeWords.{leap_number, state_number, state_of};
ghost use Rattle.plan.specs.Plan.{legal_plan, length_at};
ghost use Rattle.format.specs.Frame.{min_frame, usual_frame, max_frame, sent_by, body_of, frame, state_in};
ghost use Rattle.format.specs.Message.{message_body};
ghost use Rattle.format.specs.Sending.{day_word};
ghost use Rattle.format.specs.Reading.{seconds_for, entry_of};
ghost use Rattle.format.specs.Questions.{follows, enough, time_questions};
ghost use Rattle.format.specs.Next.{refused, entry, read_next};
ghost use Rattle.frame.specs.Answer.{frame_numbers};

use calendar::Date;
use codewords::{LeapState, State};
use format::Due;
use plan::Plan;
use questions::Refusal;

// What a time frame says beside its state. The place is the repaired one, or 0; the echo is 1 where it is right.
#[derive(Clone, Copy, PartialEq, Eq, Debug)]
pub struct Fields {
    pub minute: u32,
    pub length: u8,
    pub row: u8,
    pub notice: u8,
    pub place: u8,
    pub echo: u8,
}

// What a message says. The minute is the counted one, and the length that of its place.
#[derive(Clone, Copy, PartialEq, Eq, Debug)]
pub struct Told {
    pub minute: u32,
    pub length: u8,
    pub notice: u8,
    pub payload: u64,
}

// What a frame says: a time frame's state and fields, or a message.
#[derive(Clone, Copy, PartialEq, Eq, Debug)]
pub enum Frame {
    Time(State, Fields),
    Message(Told),
}

// The lengths of a frame.
const MIN_FRAME: u8 = plan::MIN_FRAME as u8;

const USUAL_FRAME: u8 = plan::USUAL_FRAME as u8;

const MAX_FRAME: u8 = plan::MAX_FRAME as u8;

// The bits that every frame has, 0 to 58.
pub const BODY: usize = MIN_FRAME as usize;

// The number of the leap state where none was read in the month.
pub const LEAP_UNKNOWN: u8 = 3;

// ---- writing

// Bits 47 to 58 of the frames of a day, as a number.
pub fn day_word(plan: Plan, day: u32) -> u64
    requires { (legal_plan plan ≡ true) × (day < day_count) }
    ensures { result ≡ day_word plan day }
{
    let minute = day * 1440;
    let state = plan.state(minute);
    let next = codewords::next_word(plan.row_for(minute, state.daylight));
    let state = codewords::state_word(state);
    layout::day_part(u64::from(state), u64::from(plan.notice), u64::from(next))
}

// Writes the 59 bits of a word to the front of out, and zeros after them, to a number of seconds.
fn put_word(word: u64, seconds: usize, out: &mut [u8])
    requires { (word < 2 ^ min_frame)
        × (min_frame ≤ seconds)
        × (seconds ≤ max_frame)
        × (seconds ≤ length out.old) }
    ensures { out.new
        ≡ (bits min_frame word ++ replicate (seconds - min_frame) 0) ++ drop seconds out.old }
{
    bits::spread(word << (seconds - BODY), &mut out[..seconds]);
}

// Writes the frame of a minute, whose bits 0 to 58 are those of a word, to the front of out; gives its length.
pub fn put_frame(plan: Plan, minute: u32, word: u64, out: &mut [u8]) -> usize
    requires { (word < 2 ^ min_frame) × (length_at plan «minute» ≤ length out.old) }
    ensures { (result ≡ length_at plan «minute»)
        × (out.new
        ≡ (bits min_frame word ++ replicate (length_at plan «minute» - min_frame) 0) ++ drop (length_at plan «minute») out.old) }
{
    let length = plan.length(minute) as usize;
    put_word(word, length, out);
    length
}

// Bits 0 to 58 of the time frame of a minute, as a number, from the bits of its day.
pub fn time_frame(plan: Plan, minute: u32, day: u64) -> u64
    requires { (legal_plan plan ≡ true)
        × («minute» < minute_count)
        × (day ≡ day_word plan («minute» / 1440)) }
    ensures { result ≡ number (body_of (sent_by plan «minute»)) }
{
    let time = timeword::encode(minute);
    let echo = minute % 2;
    layout::time_part(u64::from(time), u64::from(echo)) * 4096 + day
}

// Bits 0 to 58 of a message in the place of a minute's time frame, as a number.
pub fn message_frame(plan: Plan, minute: u32, payload: u64) -> u64
    requires { (legal_plan plan ≡ true) × (payload < 2 ^ 42) }
    ensures { result ≡ number (message_body (bits 42 payload) («minute» % 2) plan.notice) }
{
    layout::message_part(payload, u64::from(minute % 2), u64::from(plan.notice))
}

// Writes the time frame of a minute to the front of out, from the bits of its day; gives its length.
pub fn write_frame(plan: Plan, minute: u32, day: u64, out: &mut [u8]) -> usize
    requires { (legal_plan plan ≡ true)
        × («minute» < minute_count)
        × (day ≡ day_word plan («minute» / 1440))
        × (length_at plan «minute» ≤ length out.old) }
    ensures { (result ≡ length_at plan «minute»)
        × (out.new
        ≡ frame (sent_by plan «minute») ++ drop (length_at plan «minute») out.old) }
{
    let word = time_frame(plan, minute, day);
    put_frame(plan, minute, word, out)
}

// ---- reading

// The seconds of a minute, where the last minute of a month has the given number.
fn seconds_with(last: u8, minute: u32) -> u8
    ensures { result ≡ pick (last_of_month minute) last usual_frame }
{
    if Date::is_last_of_month(minute) {
        last
    } else {
        USUAL_FRAME
    }
}

// The seconds that the number of a leap state and a minute call for; the calendar is asked only where that state is not
// none.
fn seconds_for(leap: u8, minute: u32) -> u8
    ensures { result ≡ seconds_for leap (last_of_month minute) }
{
    match leap {
        0 => USUAL_FRAME,
        1 => seconds_with(MIN_FRAME, minute),
        _ => seconds_with(MAX_FRAME, minute),
    }
}

// The length that a leap state and a minute call for.
fn length_for(leap: LeapState, minute: u32) -> u8
    ensures { result ≡ seconds_for (leap_number leap) (last_of_month minute) }
{
    seconds_for(u8::from(leap), minute)
}

// Question 13: as many bytes as called for, and those after byte 58 all 0.
fn ends_right(frame: &[u8], alone: bool, seconds: u8) -> bool
    requires { min_frame ≤ seconds }
    ensures { result
        ≡ (enough alone seconds (length frame.now) && all is_zero (take (seconds - min_frame) (drop min_frame frame.now))) }
{
    let seconds = usize::from(seconds);
    let enough = if alone {
        seconds == frame.len()
    } else {
        seconds <= frame.len()
    };
    enough && bits::is_zero(&frame[BODY..seconds])
}

// Question 14 of a time frame.
fn is_due(due: Due, minute: u32) -> bool
    ensures { result ≡ follows due minute }
{
    match due {
        Due::Any => true,
        Due::Minute(due, _) => minute == due,
    }
}

// Questions 10, 11, 13 and 14, of a time frame whose first 59 bits and state are read.
fn read_fields(
    frame: &[u8],
    alone: bool,
    word: u64,
    state: State,
    due: Due,
) -> Result<Frame, Refusal>
    requires { (take min_frame frame.now ≡ bits min_frame word)
        × (state_number state ≡ state_of (number (state_in frame.now))) }
    ensures { frame_numbers result
        ≡ asked refused (time_questions due alone frame.now (entry_of frame.now)) (entry (entry_of frame.now)) }
{
    let Some(row) = codewords::read_row(state.daylight, (word % 64) as u8) else {
        return Err(Refusal::BadNextChange);
    };
    let received = layout::time_word(word);
    let time = timeword::decode(received);
    let minute = time.minute;
    if Date::MINUTES <= minute {
        return Err(Refusal::BadMinute);
    }
    let length = length_for(state.leap, minute);
    if !ends_right(frame, alone, length) {
        return Err(Refusal::BadLength);
    }
    if !is_due(due, minute) {
        return Err(Refusal::OutOfOrder);
    }
    let notice = layout::notice_bit(word);
    let echo = layout::echo_right(word, minute);
    let fields = Fields {
        minute,
        length,
        row,
        notice,
        place: time.place,
        echo,
    };
    Ok(Frame::Time(state, fields))
}

// Reads the frame at the front of a slice in a state, whose first 59 bits are those of a word: one frame alone, or the next frame of a recording.
pub fn read_frame(frame: &[u8], alone: bool, word: u64, due: Due) -> Result<Frame, Refusal>
    requires { (min_frame ≤ length frame.now)
        × (all is_bit (take min_frame frame.now) ≡ true)
        × (number (take min_frame frame.now) ≡ word) }
    ensures { frame_numbers result ≡ read_next due alone frame.now }
{
    let sync = word >> 46;
    if sync != layout::SYNC {
        if sync == layout::MESSAGE_SYNC {
            return message::read(frame, alone, word, due);
        }
        return Err(Refusal::BadSync);
    }
    let Some(state) = codewords::read_state(layout::state_bits(word)) else {
        return Err(Refusal::BadState);
    };
    read_fields(frame, alone, word, state, due)
}
