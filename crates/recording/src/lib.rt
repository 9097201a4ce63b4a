// Recordings written: many frames, one after the other.
#![tactic(auto)]

ghost use Rattle.std.specs.Prelude.{◌≡◌, true, ◌++◌, ◌+◌, ◌-◌, ◌/◌, ◌^◌, ◌≤◌, ◌<◌, length, drop, replicate};
ghost use Rattle.calendar.specs.Calendar.{minute_count};
ghost use Rattle.plan.specs.Plan.{length_at};
ghost use Rattle.messages.specs.Message.{legal_schedule};
ghost use Rattle.messages.specs.Bytes.{schedule_of};
ghost use Rattle.messages.specs.Walk.{NextIs};
ghost use Rattle.bits.specs.Bits.{bits};
ghost use Rattle.format.specs.Frame.{min_frame};
ghost use Rattle.format.specs.Message.{content_at, frame_of};
ghost use Rattle.format.specs.Sending.{day_word};
ghost use Rattle.sequence.specs.Writing.{max_count, recording, seconds, write_result, buffer_written};
ghost use Rattle.recording.specs.Answer.{write_numbers};

use calendar::{Date, Minute};
use messages::Schedule;
use plan::{Plan, USUAL_FRAME};
use questions::Refusal;

const MAX_COUNT: u32 = 1_000;

// The bits of the frames of count minutes from the first on. They are less than a day, so that one of them at most
// ends a day, and only such a minute can have 59 or 61 seconds.
fn bits_needed(plan: Plan, first: u32, count: u32) -> usize
    requires { (count ≤ max_count) × (first + count ≤ minute_count) }
    ensures { result ≡ seconds plan first count }
{
    let last = first / 1440 * 1440 + 1439;
    let mut sum = count * USUAL_FRAME;
    if last < first + count {
        sum = sum - USUAL_FRAME + plan.length(last);
    }
    sum as usize
}

// Bits 0 to 58 of what is sent in a minute, as a number: of message k where its minute is due, else of the time frame.
fn word_sent(schedule: Schedule, k: usize, due: u32, minute: Minute, day: u64) -> u64
    requires { (legal_schedule (schedule_of schedule.plan schedule.messages.now) ≡ true)
        × NextIs schedule.messages.now «minute».index k due
        × (day ≡ day_word schedule.plan («minute».index / 1440)) }
    ensures { (result < 2 ^ min_frame)
        × (bits min_frame result ++ replicate (length_at schedule.entry.plan «minute».index - min_frame) 0
        ≡ frame_of (content_at (schedule_of schedule.entry.plan schedule.entry.messages.now) «minute».index)) }
{
    if minute.index == due {
        let payload = messages::payload_at(schedule.messages, k);
        frame::message_frame(schedule.plan, minute.index, payload)
    } else {
        frame::time_frame(schedule.plan, minute.index, day)
    }
}

// Writes what is sent in a minute to the front of out; gives its length.
fn write_next(
    schedule: Schedule,
    k: usize,
    due: u32,
    minute: Minute,
    word: u64,
    out: &mut [u8],
) -> usize
    requires { (legal_schedule (schedule_of schedule.plan schedule.messages.now) ≡ true)
        × NextIs schedule.messages.now «minute».index k due
        × (word ≡ day_word schedule.plan («minute».index / 1440))
        × (length_at schedule.plan «minute».index ≤ length out.old) }
    ensures { (result ≡ length_at schedule.entry.plan «minute».index)
        × (out.new
        ≡ frame_of (content_at (schedule_of schedule.entry.plan schedule.entry.messages.now) «minute».index) ++ drop (length_at schedule.entry.plan «minute».index) out.old) }
{
    let sent = word_sent(schedule, k, due, minute, word);
    frame::put_frame(schedule.plan, minute.index, sent, out)
}

// Writes the frames of count minutes from the first on, each directly after the one before. The bits that a day's
// frames share are worked out once for the day; message k is the next one, and due its minute.
fn write_frames(schedule: Schedule, first: u32, count: u32, out: &mut [u8])
    requires { (legal_schedule (schedule_of schedule.plan schedule.messages.now) ≡ true)
        × (1 ≤ count)
        × (first + count ≤ minute_count)
        × (seconds schedule.plan first count ≤ length out.old) }
    ensures { out.new
        ≡ recording (schedule_of schedule.entry.plan schedule.entry.messages.now) first count ++ drop (seconds schedule.entry.plan first count) out.old }
{
    let mut day = first / 1440;
    let mut word = frame::day_word(schedule.plan, day);
    let mut k = messages::first_from(schedule.messages, first);
    let mut due = messages::next_minute(schedule.messages, k);
    let mut at = 0;
    for i in 0..count {
        let minute = Minute { index: first + i };
        if minute.index / 1440 != day {
            day = minute.index / 1440;
            word = frame::day_word(schedule.plan, day);
        }
        at += write_next(schedule, k, due, minute, word, &mut out[at..]);
        if minute.index == due {
            k += 1;
            due = messages::next_minute(schedule.messages, k);
        }
    }
}

// Writes a recording by a plan with messages, ten bytes each; gives the number of its bits. A refused one leaves the
// buffer as it was. Question 1 is one call: with one branch more before write_recording calls write_frames the compiler
// takes that call for a rare one, and a single frame is written some 10 % slower.
pub fn write_recording(
    schedule: Schedule,
    first: u32,
    count: u32,
    out: &mut [u8],
) -> Result<usize, Refusal>
    ensures { (write_numbers result
        ≡ write_result (schedule_of schedule.entry.plan schedule.entry.messages.now) first count (length out.old))
        × (out.new
        ≡ buffer_written (schedule_of schedule.entry.plan schedule.entry.messages.now) first count out.old) }
{
    if !schedule.is_legal() {
        return Err(Refusal::IllegalPlan);
    }
    if count < 1 || MAX_COUNT < count {
        return Err(Refusal::BadCount);
    }
    if Date::MINUTES - count < first {
        return Err(Refusal::MinuteTooLarge);
    }
    let needed = bits_needed(schedule.plan, first, count);
    if out.len() < needed {
        return Err(Refusal::NoBitSpace);
    }
    write_frames(schedule, first, count, out);
    Ok(needed)
}
