// IRIG 200 format B, one second a call: written by a plan with messages, and read.
#![tactic(auto)]

ghost use Rattle.std.specs.Prelude.{◌≡◌, ◌≤◌, ◌<◌, length};
ghost use Rattle.messages.specs.Bytes.{schedule_of};
ghost use Rattle.irig_rules.specs.Irig.{day_of_year, clock_at};
ghost use Rattle.irig_rules.specs.Reading.{ends_month, real_second, real_clock, read_irig};
ghost use Rattle.irig_rules.specs.Writing.{write_irig, elements_written};
ghost use Rattle.irig.specs.Answer.{write_numbers, read_numbers};

use calendar::Minute;
use gregorian::Year;
use irig_row::ELEMENTS;
use irig_rules::Clock;
use messages::Schedule;
use questions::Refusal;

// A second of a year: the day of the year, which is counted from 1, and the second of the day.
#[derive(Clone, Copy)]
pub struct Seconds {
    pub day: u32,
    pub second: u32,
}

// ---- writing

// The day of the year of a minute, counted from 1.
fn day_of_year(minute: Minute) -> u32
    ensures { result ≡ day_of_year minute.index }
{
    let day = minute.index / 1440;
    day - gregorian::days_before(Year::of_day(day).since_first) + 1
}

// The time of a second of a minute.
#[tactic(auto, unfolding(irig_rules::specs::Irig::clock_at))]
fn clock_at(minute: Minute, second: u32) -> Clock
    ensures { result ≡ clock_at minute.index second }
{
    Clock {
        day: day_of_year(minute),
        hour: minute.index % 1440 / 60,
        minute: minute.index % 60,
        second,
    }
}

// Writes one second; a refused one leaves the buffer as it was. Of the messages only question 1 is asked.
pub fn write_second(
    schedule: Schedule,
    minute: u32,
    second: u32,
    out: &mut [u8],
) -> Result<usize, Refusal>
    ensures { (write_numbers result
        ≡ write_irig (schedule_of schedule.entry.plan schedule.entry.messages.now) minute second (length out.old))
        × (out.new
        ≡ elements_written (schedule_of schedule.entry.plan schedule.entry.messages.now) minute second out.old) }
{
    if !schedule.is_legal() {
        return Err(Refusal::IllegalPlan);
    }
    let minute = Minute::try_from(minute)?;
    if schedule.plan.length(minute.index) <= second {
        return Err(Refusal::BadSecond);
    }
    if out.len() < ELEMENTS {
        return Err(Refusal::NoBitSpace);
    }
    irig_row::put_row(clock_at(minute, second), out);
    Ok(ELEMENTS)
}

// ---- reading

// Whether a day of the year, counted from 1, ends a month in a common or a leap year. If February had 30 days, the first m
// months would have (m * 979 + 13) / 32. From February on a leap year has one day less, and a common year two. So a later day
// ends a month if it is one or two below that number for some m; `months` is the largest m with a number of at most day + 2.
fn ends_month(day: u32) -> bool
    requires { day ≤ 366 }
    ensures { result ≡ ends_month day }
{
    if day < 32 {
        return day == 31;
    }
    let months = (day * 32 + 82) / 979;
    day < (months * 979 + 13) / 32
}

// Whether the second is below 60, or second 60 of 23:59 on a day that ends a month.
#[tactic(auto, unfolding(irig_rules::specs::Reading::real_second))]
fn has_real_second(c: Clock) -> bool
    requires { c.day ≤ 366 }
    ensures { result ≡ real_second c }
{
    c.second < 60 || c.second == 60 && c.hour == 23 && c.minute == 59 && ends_month(c.day)
}

// Whether the day of the year, the hour, the minute and the second are real.
#[tactic(auto, unfolding(irig_rules::specs::Reading::real_clock))]
fn is_real(c: Clock) -> bool
    ensures { result ≡ real_clock c }
{
    (1..=366).contains(&c.day) && c.hour < 24 && c.minute < 60 && has_real_second(c)
}

// Reads one second: the elements show a real time, and are the elements of that time.
pub fn read_second(elements: &[u8]) -> Result<Seconds, Refusal>
    ensures { read_numbers result ≡ read_irig elements.now }
{
    if elements.len() == ELEMENTS {
        let clock = irig_row::clock_in(elements);
        if is_real(clock) && irig_row::is_row(clock, elements) {
            let second = irig_row::second_of_day(clock);
            return Ok(Seconds {
                day: clock.day,
                second,
            });
        }
    }
    Err(Refusal::BadSecond)
}
