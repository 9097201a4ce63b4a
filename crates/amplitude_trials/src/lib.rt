// What `vectors` tries of the amplitude code: minutes written and read.
#![tactic(auto)]

use amplitude_rules::{Ut1, Values};
use messages::Schedule;
use questions::Refusal;
use std::io;
use std::io::Write;
use trials::{dates, show};

// 0 and the date, UT1 sign and tenths, warning, dst_on[1] and dst_on[0], length.
fn values<W: Write>(to: &mut W, r: Values) -> io::Result<()> {
    dates::of_minute(to, r.minute)?;
    show::sign(to, r.sign)?;
    show::value(to, r.tenths)?;
    show::value(to, r.warning)?;
    show::daylight(to, r.daylight)?;
    show::value(to, r.seconds)
}

// Reads symbols: the refusal, or 0 and what they say.
fn read<W: Write>(to: &mut W, symbols: &[u8]) -> io::Result<()> {
    match amplitude_reader::read_minute(symbols) {
        Ok(r) => values(to, r),
        Err(refusal) => show::refusal(to, refusal),
    }
}

// Reads given symbols.
pub fn given<W: Write>(to: &mut W, digits: &[u8]) -> io::Result<()> {
    let mut space = [0u8; 128];
    let Some(symbols) = space.get_mut(..digits.len()) else {
        return Ok(());
    };
    cases::load(digits, symbols);
    read(to, symbols)
}

// Writes a minute: one text has the plan and the minute, the other UT1 and the messages, which may be 50 bytes.
fn write(plan: &[u8], ut1: &[u8], out: &mut [u8]) -> Option<Result<usize, Refusal>> {
    let bytes = cases::messages(ut1, 4);
    let messages = bytes.get(..cases::size(ut1, 4))?;
    let schedule = Schedule {
        plan: cases::plan(plan),
        messages,
    };
    let minute = cases::number(plan, 6);
    let ut1 = Ut1 {
        sign: cases::signed(ut1, 1),
        tenths: cases::number(ut1, 2),
    };
    Some(amplitude_writer::write_minute(schedule, minute, ut1, out))
}

// Writes into so many bytes of 64: the refusal or 0, the number of symbols, all 64 bytes, and what reading the symbols gives.
fn minute<W: Write>(to: &mut W, plan: &[u8], ut1: &[u8]) -> io::Result<()> {
    let mut out = [7u8; 64];
    let answer = show::front(to, &mut out, cases::size(ut1, 3), |out| {
        write(plan, ut1, out)
    })?;
    let n = answer.unwrap_or(0);
    show::size(to, n)?;
    show::digits(to, &out)?;
    match out.get(..n) {
        Some(symbols) if !symbols.is_empty() => {
            show::mark(to, b':')?;
            read(to, symbols)
        }
        _ => Ok(()),
    }
}

// `plan .. minute M, UT1 SIGN TENTHS, in SPACE:` is taken in two halves, as each may have a minus. The first number of the second
// half is the 1 of `UT1`; the messages of a plan come last, as in `plan .. in SPACE, 10 bytes of messages MINUTE DATA:`.
pub fn written<W: Write>(to: &mut W, text: &[u8]) -> io::Result<()> {
    let comma = text.iter().position(|b| *b == b',').unwrap_or(text.len());
    minute(to, &text[..comma], &text[comma..])
}
