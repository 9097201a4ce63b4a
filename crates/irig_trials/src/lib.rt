// What `vectors` tries of IRIG B: seconds written and read.
#![tactic(auto)]

use messages::Schedule;
use questions::Refusal;
use std::io;
use std::io::Write;
use trials::show;

// Space for the elements of a second, and four bytes more.
const OUT_SPACE: usize = 104;

// Reads elements: the refusal, or 0, the day of the year and the second of the day.
fn read<W: Write>(to: &mut W, elements: &[u8]) -> io::Result<()> {
    match irig::read_second(elements) {
        Ok(seconds) => show::found_pair(to, seconds.day, seconds.second),
        Err(refusal) => show::refusal(to, refusal),
    }
}

// Reads given elements.
pub fn given<W: Write>(to: &mut W, digits: &[u8]) -> io::Result<()> {
    let mut space = [0u8; 128];
    let Some(elements) = space.get_mut(..digits.len()) else {
        return Ok(());
    };
    cases::load(digits, elements);
    read(to, elements)
}

// Writes a second, with messages of at most 50 bytes.
fn write(text: &[u8], out: &mut [u8]) -> Option<Result<usize, Refusal>> {
    let bytes = cases::messages(text, 9);
    let messages = bytes.get(..cases::size(text, 9))?;
    let schedule = Schedule {
        plan: cases::plan(text),
        messages,
    };
    let minute = cases::number(text, 6);
    let second = cases::number(text, 7);
    Some(irig::write_second(schedule, minute, second, out))
}

// `plan .. minute M, second S, in SPACE:` writes into so many bytes of 104: the refusal or 0, the number
// of elements, all 104 bytes, and what reading the elements gives. The messages of a plan come last, as
// in `plan .. in SPACE, 10 bytes of messages MINUTE DATA:`.
pub fn written<W: Write>(to: &mut W, text: &[u8]) -> io::Result<()> {
    let mut out = [7u8; OUT_SPACE];
    let answer = show::front(to, &mut out, cases::size(text, 8), |out| write(text, out))?;
    let n = answer.unwrap_or(0);
    show::size(to, n)?;
    show::digits(to, &out)?;
    match out.get(..n) {
        Some(elements) if !elements.is_empty() => {
            show::mark(to, b':')?;
            read(to, elements)
        }
        _ => Ok(()),
    }
}
