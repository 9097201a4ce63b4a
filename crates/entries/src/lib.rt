// Frames read into entries: one frame, or a recording, from a state on.
#![tactic(auto)]

ghost use Rattle.std.specs.Prelude.{◌≡◌, ◌++◌, ◌≤◌, length, drop};
ghost use Rattle.bits.specs.Bits.{pick};
ghost use Rattle.calendar.specs.Calendar.{last_of_month};
ghost use Rattle.codewords.specs.CodeWords.{leap_number};
ghost use Rattle.format.specs.Entry.{entry_size, entry_bytes};
ghost use Rattle.format.specs.Message.{message_entry};
ghost use Rattle.format.specs.Questions.{start, unknown, leap_read};
ghost use Rattle.format.specs.Next.{read_entry, one_outcome, read_one, one_due};
ghost use Rattle.frame.specs.Answer.{entry_from};
ghost use Rattle.sequence.specs.Reading.{read_from, due_from, read_into};
ghost use Rattle.entries.specs.Answer.{step_numbers, progress, end_number, end_outcome, summary_outcome};

use calendar::Date;
use codewords::State;
use format::Due;
use frame::{Fields, Frame, LEAP_UNKNOWN, Told};
use questions::Refusal;

// The entries written, the bits that they took, how the reading ended, and the state after them.
#[derive(Clone, Copy, PartialEq, Eq, Debug)]
pub struct Summary {
    pub entries: usize,
    pub used: usize,
    pub end: Result<(), Refusal>,
    pub due: Due,
}

// How the reading of one frame ended, and the state after it.
#[derive(Clone, Copy, PartialEq, Eq, Debug)]
pub struct One {
    pub end: Result<(), Refusal>,
    pub due: Due,
}

// What an accepted frame advances the reading by: its number of bits, with the minute that is due after it and the leap
// state last read in the month of that minute. The three numbers stand side by side: a Due for the last two would be
// stored in pieces and loaded as a whole, and each frame would wait for it.
#[derive(Clone, Copy)]
struct Advance {
    length: u8,
    minute: u32,
    leap: u8,
}

// The bytes of an entry.
pub const ENTRY_SIZE: usize = 18;

// Writes the entry of a time frame to the front of out.
fn put_entry(state: State, fields: Fields, out: &mut [u8])
    requires { entry_size ≤ length out.old }
    ensures { out.new ≡ entry_bytes (entry_from state fields) ++ drop entry_size out.old }
{
    let minute = fields.minute.to_be_bytes();
    let entry: [u8; ENTRY_SIZE] = [
        minute[0],
        minute[1],
        minute[2],
        minute[3],
        fields.length,
        u8::from(state.daylight),
        u8::from(state.leap),
        fields.row,
        fields.notice,
        fields.place,
        fields.echo,
        0,
        0,
        0,
        0,
        0,
        0,
        0,
    ];
    out[..ENTRY_SIZE].copy_from_slice(&entry);
}

// Writes the entry of a message to the front of out.
fn put_message(told: Told, out: &mut [u8])
    requires { entry_size ≤ length out.old }
    ensures { out.new ≡ entry_bytes (message_entry told.minute told.length told.notice told.payload) ++ drop entry_size out.old }
{
    let minute = told.minute.to_be_bytes();
    let payload = told.payload.to_be_bytes();
    let entry: [u8; ENTRY_SIZE] = [
        minute[0],
        minute[1],
        minute[2],
        minute[3],
        told.length,
        0,
        0,
        0,
        told.notice,
        0,
        1,
        1,
        payload[2],
        payload[3],
        payload[4],
        payload[5],
        payload[6],
        payload[7],
    ];
    out[..ENTRY_SIZE].copy_from_slice(&entry);
}

// The leap state last read in the month of the minute that is due.
fn leap_read(due: Due) -> u8
    ensures { result ≡ leap_read due }
{
    match due {
        Due::Any => LEAP_UNKNOWN,
        Due::Minute(_, leap) => leap,
    }
}

// The leap state after a minute with a leap state: in a new month none was read.
fn leap_after(minute: u32, leap: u8) -> u8
    ensures { result ≡ pick (last_of_month minute) unknown leap }
{
    if Date::is_last_of_month(minute) {
        LEAP_UNKNOWN
    } else {
        leap
    }
}

// The leap state after a time frame.
fn leap_after_time(minute: u32, state: State) -> u8
    ensures { result ≡ pick (last_of_month minute) unknown (leap_number state.leap) }
{
    leap_after(minute, u8::from(state.leap))
}

// The step of reading: the next frame in a state, alone or of a recording, to the front of out as an entry of 18 bytes.
fn read_entry(bits: &[u8], alone: bool, due: Due, out: &mut [u8]) -> Result<Advance, Refusal>
    ensures { (step_numbers result
        ≡ progress due (read_entry due alone (length out.old) bits.now))
        × (out.new
        ≡ (one_outcome out.old (read_entry due alone (length out.old) bits.now)).buffer) }
{
    if out.len() < ENTRY_SIZE {
        return Err(Refusal::NoEntrySpace);
    }
    let frame = reader::read_next(bits, alone, due)?;
    match frame {
        Frame::Time(state, fields) => {
            put_entry(state, fields, out);
            Ok(Advance {
                length: fields.length,
                minute: fields.minute + 1,
                leap: leap_after_time(fields.minute, state),
            })
        }
        Frame::Message(told) => {
            put_message(told, out);
            Ok(Advance {
                length: told.length,
                minute: told.minute + 1,
                leap: leap_after(told.minute, leap_read(due)),
            })
        }
    }
}

// Reads one frame alone in a state into an entry of 18 bytes.
pub fn read_one(bits: &[u8], entry: &mut [u8], due: Due) -> One
    ensures { (end_outcome result.end entry.new
        ≡ read_one due entry.old bits.now)
        × (result.due ≡ one_due due entry.old bits.now) }
{
    match read_entry(bits, true, due, entry) {
        Ok(step) => One {
            end: Ok(()),
            due: Due::Minute(step.minute, step.leap),
        },
        Err(refusal) => One {
            end: Err(refusal),
            due,
        },
    }
}

// Reads frames into entries of 18 bytes each, from a state on.
pub fn read_from(bits: &[u8], entries: &mut [u8], due: Due) -> Summary
    ensures { (summary_outcome result entries.new
        ≡ read_from due entries.old bits.now)
        × (result.due ≡ due_from due entries.old bits.now) }
{
    let mut used = 0;
    let mut count = 0;
    let mut next = due;
    while used < bits.len() {
        let from = count * ENTRY_SIZE;
        match read_entry(&bits[used..], false, next, &mut entries[from..]) {
            Ok(step) => {
                used += usize::from(step.length);
                count += 1;
                next = Due::Minute(step.minute, step.leap);
            }
            Err(refusal) => {
                return Summary {
                    entries: count,
                    used,
                    end: Err(refusal),
                    due: next,
                };
            }
        }
    }
    Summary {
        entries: count,
        used,
        end: Ok(()),
        due: next,
    }
}

// Reads a recording into entries of 18 bytes each.
pub fn read_recording(bits: &[u8], entries: &mut [u8]) -> Summary
    ensures { (summary_outcome result entries.new ≡ read_into entries.old bits.now)
        × (result.due ≡ due_from start entries.old bits.now) }
{
    read_from(bits, entries, Due::Any)
}
