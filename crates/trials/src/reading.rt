// Frames and recordings read.
ghost use Rattle.std.specs.Prelude.{◌≡◌, OnOk, ◌∷◌, [], ◌++◌, length, take, drop, nat_le};
ghost use Rattle.bits.specs.Bits.{pick};
ghost use Rattle.std.specs.Io.KnownBytes.{Appends};
ghost use Rattle.entries.specs.Answer.{end_number};
ghost use Rattle.trials.specs.declared.reading.As.TheVariants.{RecordingIn};
ghost use Rattle.trials.specs.Shown.{spaced};
ghost use Rattle.trials.specs.Tried.{due_in, told_due, told, entries_after, shows_entries, read_as, given_as, resumed_twice};

use crate::show;
use entries::{ENTRY_SIZE, Summary};
use format::Due;
use std::io;
use std::io::Write;

// Space for the most frames of a recording.
const ENTRY_SPACE: usize = 1000 * ENTRY_SIZE;

// Space for six frames.
const BIT_SPACE: usize = 6 * 61;

// What bits are read as: one frame or a recording, with nothing read before or in a state. Of a long recording no entries are shown.
#[derive(Clone, Copy)]
pub enum As {
    Frame,
    FrameIn(Due),
    Recording,
    RecordingIn(Due),
    LongRecording,
}

impl As {
    // Whether the entry bytes are shown.
    fn shows_entries(self) -> bool
        ensures { result ≡ shows_entries self }
    {
        !matches!(self, As::LongRecording)
    }
}

// Of a recording: the entries, the bits used, and the refusal or 0.
fn summary<W: Write>(to: &mut W, answer: Summary) -> io::Result<()>
    ensures { OnOk result (Appends (W.contents to.old) (W.contents to.new) (spaced (answer.entries ∷ answer.used ∷ end_number answer.end ∷ []))) }
{
    show::size(to, answer.entries)?;
    show::size(to, answer.used)?;
    show::outcome(to, answer.end)
}

// The state after a reading: the minute expected, and the leap state last read in its month, 3 where none was.
fn state<W: Write>(to: &mut W, due: Due) -> io::Result<()>
    ensures { OnOk result (Appends (W.contents to.old) (W.contents to.new) (told_due due)) }
{
    show::text(to, b", then")?;
    match due {
        Due::Any => show::text(to, b" any"),
        Due::Minute(minute, leap) => show::due(to, minute, leap),
    }
}

// Reads the bits into the entry bytes: what reading gives, and in a state the state after it.
fn read_into<W: Write>(to: &mut W, bits: &[u8], entries: &mut [u8], how: As) -> io::Result<()>
    ensures shown { OnOk result (Appends (W.contents to.old) (W.contents to.new) (told how entries.old bits.now)) }
    ensures entries { entries.new ≡ entries_after how entries.old bits.now }
{
    match how {
        As::Frame => {
            let answer = entries::read_one(bits, entries, Due::Any);
            show::outcome(to, answer.end)
        }
        As::FrameIn(due) => {
            let answer = entries::read_one(bits, entries, due);
            show::outcome(to, answer.end)?;
            state(to, answer.due)
        }
        As::Recording | As::LongRecording => summary(to, entries::read_recording(bits, entries)),
        As::RecordingIn(due) => {
            let answer = entries::read_from(bits, entries, due);
            summary(to, answer)?;
            state(to, answer.due)
        }
    }
}

// Reads the bits into the first entry bytes: as many as `space`, or none where there are fewer.
fn read_front<W: Write>(
    to: &mut W,
    bits: &[u8],
    entries: &mut [u8],
    space: usize,
    how: As,
) -> io::Result<()>
    ensures shown { OnOk result (Appends (W.contents to.old) (W.contents to.new) (pick (nat_le space (length entries.old)) (told how (take space entries.old) bits.now) [])) }
    ensures entries { entries.new ≡ pick (nat_le space (length entries.old)) (entries_after how (take space entries.old) bits.now ++ drop space entries.old) entries.old }
{
    if space <= entries.len() {
        read_into(to, bits, &mut entries[..space], how)?;
    }
    Ok(())
}

// Reads the bits with so many entry bytes: what reading gives, and, but for a long recording, these bytes with two more.
#[tactic(auto, unfolding(crate::specs::Tried::read_as))]
pub fn read<W: Write>(to: &mut W, bits: &[u8], space: usize, how: As) -> io::Result<()>
    ensures { OnOk result (Appends (W.contents to.old) (W.contents to.new) (read_as how space bits.now)) }
{
    let mut entries = [7u8; ENTRY_SPACE + 2];
    show::mark(to, b':')?;
    read_front(to, bits, &mut entries, space, how)?;
    if how.shows_entries() && space <= ENTRY_SPACE {
        show::bytes(to, &entries[..space + 2])?;
    }
    Ok(())
}

// Reads given bits; the first number is the entry space. Of more bits than there is space for nothing is shown.
#[tactic(auto, unfolding(crate::specs::Tried::given_as, crate::specs::Tried::given_bits))]
pub fn given<W: Write>(to: &mut W, text: &[u8], digits: &[u8], how: As) -> io::Result<()>
    ensures { OnOk result (Appends (W.contents to.old) (W.contents to.new) (given_as how text.now digits.now)) }
{
    let mut space = [0u8; BIT_SPACE];
    let Some(bits) = space.get_mut(..digits.len()) else {
        return Ok(());
    };
    cases::load(digits, bits);
    read(to, bits, cases::size(text, 0), how)
}

// The state that the numbers after the first are.
#[tactic(auto, unfolding(crate::specs::Tried::due_in))]
fn due_in(text: &[u8]) -> Due
    ensures { result ≡ due_in text.now }
{
    let leap = (cases::number(text, 2) % 256) as u8;
    Due::Minute(cases::number(text, 1), leap)
}

// Reads given bits in a state as a recording.
pub fn resumed<W: Write>(to: &mut W, text: &[u8], digits: &[u8]) -> io::Result<()>
    ensures { OnOk result (Appends (W.contents to.old) (W.contents to.new) (given_as (RecordingIn (due_in text.now)) text.now digits.now)) }
{
    given(to, text, digits, As::RecordingIn(due_in(text)))
}

// The same, as one frame before.
#[tactic(auto, unfolding(crate::specs::Tried::resumed_twice))]
pub fn resumed_twice<W: Write>(to: &mut W, text: &[u8], digits: &[u8]) -> io::Result<()>
    ensures { OnOk result (Appends (W.contents to.old) (W.contents to.new) (resumed_twice text.now digits.now)) }
{
    given(to, text, digits, As::FrameIn(due_in(text)))?;
    resumed(to, text, digits)
}

// Reads one piece more, into the same entry bytes: the entries and the bits so far, the end of this piece, and the state after it.
fn piece(run: Summary, bits: &[u8], entries: &mut [u8]) -> Summary {
    let answer = entries::read_from(bits, entries, run.due);
    Summary {
        entries: run.entries.wrapping_add(answer.entries),
        used: run.used.wrapping_add(answer.used),
        end: answer.end,
        due: answer.due,
    }
}

// Reads the first bits, and then the others so many times: the entries, the bits used, the refusal or 0, and the state after it.
fn read_pieces<W: Write>(
    to: &mut W,
    bits: &[u8],
    first: usize,
    times: u32,
    entries: &mut [u8],
) -> io::Result<()> {
    if bits.len() < first {
        return Ok(());
    }
    let mut run = entries::read_from(&bits[..first], entries, Due::Any);
    for _ in 0..times {
        run = piece(run, &bits[first..], entries);
    }
    summary(to, run)?;
    state(to, run.due)
}

// Reads given bits in pieces, each in the state that the one before left: number 0 is how many bits the first has, and all others
// are read as often as number 1 says. What reading gives in all, and the entries of the last piece.
pub fn pieces<W: Write>(to: &mut W, text: &[u8], digits: &[u8]) -> io::Result<()> {
    let mut space = [0u8; BIT_SPACE];
    let mut entries = [7u8; 2 * ENTRY_SIZE];
    let Some(bits) = space.get_mut(..digits.len()) else {
        return Ok(());
    };
    cases::load(digits, bits);
    show::mark(to, b':')?;
    read_pieces(
        to,
        bits,
        cases::size(text, 0),
        cases::number(text, 1),
        &mut entries,
    )?;
    show::bytes(to, &entries)
}

// Reads the bits as one frame: what its plan gave it.
pub fn facts<W: Write>(to: &mut W, bits: &[u8]) -> io::Result<()> {
    let mut entry = [7u8; ENTRY_SIZE];
    entries::read_one(bits, &mut entry, Due::Any);
    show::facts(to, &entry)
}
