// What each letter stands for.
use crate::listings;
use std::io;
use std::io::Write;
use trials::reading::As;
use trials::{dates, reading, sending};

// Tries a case: its letter, its text, and the input after it, of which the first n bytes stand in its line.
pub fn call<W: Write>(
    to: &mut W,
    letter: u8,
    text: &[u8],
    behind: &[u8],
    n: usize,
) -> io::Result<()> {
    let Some(given) = behind.get(..n) else {
        return Ok(());
    };
    match letter {
        // the date of a minute, the minute of a date, the local date of a minute
        b'd' => dates::date(to, text),
        b'm' => dates::minute(to, text),
        b't' => dates::local(to, text),
        // given bits as one frame, as a recording; in a state as both, as a recording; in pieces
        b'o' => reading::given(to, text, given, As::Frame),
        b'a' => reading::given(to, text, given, As::Recording),
        b'i' => reading::resumed_twice(to, text, given),
        b'u' => reading::resumed(to, text, given),
        b'n' => reading::pieces(to, text, given),
        // a minute of the amplitude code written and read, given symbols read
        b'e' => amplitude_trials::written(to, text),
        b'r' => amplitude_trials::given(to, given),
        // given bits printed as pages, a recording written and printed, a long one
        b'g' => page_trials::given(to, text, given),
        b'h' => page_trials::sent(to, text),
        b'y' => page_trials::long(to, text, behind, n),
        // a second of IRIG B written and read, given elements read
        b'b' => irig_trials::written(to, text),
        b'k' => irig_trials::given(to, given),
        // a line of `station` with no line feed, with one
        b'p' => listings::listed(to, text, given),
        b'q' => listings::listed(to, text, behind),
        // a recording written, minutes of a plan
        b'w' => sending::written(to, text),
        b'f' => sending::minutes(to, text),
        // a frame sent and read, a long recording; with any other letter a recording
        b's' => sending::frame(to, text),
        b'l' => sending::long(to, text),
        _ => sending::recording(to, text),
    }
}
