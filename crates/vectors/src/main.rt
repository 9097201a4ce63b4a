// Outside vectors, tried on the real code. A line of standard input is a case:
// a letter that says what is tried, numbers that are not printed, a space, a text, a `#`, and bytes to be read.
// The text is printed, and after it what the code gives.
#![tactic(auto)]

mod calls;
mod listings;

ghost use Rattle.std.specs.Prelude.{◌≡◌, ◌==◌, ◌<◌, ◌≤◌, length, position, IfSome};

use std::io;
use std::io::Write;
use trials::show;

// Space for all cases.
const INPUT_SPACE: usize = 262_144;

const LINE_FEED: u8 = b'\n';

const SPACE: u8 = b' ';

const HASH: u8 = b'#';

// Where a byte first stands.
fn place(s: &[u8], byte: u8) -> Option<usize>
    ensures place { result ≡ position (λ b. b == byte) s.now }
    ensures within { IfSome result (λ i. i < length s.now) }
    ensures fits { IfSome result (λ i. i < usize.MAX) }
{
    s.iter().position(|b| *b == byte)
}

// Tries one case: the first n bytes of the input that is left.
fn case<W: Write>(to: &mut W, rest: &[u8], n: usize) -> io::Result<()>
    requires { n ≤ length rest.now }
{
    let line = &rest[..n];
    if let (Some(space), Some(hash)) = (place(line, SPACE), place(line, HASH)) {
        if space < hash {
            show::text(to, &line[space + 1..hash])?;
            calls::call(to, line[0], &line[..hash], &rest[hash + 1..], n - hash - 1)?;
            show::end(to)?;
        }
    }
    Ok(())
}

// Tries each case, up to the first that could not be written.
fn cases<W: Write>(to: &mut W, input: &[u8]) -> io::Result<()> {
    let mut rest = input;
    while !rest.is_empty() {
        let end = place(rest, LINE_FEED);
        case(to, rest, end.unwrap_or(rest.len()))?;
        rest = match end {
            Some(n) => &rest[n + 1..],
            None => &[],
        };
    }
    Ok(())
}

// Says on standard error that the output could not be written, where that is so.
fn report(rt: &impl Eprint, written: io::Result<()>) {
    if written.is_err() {
        console::say_unwritten(rt, "vectors");
    }
}

fn main(rt: HostRuntime) {
    let mut input = [0u8; INPUT_SPACE];
    let n = console::read_full(&mut rt.reader(), &mut input);
    let written = cases(&mut rt.stdout(), &input[..n]);
    report(&rt, written);
}
