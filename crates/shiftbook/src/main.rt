// Prints the pages of the recording whose digits are on standard input.
#![tactic(auto)]

ghost use Rattle.std.specs.Prelude.{ℕ, ◌≤◌, List, length, take, OnOk};
ghost use Rattle.std.specs.Io.KnownBytes.{Appends, Consumes};
ghost use Rattle.book.specs.Book.{printed};

use book::{BOOK_SPACE, INPUT_SPACE};
use std::io;
use std::io::{Read, Write};

// Writes the first n bytes of a text.
fn print<W: Write>(to: &mut W, text: &[u8], n: usize) -> io::Result<()>
    requires { n ≤ length text.now }
    ensures { OnOk result (Appends (W.contents to.old) (W.contents to.new) (take n text.now)) }
{
    to.write_all(&text[..n])
}

// Reads an input and writes its text.
fn run<R: Read, W: Write>(
    from: &mut R,
    to: &mut W,
    input: &mut [u8],
    text: &mut [u8; BOOK_SPACE],
) -> io::Result<()>
    ensures { OnOk result ((bytes : List ℕ)
        × Consumes (R.remaining from.old) (R.remaining from.new) bytes
        × Appends (W.contents to.old) (W.contents to.new) (printed bytes)) }
{
    let count = console::read_full(from, input);
    let n = book::print_book(&mut input[..count], text);
    print(to, text, n)
}

// Where a write fails, standard error says so.
fn main(rt: HostRuntime) {
    let mut input = [0u8; INPUT_SPACE];
    let mut text = [0u8; BOOK_SPACE];
    let written = run(
        &mut rt.reader(),
        &mut io::writer(&rt),
        &mut input,
        &mut text,
    );
    if written.is_err() {
        console::say_unwritten(&rt, "shiftbook");
    }
}
