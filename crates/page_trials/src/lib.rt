// What `vectors` tries of pages: recordings printed.
#![tactic(auto)]

use page::PAGE_SIZE;
use page_lines::LINE_SIZE;
use std::io;
use std::io::Write;
use trials::sending::SENT_SPACE;
use trials::{sending, show};

// Space for six frames.
const BIT_SPACE: usize = 6 * 61;

// Space for three pages, and two bytes more.
const PAGES_SPACE: usize = 3 * PAGE_SIZE + 2;

// Space for the bits of a month of messages, and for its pages with two bytes more.
const LONG_BITS: usize = 60 + 20_160 * 120;

const LONG_SPACE: usize = 807 * PAGE_SIZE + 2;

const BLANK: u8 = b' ';

// The last column of the minute, and that of the line.
const MINUTE_END: usize = 7;

const LINE_END: usize = 40;

// Shows the lines of a page that are not blank: no other line is blank in both columns.
fn lines<W: Write>(to: &mut W, page: &[u8]) -> io::Result<()> {
    for line in page.chunks_exact(LINE_SIZE) {
        if LINE_END < line.len() && (line[MINUTE_END] != BLANK || line[LINE_END] != BLANK) {
            show::end(to)?;
            show::text(to, &line[..=LINE_END])?;
        }
    }
    Ok(())
}

// Prints the bits into so many bytes: the refusal or 0, the number of bytes, the check sum of the text with every byte after
// it, and the lines of the last page that are not blank.
fn print<W: Write>(to: &mut W, bits: &[u8], out: &mut [u8], space: usize) -> io::Result<()> {
    let answer = show::front(to, out, space, |out| Some(page::print_pages(bits, out)))?;
    let n = answer.unwrap_or(0);
    show::size(to, n)?;
    show::value(to, cases::check_sum(out))?;
    if PAGE_SIZE <= n && n <= out.len() {
        lines(to, &out[n - PAGE_SIZE..n])?;
    }
    Ok(())
}

// Prints given bits; the first number is the space.
pub fn given<W: Write>(to: &mut W, text: &[u8], digits: &[u8]) -> io::Result<()> {
    let mut space = [0u8; BIT_SPACE];
    let mut out = [7u8; PAGES_SPACE];
    let Some(bits) = space.get_mut(..digits.len()) else {
        return Ok(());
    };
    cases::load(digits, bits);
    print(to, bits, &mut out, cases::size(text, 0))
}

// `plan .. sends FIRST COUNT, SPACE bytes for pages:` writes, and prints what was written. The messages of a plan come last.
pub fn sent<W: Write>(to: &mut W, text: &[u8]) -> io::Result<()> {
    let mut space = [0u8; SENT_SPACE];
    let mut out = [7u8; PAGES_SPACE];
    let n = sending::write(text, cases::number(text, 7), 9, &mut space).unwrap_or(0);
    if let Some(bits) = space.get(..n) {
        print(to, bits, &mut out, cases::size(text, 8))?;
    }
    Ok(())
}

// Fills the bytes with n bits, of which those from the first on are repeated.
fn fill(bits: &[u8], first: usize, n: usize, out: &mut [u8]) {
    let mut k: usize = 0;
    for place in out.iter_mut() {
        *place = bits.get(k).copied().unwrap_or(0);
        k = if k < n && k + 1 < n { k + 1 } else { first };
    }
}

// Prints a long recording of n given bits: number 0 is how many stand first, and the others are repeated. Number 1 is how many bits
// there are in all, and number 2 the space.
fn print_long<W: Write>(
    to: &mut W,
    text: &[u8],
    digits: &[u8],
    n: usize,
    all: &mut [u8; LONG_BITS],
    out: &mut [u8; LONG_SPACE],
) -> io::Result<()> {
    let mut bits = [0u8; BIT_SPACE];
    cases::load(digits, &mut bits);
    fill(&bits, cases::size(text, 0), n, all);
    if let Some(bits) = all.get(..cases::size(text, 1)) {
        print(to, bits, out, cases::size(text, 2))?;
    }
    Ok(())
}

// Where number 0 is not below n, the bit in its place is repeated, which stands behind the given bits.
pub fn long<W: Write>(to: &mut W, text: &[u8], behind: &[u8], n: usize) -> io::Result<()> {
    let mut all = [0u8; LONG_BITS];
    let mut out = [7u8; LONG_SPACE];
    print_long(to, text, behind, n, &mut all, &mut out)
}
