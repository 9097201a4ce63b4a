// The work of `shiftbook`: from the digits of a recording to the text of its pages.
#![tactic(auto)]

ghost use Rattle.std.specs.Prelude.{◌≡◌, ◌++◌, ◌≤◌, length, drop};
ghost use Rattle.questions.specs.Refusals.{refusal_number};
ghost use Rattle.listing.specs.Listing.{refused_text};
ghost use Rattle.book.specs.Book.{is_gap, bit_in, bits_in, book_limit, recording_text, printed, gathered, input_after};

use questions::Refusal;

// The bytes of input for which there is space.
pub const BOOK_LIMIT: usize = 2_745_000;

// The bytes of input that decide: one more shows that the input is too long.
pub const INPUT_SPACE: usize = BOOK_LIMIT + 1;

// The bytes of the most pages.
pub const BOOK_SPACE: usize = 2_033_304;

const BLANK: u8 = b' ';

const LINE_FEED: u8 = b'\n';

const ZERO: u8 = b'0';

const ONE: u8 = b'1';

// A byte that is no bit.
const NO_BIT: u8 = 2;

// The refusal of an input that is too long: too little space.
const TOO_LONG: Refusal = Refusal::NoBitSpace;

// Blanks and line feeds are passed over.
fn is_gap(byte: u8) -> bool
    ensures { result ≡ is_gap byte }
{
    byte == BLANK || byte == LINE_FEED
}

// The bit of a digit, or 2.
fn bit_in(byte: u8) -> u8
    ensures { result ≡ bit_in byte }
{
    if byte == ZERO {
        0
    } else if byte == ONE {
        1
    } else {
        NO_BIT
    }
}

// Gathers the bits of a text at its front; gives their number.
fn gather_bits(text: &mut [u8]) -> usize
    ensures { (result ≡ length (bits_in text.old))
        × (text.new ≡ gathered text.old) }
{
    let mut count: usize = 0;
    for i in 0..text.len() {
        let byte = text[i];
        if !is_gap(byte) {
            text[count] = bit_in(byte);
            count += 1;
        }
    }
    count
}

// Writes a refusal; gives the length of its text.
fn put_refusal(refusal: Refusal, out: &mut [u8; BOOK_SPACE]) -> usize
    ensures { (result ≡ length (refused_text (refusal_number refusal)))
        × (out.new
        ≡ refused_text (refusal_number refusal) ++ drop (length (refused_text (refusal_number refusal))) out.old) }
{
    listing::put_refused(u32::from(refusal), out).unwrap_or(0)
}

// Writes the pages of a recording, or its refusal; gives the length of the text.
fn print_recording(bits: &[u8], out: &mut [u8; BOOK_SPACE]) -> usize
    requires { length bits.now ≤ book_limit }
    ensures { (result ≡ length (recording_text bits.now))
        × (out.new
        ≡ recording_text bits.now ++ drop (length (recording_text bits.now)) out.old) }
{
    match page::print_pages(bits, out) {
        Ok(n) => n,
        Err(refusal) => put_refusal(refusal, out),
    }
}

// Writes what is printed for an input, whose bits are gathered at its front; gives the length of the text.
pub fn print_book(input: &mut [u8], out: &mut [u8; BOOK_SPACE]) -> usize
    ensures { (result ≡ length (printed input.old))
        × (out.new
        ≡ printed input.old ++ drop (length (printed input.old)) out.old)
        × (input.new ≡ input_after input.old) }
{
    if BOOK_LIMIT < input.len() {
        return put_refusal(TOO_LONG, out);
    }
    let count = gather_bits(input);
    print_recording(&input[..count], out)
}
