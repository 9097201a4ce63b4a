// Lines of `station` listed.
use std::io;
use std::io::Write;
use trials::show;

// The longest text that is printed whole.
const PRINTED: usize = 200;

// Lists the first line of an input; the first number is the space. The refusal or 0, the number of bytes,
// the check sum of the text with every byte after it, and the text where it is short.
pub fn listed<W: Write>(to: &mut W, text: &[u8], input: &[u8]) -> io::Result<()> {
    let mut out = [7u8; listing::LISTING_SPACE];
    let answer = show::front(to, &mut out, cases::size(text, 0), |out| {
        Some(listing::list(input, out))
    })?;
    let n = answer.unwrap_or(0);
    show::size(to, n)?;
    show::value(to, cases::check_sum(&out))?;
    if n < PRINTED {
        show::end(to)?;
        show::text(to, &out[..n])?;
    }
    Ok(())
}
