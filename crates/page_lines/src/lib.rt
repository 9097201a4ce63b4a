// The lines of a page: its head, the line of an entry and a blank line, each with its line feed.
#![tactic(auto)]

ghost use Rattle.std.specs.Prelude.{◌≡◌, ◌++◌, ◌≤◌, length, replicate, drop};
ghost use Rattle.format.specs.Entry.{entry_size};
ghost use Rattle.page_rules.specs.Page.{blanks, aligned, line, feed};
ghost use Rattle.page_rules.specs.Theorems.{Fits};
ghost use Rattle.page_columns.specs.Bytes.{entry_in};

use calendar::Date;

// The bytes of a line with its line feed.
pub const LINE_SIZE: usize = 42;

// The bytes of the two lines above the entries of a page.
pub const HEAD_SIZE: usize = 2 * LINE_SIZE;

const BLANK: u8 = b' ';

const DASH: u8 = b'-';

const LINE_FEED: u8 = b'\n';

// A line of one character, and a line feed.
fn line_of(character: u8) -> [u8; LINE_SIZE]
    ensures { result ≡ feed (replicate 41 character) }
{
    let mut line = [character; LINE_SIZE];
    line[LINE_SIZE - 1] = LINE_FEED;
    line
}

// Writes the head of a page to the front of out: its number and dashes.
pub fn put_head(number: u32, out: &mut [u8])
    requires { 84 ≤ length out.old }
    ensures { out.new
        ≡ feed (aligned 41 number) ++ feed (replicate 41 45) ++ drop 84 out.old }
{
    out[..31].fill(BLANK);
    out[31..LINE_SIZE].copy_from_slice(&page_columns::column::<11>(number, LINE_FEED));
    out[LINE_SIZE..HEAD_SIZE].copy_from_slice(&line_of(DASH));
}

// Writes the line of an entry of 18 bytes to the front of out.
pub fn put_line(entry: &[u8], out: &mut [u8])
    requires { (length entry.now ≡ entry_size) × Fits (entry_in entry.now) × (42 ≤ length out.old) }
    ensures { out.new ≡ feed (line (entry_in entry.now)) ++ drop 42 out.old }
{
    let minute = page_columns::minute_in(entry);
    let seconds = u32::from(entry[4]);
    out[..9].copy_from_slice(&page_columns::column::<9>(minute, BLANK));
    out[9..26].copy_from_slice(&page_columns::moment_columns(Date::at_minute(minute)));
    out[26..29].copy_from_slice(&page_columns::column::<3>(seconds, BLANK));
    out[29..LINE_SIZE].copy_from_slice(&page_columns::last_columns(entry));
}

// Writes a blank line to the front of out.
pub fn put_blank(out: &mut [u8])
    requires { 42 ≤ length out.old }
    ensures { out.new ≡ feed (blanks 41) ++ drop 42 out.old }
{
    out[..LINE_SIZE].copy_from_slice(&line_of(BLANK));
}
