// The columns of a page's lines, each with the blank or the line feed after it.
#![tactic(auto)]

ghost use Rattle.std.specs.Prelude.{◌≡◌, [], ◌∷◌, ◌++◌, ◌+◌, ◌-◌, ◌%◌, ◌^◌, ◌≤◌, ◌<◌, eqb, length};
ghost use Rattle.bits.specs.Bits.{pick};
ghost use Rattle.messages.specs.Bytes.{big_endian};
ghost use Rattle.format.specs.Entry.{entry_size};
ghost use Rattle.page_rules.specs.Page.{aligned, date_text, time_text, leap_text, time_columns, message_columns, spaced, feed};
ghost use Rattle.page_rules.specs.Theorems.{Fits};
ghost use Rattle.page_columns.specs.Bytes.{entry_in};

use calendar::Date;

const BLANK: u8 = b' ';

const DASH: u8 = b'-';

const LINE_FEED: u8 = b'\n';

// The last digit of a number.
fn digit(n: u32) -> u8
    ensures { result ≡ 48 + n % 10 }
{
    b'0' + (n % 10) as u8
}

// The last digit of what is left of a number, or a blank where nothing is left.
fn digit_or_blank(left: u32) -> u8
    ensures { result ≡ pick (eqb left 0) 32 (48 + left % 10) }
{
    if left == 0 { BLANK } else { digit(left) }
}

// The last bit of a number as a digit.
fn bit(n: u8) -> u8
    ensures { result ≡ 48 + n % 2 }
{
    b'0' + n % 2
}

// The sign of a leap state: blank, - or +.
fn leap_sign(leap: u8) -> u8
    ensures { result ∷ [] ≡ leap_text leap }
{
    match leap {
        0 => BLANK,
        1 => DASH,
        _ => b'+',
    }
}

// A number right-aligned in all columns but the last, and what ends it in that one.
pub fn column<const N: usize>(n: u32, end: u8) -> [u8; N]
    requires two { 2 ≤ N }
    requires fits { n < 10 ^ (N - 1) }
    ensures { result ≡ aligned (N - 1) n ++ (end ∷ []) }
{
    let mut column = [BLANK; N];
    column[N - 1] = end;
    column[N - 2] = digit(n);
    let mut left = n / 10;
    for i in (0..N - 2).rev() {
        column[i] = digit_or_blank(left);
        left /= 10;
    }
    column
}

// A date and its time, and a blank after each.
pub fn moment_columns(d: Date) -> [u8; 17]
    ensures { result ≡ date_text d ++ (32 ∷ []) ++ time_text d ++ (32 ∷ []) }
{
    [
        digit(d.year / 1000),
        digit(d.year / 100),
        digit(d.year / 10),
        digit(d.year),
        DASH,
        digit(d.month / 10),
        digit(d.month),
        DASH,
        digit(d.day / 10),
        digit(d.day),
        BLANK,
        digit(d.hour / 10),
        digit(d.hour),
        b':',
        digit(d.minute / 10),
        digit(d.minute),
        BLANK,
    ]
}

// The columns of a time frame after the length, and a line feed.
fn time_columns(entry: &[u8]) -> [u8; 13]
    requires { (length entry.now ≡ entry_size) × Fits (entry_in entry.now) }
    ensures { result ≡ feed (spaced (time_columns (entry_in entry.now))) }
{
    let daylight = entry[5];
    let leap = entry[6];
    let row = u32::from(entry[7]);
    let place = u32::from(entry[9]);
    let echo = u32::from(entry[10]);
    [
        bit(daylight / 2),
        bit(daylight),
        BLANK,
        leap_sign(leap),
        BLANK,
        digit_or_blank(row / 10),
        digit(row),
        BLANK,
        digit_or_blank(place / 10),
        digit(place),
        BLANK,
        digit(echo),
        LINE_FEED,
    ]
}

// The columns after the length, and a line feed.
pub fn last_columns(entry: &[u8]) -> [u8; 13]
    requires { (length entry.now ≡ entry_size) × Fits (entry_in entry.now) }
    ensures { result
        ≡ feed (spaced (pick (eqb (entry_in entry.now).message 0) (time_columns (entry_in entry.now)) message_columns)) }
{
    if entry[11] == 0 {
        return time_columns(entry);
    }
    [
        BLANK, BLANK, BLANK, b'M', BLANK, BLANK, BLANK, BLANK, BLANK, BLANK, BLANK, BLANK,
        LINE_FEED,
    ]
}

// The minute of an entry.
pub fn minute_in(entry: &[u8]) -> u32
    requires { 4 ≤ length entry.now }
    ensures { result ≡ big_endian entry.now 0 4 }
{
    u32::from_be_bytes([entry[0], entry[1], entry[2], entry[3]])
}
