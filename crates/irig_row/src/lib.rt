// The row of a second of IRIG 200 format B: its 100 elements, written and compared, and the time in them.
#![tactic(auto)]

ghost use Rattle.std.specs.Prelude.{true, ◌++◌, ◌≡◌, ◌≤◌, ◌<◌, eqb, length, drop};
ghost use Rattle.bits.specs.Bits.{distance};
ghost use Rattle.bits.specs.Gathered.{low_bytes};
ghost use Rattle.irig_rules.specs.Irig.{element_count, low_bits, second_of_day, elements_of};
ghost use Rattle.irig_rules.specs.Reading.{low_number, clock_in, real_clock};
ghost use Rattle.irig_row.specs.Row.{line_elements, row_elements, digits_line, lines_of};

use irig_rules::Clock;

pub const ELEMENTS: usize = 100;

const IDENTIFIER: u8 = 2;

// The lines of a row, and the elements of a line.
const LINES: usize = 10;

const LINE: usize = 10;

// ---- writing

// The eight bits of v, each in a byte of its own, the lowest in the lowest byte. The copy at bit 28 changes nothing: without
// it bytes 3 and 7 would need no mask, and the compiler would store eight single bytes.
fn unpack(v: u64) -> u64
    requires { v < 256 }
    ensures { low_bytes 8 result ≡ low_bits 8 v }
{
    let halves = v % 16 + v / 16 * 0x1_0000_0000;
    (halves * 0x1020_4081) & 0x0101_0101_0101_0101
}

// Fills a line: nine elements, the low bits of a number, and an identifier.
fn put_line(number: u64, line: &mut [u8])
    requires { length line.old ≡ 10 }
    ensures { line.new ≡ line_elements number }
{
    bits::eight::put_bytes(unpack(number % 256), line, 0);
    line[8] = (number / 256 % 2) as u8;
    line[9] = IDENTIFIER;
}

// Writes the lines of these numbers.
fn put_lines(lines: [u64; LINES], out: &mut [u8])
    requires { element_count ≤ length out.old }
    ensures { out.new ≡ row_elements lines ++ drop element_count out.old }
{
    for (k, number) in lines.iter().enumerate() {
        put_line(*number, &mut out[k * LINE..(k + 1) * LINE]);
    }
}

// The number of a line with two decimal digits.
#[tactic(auto, unfolding(crate::specs::Row::digits_line))]
fn digits_line(x: u32) -> u64
    requires { x < 100 }
    ensures { (result ≡ digits_line x) × (result < 512) }
{
    u64::from(x % 10 + x / 10 * 32)
}

// The second of the day of a time.
pub fn second_of_day(c: Clock) -> u32
    requires { real_clock c ≡ true }
    ensures { result ≡ second_of_day c }
{
    (c.hour * 60 + c.minute) * 60 + c.second
}

// The numbers of the lines of a time.
#[tactic(auto, unfolding(crate::specs::Row::lines_of))]
fn lines_of(c: Clock) -> [u64; LINES]
    requires { real_clock c ≡ true }
    ensures { result ≡ lines_of c }
{
    let straight = u64::from(second_of_day(c));
    [
        digits_line(c.second) * 2,
        digits_line(c.minute),
        digits_line(c.hour),
        digits_line(c.day % 100),
        u64::from(c.day / 100),
        0,
        0,
        0,
        straight,
        straight / 512,
    ]
}

// Writes the row of a time.
pub fn put_row(c: Clock, out: &mut [u8])
    requires { (real_clock c ≡ true) × (element_count ≤ length out.old) }
    ensures { out.new ≡ elements_of c ++ drop element_count out.old }
{
    put_lines(lines_of(c), out);
    out[0] = IDENTIFIER;
}

// ---- reading

// The number that at most four elements write, the lowest bit first.
fn low_number(e: &[u8]) -> u32
    requires { length e.now ≤ 4 }
    ensures { (result ≡ low_number e.now) × (result < 4096) }
{
    let mut n = 0;
    for i in (0..e.len()).rev() {
        n = n * 2 + u32::from(e[i]);
    }
    n
}

// The time that elements show.
#[tactic(auto, unfolding(irig_rules::specs::Reading::clock_in, irig_rules::specs::Reading::number_at))]
pub fn clock_in(e: &[u8]) -> Clock
    requires { length e.now ≡ element_count }
    ensures { result ≡ clock_in e.now }
{
    Clock {
        day: low_number(&e[40..42]) * 100 + low_number(&e[35..39]) * 10 + low_number(&e[30..34]),
        hour: low_number(&e[25..27]) * 10 + low_number(&e[20..24]),
        minute: low_number(&e[15..18]) * 10 + low_number(&e[10..14]),
        second: low_number(&e[6..9]) * 10 + low_number(&e[1..5]),
    }
}

// The number of places at which two rows differ, counted without a branch.
fn differences(a: &[u8], b: &[u8]) -> u8
    requires { (length a.now ≡ element_count) × (length b.now ≡ element_count) }
    ensures { result ≡ distance a.now b.now }
{
    let mut n: u8 = 0;
    for i in 0..ELEMENTS {
        if a[i] != b[i] {
            n += 1;
        }
    }
    n
}

// Whether a row is that of a time.
pub fn is_row(c: Clock, e: &[u8]) -> bool
    requires { (real_clock c ≡ true) × (length e.now ≡ element_count) }
    ensures { result ≡ eqb (distance e.now (elements_of c)) 0 }
{
    let mut row = [0; ELEMENTS];
    put_row(c, &mut row);
    differences(e, &row) == 0
}
