// What the text of a case holds: its numbers, a plan, messages and given bits; and the check sum of a text.
#![tactic(auto)]

ghost use Rattle.std.specs.Prelude.{◌≡◌, ℕ, ◌+◌, ◌*◌, ◌%◌, ◌<◌, length, slice_index};
ghost use Rattle.bits.specs.Bits.{pick};
ghost use Rattle.cases.specs.Cases.{outside, stepped, long_at, number_at, signed_at, plan_in, count_in, byte_of, message_byte, given_at, check_sum};

use plan::Plan;

// What was found so far: how many numbers ended, the wanted one, and whether the last byte was a digit.
#[derive(Clone, Copy)]
pub struct Scan {
    pub ended: u32,
    pub value: u64,
    pub within: bool,
}

// A number with a digit after it, of 19 digits at most, where it is wanted.
fn with_digit(n: u64, digit: u8, wanted: bool) -> u64
    ensures { result ≡ pick wanted (n % 1000000000000000000 * 10 + digit) n }
{
    if wanted {
        n % 1_000_000_000_000_000_000 * 10 + u64::from(digit)
    } else {
        n
    }
}

// After a byte that is no digit.
#[tactic(auto, unfolding(crate::specs::Cases::outside))]
fn past(scan: Scan) -> Scan
    ensures { result ≡ outside scan }
{
    Scan {
        ended: scan.ended.wrapping_add(u32::from(scan.within)),
        value: scan.value,
        within: false,
    }
}

// Looks at one byte more for number k.
#[tactic(auto, unfolding(crate::specs::Cases::stepped, crate::specs::Cases::is_digit, crate::specs::Cases::inside))]
fn step(scan: Scan, byte: u8, k: u32) -> Scan
    ensures { result ≡ stepped k scan byte }
{
    if !byte.is_ascii_digit() {
        return past(scan);
    }
    Scan {
        ended: scan.ended,
        value: with_digit(scan.value, byte - b'0', scan.ended == k),
        within: true,
    }
}

// Number k of a text, from 0 on, its last 19 digits; 0 where it has fewer numbers.
#[tactic(auto, unfolding(crate::specs::Cases::long_at, crate::specs::Cases::nothing_yet))]
fn long(text: &[u8], k: u32) -> u64
    ensures { result ≡ long_at k text.now }
{
    let nothing_yet = Scan {
        ended: 0,
        value: 0,
        within: false,
    };
    let scan = text
        .iter()
        .fold(nothing_yet, |scan, byte| step(scan, *byte, k));
    scan.value
}

// Number k, modulo 2 ^ 32.
#[tactic(auto, unfolding(crate::specs::Cases::number_at))]
pub fn number(text: &[u8], k: u32) -> u32
    ensures { result ≡ number_at k text.now }
{
    (long(text, k) % 4_294_967_296) as u32
}

pub fn size(text: &[u8], k: u32) -> usize
    ensures { result ≡ number_at k text.now }
{
    number(text, k) as usize
}

// Number k of a text, modulo 65,536, below 0 where the text has a minus.
#[tactic(auto, unfolding(crate::specs::Cases::signed_at))]
pub fn signed(text: &[u8], k: u32) -> i32
    ensures { result ≡ signed_at k text.now }
{
    let size = (number(text, k) % 65536) as i32;
    if text.contains(&b'-') { -size } else { size }
}

// The plan in a text: its first six numbers. Its only minus stands before the leap sign.
pub fn plan(text: &[u8]) -> Plan
    ensures { result ≡ plan_in text.now }
{
    Plan {
        kind: number(text, 0),
        spring: number(text, 1),
        autumn: number(text, 2),
        leap_month: number(text, 3),
        leap_sign: signed(text, 4),
        notice: number(text, 5),
    }
}

// The count of minutes that a text asks for: 1 where the letter says that a frame is sent, else number 7.
#[tactic(auto, unfolding(crate::specs::Cases::count_in))]
pub fn count(letter: u8, text: &[u8]) -> u32
    ensures { result ≡ count_in letter text.now }
{
    if letter == b's' { 1 } else { number(text, 7) }
}

// The byte of a number that has so many bytes after it.
fn byte_of(n: u64, after: u32) -> u8
    requires { after < 8 }
    ensures { result ≡ byte_of n after }
{
    ((n >> (8 * after)) % 256) as u8
}

// Byte i of messages: a minute in four bytes and data in six for each, big-endian, which are the numbers of the text after number k.
#[tactic(auto, unfolding(crate::specs::Cases::message_byte))]
fn message_byte(text: &[u8], k: u8, i: u32) -> u8
    requires { i < 50 }
    ensures { result ≡ message_byte k text.now i }
{
    let before = u32::from(k) + i / 10 * 2;
    let at = i % 10;
    if at < 4 {
        byte_of(long(text, before + 1), 3 - at)
    } else {
        byte_of(long(text, before + 2), 9 - at)
    }
}

// The bytes of five messages, the numbers after number k.
pub fn messages(text: &[u8], k: u8) -> [u8; 50]
    ensures { (length result ≡ 50)
        × ((i : ℕ) → i < 50 → slice_index result i ≡ message_byte k text.now i) }
{
    let mut out = [0u8; 50];
    for (i, byte) in out.iter_mut().enumerate() {
        *byte = message_byte(text, k, i as u32);
    }
    out
}

// Byte i of given bits: a digit, or `x` for 255; 0 after them.
#[tactic(auto, unfolding(crate::specs::Cases::given_at))]
fn byte_at(digits: &[u8], i: usize) -> u8
    ensures { result ≡ given_at digits.now i }
{
    match digits.get(i) {
        None => 0,
        Some(b'x') => 255,
        Some(digit) => digit % 16,
    }
}

// Makes bytes of digits.
pub fn load(digits: &[u8], bits: &mut [u8])
    ensures { (i : ℕ) → i < length bits.old → slice_index bits.new i
        ≡ given_at digits.now i }
{
    for (i, bit) in bits.iter_mut().enumerate() {
        *bit = byte_at(digits, i);
    }
}

// The check sum with one byte more.
fn with_byte(sum: u32, byte: u8) -> u32
    ensures { result ≡ (sum * 257 + byte) % 4294967291 }
{
    let longer = u64::from(sum) * 257 + u64::from(byte);
    (longer % 4_294_967_291) as u32
}

#[tactic(auto, unfolding(crate::specs::Cases::check_sum))]
pub fn check_sum(text: &[u8]) -> u32
    ensures { result ≡ check_sum text.now }
{
    text.iter().fold(0, |sum, byte| with_byte(sum, *byte))
}
