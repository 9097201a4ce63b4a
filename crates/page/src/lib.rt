// A recording printed as pages of the shift book: two passes over its bits, ten entries at a time.
#![tactic(auto)]

ghost use Rattle.std.specs.Prelude.{◌≡◌, ◌++◌, map, ◌%◌, ◌≤◌, ◌<◌, length, replicate, drop};
ghost use Rattle.format.specs.Entry.{entry_size};
ghost use Rattle.page_rules.specs.Page.{line, feed, page};
ghost use Rattle.page_rules.specs.Printing.{read_on, read_all, pages_of, print_pages};
ghost use Rattle.page_rules.specs.Theorems.{Each, Fits};
ghost use Rattle.page.specs.Bytes.{entries_in, line_at, lines_text};
ghost use Rattle.page.specs.Rest.{page_entries, rest_after};
ghost use Rattle.page.specs.Answer.{counted, count_numbers, print_outcome};

use entries::ENTRY_SIZE;
use format::Due;
use page_lines::{HEAD_SIZE, LINE_SIZE};
use questions::Refusal;

// What a page leaves of a recording: the bits that its frames took, and the state after them.
#[derive(Clone, Copy)]
struct Rest {
    used: usize,
    due: Due,
}

// The entries that are read at a time. Their space is small, so that the compiler clears it without a call.
const PART_ENTRIES: usize = 10;

// The parts of a page.
const PARTS: usize = 5;

// The entries of a page.
const PAGE_ENTRIES: usize = PARTS * PART_ENTRIES;

// The bytes of a part's lines.
const PART_SIZE: usize = PART_ENTRIES * LINE_SIZE;

// The bytes of a page.
pub const PAGE_SIZE: usize = HEAD_SIZE + PARTS * PART_SIZE;

// The bytes of a part's entries, as reading writes them.
const PART_SPACE: usize = PART_ENTRIES * ENTRY_SIZE;

// Space for the entries of a part.
fn part_space() -> [u8; PART_SPACE]
    ensures { result ≡ replicate 180 0 }
{
    [0; PART_SPACE]
}

// Counts the entries of a recording: the first pass.
fn count_entries(bits: &[u8]) -> Result<usize, Refusal>
    ensures { count_numbers result ≡ counted (read_all bits.now) }
{
    let mut space = part_space();
    let mut used: usize = 0;
    let mut count: usize = 0;
    let mut due = Due::Any;
    while used < bits.len() {
        let part = entries::read_from(&bits[used..], &mut space, due);
        match part.end {
            Ok(()) => return Ok(count + part.entries),
            Err(refusal) => {
                if part.entries < PART_ENTRIES {
                    return Err(refusal);
                }
                count += part.entries;
                used += part.used;
                due = part.due;
            }
        }
    }
    Ok(count)
}

// Writes line i of a part to the front of out: that of entry i, or a blank one where there is none.
fn put_line_at(i: usize, entries: &[u8], out: &mut [u8])
    requires { (i < 10)
        × (length entries.now % entry_size ≡ 0)
        × Each Fits (entries_in entries.now)
        × (42 ≤ length out.old) }
    ensures { out.new ≡ feed (line_at i (entries_in entries.now)) ++ drop 42 out.old }
{
    let from = i * ENTRY_SIZE;
    if from < entries.len() {
        let end = from + ENTRY_SIZE;
        page_lines::put_line(&entries[from..end], out);
    } else {
        page_lines::put_blank(out);
    }
}

// Writes the ten lines of a part to the front of out.
fn put_part(entries: &[u8], out: &mut [u8])
    requires { (length entries.now % entry_size ≡ 0)
        × (length entries.now ≤ 180)
        × Each Fits (entries_in entries.now)
        × (420 ≤ length out.old) }
    ensures { out.new ≡ lines_text 10 (entries_in entries.now) ++ drop 420 out.old }
{
    for i in 0..PART_ENTRIES {
        put_line_at(i, entries, &mut out[i * LINE_SIZE..]);
    }
}

// Writes the 50 lines of a page to the front of out, from the next frames of an accepted recording.
fn put_parts(bits: &[u8], due: Due, out: &mut [u8]) -> Rest
    requires { ((read_on due bits.now).refusal ≡ 0) × (2100 ≤ length out.old) }
    ensures { (result ≡ rest_after due bits.now)
        × (out.new
        ≡ lines_text 50 (page_entries due bits.now) ++ drop 2100 out.old) }
{
    let mut space = part_space();
    let mut used: usize = 0;
    let mut next = due;
    for i in 0..PARTS {
        let part = entries::read_from(&bits[used..], &mut space, next);
        let end = part.entries * ENTRY_SIZE;
        put_part(&space[..end], &mut out[i * PART_SIZE..]);
        used += part.used;
        next = part.due;
    }
    Rest { used, due: next }
}

// Writes the next page of an accepted recording to the front of out.
fn put_page(bits: &[u8], due: Due, number: u32, out: &mut [u8]) -> Rest
    requires { ((read_on due bits.now).refusal ≡ 0) × (2184 ≤ length out.old) }
    ensures { (result ≡ rest_after due bits.now)
        × (out.new
        ≡ page number (map line (page_entries due bits.now)) ++ drop 2184 out.old) }
{
    page_lines::put_head(number, out);
    put_parts(bits, due, &mut out[HEAD_SIZE..])
}

// Prints the pages of an accepted recording to the front of out: the second pass.
fn put_pages(bits: &[u8], out: &mut [u8])
    requires { ((read_all bits.now).refusal ≡ 0) × (length (pages_of bits.now) ≤ length out.old) }
    ensures { out.new
        ≡ pages_of bits.now ++ drop (length (pages_of bits.now)) out.old }
{
    let mut used: usize = 0;
    let mut at: usize = 0;
    let mut number: u32 = 1;
    let mut due = Due::Any;
    while used < bits.len() {
        let rest = put_page(&bits[used..], due, number, &mut out[at..]);
        used += rest.used;
        due = rest.due;
        at += PAGE_SIZE;
        number += 1;
    }
}

// Prints a recording as pages; gives the bytes written.
pub fn print_pages(bits: &[u8], out: &mut [u8]) -> Result<usize, Refusal>
    ensures { print_outcome result out.new ≡ print_pages out.old bits.now }
{
    let count = count_entries(bits)?;
    let pages = (count + (PAGE_ENTRIES - 1)) / PAGE_ENTRIES;
    if out.len() / PAGE_SIZE < pages {
        return Err(Refusal::NoBitSpace);
    }
    put_pages(bits, out);
    Ok(pages * PAGE_SIZE)
}
