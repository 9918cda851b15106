// The text: what is printed, byte for byte.
//
// Records become lines and a refusal becomes a line, in lent bytes: each function answers the place behind what it printed, and
// its promise names the bytes by the definitions of specs/, which stand beside the customer's words. Nothing is written
// here but to memory; the program hands the bytes on. The number of chains is counted in forty decimal digits (`counts`).
#![tactic(auto)]

pub mod counts;
pub mod numbers;

ghost use Rattle.std.specs.Prelude.{◌+◌, ◌≤◌, ◌<◌, length};
ghost use Rattle.text.specs.Decimal.{worth};
ghost use Rattle.text.specs.Lines.{RecordAt, Records, chain_at, chain_line, end_line, refusal_line};
ghost use Rattle.text.specs.Printed.{Printed, LinesReach, longest_line};

use counts::Counted;
use ways::{HOPS, RECORD};

// The most bytes of a chain's line: a digit, a colon, nine persons of ten digits with a space in front, LF.
const LONGEST_LINE: usize = 2 + (HOPS + 1) * 11 + 1;

// How far the lines reach: the first record that has none yet, and the bytes up to there.
#[derive(Clone, Copy)]
pub struct Reached {
    pub next: usize,
    pub bytes: usize,
}

// The place of the next byte goes from hand to hand beside the bytes: a printer that holds both, with the same promises, proves too, but
// each byte then moves its count in memory, and a long listing is printed a quarter slower.

// Words as they stand, from a byte on; answers where the next ones go.
fn put(words: &[u8], out: &mut [u8], at: usize) -> usize
    requires { at + length words.now ≤ length out.old }
    ensures { Printed out.old at words.now out.new result }
{
    cells::copy(out, at, words, 0, words.len());
    at + words.len()
}

// The line of the chain in a record.
pub fn line(cells: &[u32], chain: usize, out: &mut [u8], at: usize) -> usize
    requires { (RecordAt cells.now chain) × (at + longest_line ≤ length out.old) }
    ensures { (Printed out.old at (chain_line (chain_at cells.now chain)) out.new result) × (result ≤ at + longest_line) }
{
    let first = chain * RECORD;
    let hops = cells[first];
    out[at] = numbers::digit(hops);
    out[at + 1] = b':';
    let end = first + 2 + hops as usize;
    let mut next = at + 2;
    for &person in &cells[first + 1..end] {
        out[next] = b' ';
        next = numbers::number(person, out, next + 1);
    }
    out[next] = b'\n';
    next + 1
}

// The lines of the chains from the record `first` on, as many as there is room for.
pub fn lines(cells: &[u32], first: usize, count: usize, out: &mut [u8]) -> Reached
    requires { (Records cells.now count) × (first ≤ count) }
    ensures { LinesReach cells.now first count out.old out.new result }
{
    let mut bytes = 0;
    for next in first..count {
        if out.len() - bytes < LONGEST_LINE {
            return Reached { next, bytes };
        }
        bytes = line(cells, next, out, bytes);
    }
    Reached { next: count, bytes }
}

// The last line of a listing.
pub fn end_line(counted: &Counted, out: &mut [u8]) -> usize
    requires { longest_line ≤ length out.old }
    ensures { (Printed out.old 0 (end_line (worth counted.now.digits)) out.new result) × (result ≤ longest_line) }
{
    let next = put(b"end ", out, 0);
    let last = counted.count(out, next);
    out[last] = b'\n';
    last + 1
}

// The one line of a refusal, by its number, which is what is printed.
pub fn refusal_line(number: u32, place: u32, out: &mut [u8]) -> usize
    requires { longest_line ≤ length out.old }
    ensures { (Printed out.old 0 (refusal_line number place) out.new result) × (result ≤ longest_line) }
{
    let mut next = put(b"refused ", out, 0);
    next = numbers::number(number, out, next);
    next = put(b" at ", out, next);
    next = numbers::number(place, out, next);
    out[next] = b'\n';
    next + 1
}
