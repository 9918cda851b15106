// The library as C and Rust see it: the exported functions, and how an answer is put into one number.
//
// Every function is total: any bytes, any numbers. Each is a thin face over one public operation of the rooms below, and its
// contract is that operation's answer in the encoding of specs/. A refusal is 2^63 + number * 2^32 + place. C hands over plain numbers, a
// question as eight and a start as a mark and cells: `encoding` and `listing::start` make values of them.
//
// A library exports nothing: the symbols are those of the static library over it, `outside_c`.
#![tactic(auto)]

mod encoding;
mod held_cells;

ghost use Rattle.listing.specs.Portions.{start_said};
ghost use Rattle.outside.specs.Encoded.{CheckNumber, RowNumber, FewestNumber, PortionNumber, RingsNumber, JoinNumber, asking};
ghost use Rattle.outside.specs.HeldCells.{HeldNumber};

use encoding::{REFUSED, asking, listed_number, refusal_number};
use held_cells::{held_of, is_held, keep};

// Passed: n + m * 2^16 + f * 2^32.
#[unsafe(no_mangle)]
pub extern "C" fn kin_check(file: &[u8]) -> u64
    ensures { CheckNumber file.now result }
{
    match checking::check(file) {
        Ok(counts) => {
            counts.persons as u64
                + counts.links as u64 * 0x1_0000
                + counts.feeds as u64 * 0x1_0000_0000
        }
        Err(refusal) => refusal_number(refusal),
    }
}

// The length in bytes of the row view: 0 where it is empty.
#[unsafe(no_mangle)]
pub extern "C" fn kin_row(file: &[u8], person: u32) -> u64
    ensures { RowNumber file.now person result }
{
    checking::row(file, person).len() as u64
}

// The fewest hops, or hops + 1.
#[unsafe(no_mangle)]
pub extern "C" fn kin_fewest(
    file: &[u8],
    from: u32,
    to: u32,
    hops: u32,
    classes: u32,
    meaning: u32,
    first: u32,
    last: u32,
    undated: u32,
    person: u32,
) -> u64
    ensures { FewestNumber file.now (asking from to hops classes meaning first last undated) person result }
{
    let question = asking(from, to, hops, classes, meaning, first, last, undated);
    match distance::fewest(file, question, person) {
        Ok(fewest) => u64::from(fewest),
        Err(refusal) => refusal_number(refusal),
    }
}

// Listed: count + ended * 2^62. `started` 0 is a fresh start, and the bookmark isn't looked at then.
#[unsafe(no_mangle)]
pub extern "C" fn kin_portion(
    file: &[u8],
    from: u32,
    to: u32,
    hops: u32,
    classes: u32,
    meaning: u32,
    first: u32,
    last: u32,
    undated: u32,
    started: u32,
    bookmark: &[u32],
    out: &mut [u32],
) -> u64
    ensures { PortionNumber file.now (asking from to hops classes meaning first last undated) (start_said started bookmark.now) out.old out.new result }
{
    let question = asking(from, to, hops, classes, meaning, first, last, undated);
    listed_number(portion::portion(file, question, listing::start(started, bookmark), out))
}

// The rings back to the same person: From and To are one. Answers as kin_portion.
#[unsafe(no_mangle)]
pub extern "C" fn kin_rings(
    file: &[u8],
    from: u32,
    to: u32,
    hops: u32,
    classes: u32,
    meaning: u32,
    first: u32,
    last: u32,
    undated: u32,
    started: u32,
    bookmark: &[u32],
    out: &mut [u32],
) -> u64
    ensures { RingsNumber file.now (asking from to hops classes meaning first last undated) (start_said started bookmark.now) out.old out.new result }
{
    let question = asking(from, to, hops, classes, meaning, first, last, undated);
    listed_number(rings::rings(file, question, listing::start(started, bookmark), out))
}

// Half chains to the working cells, chains to the output. Answers as kin_portion.
#[unsafe(no_mangle)]
pub extern "C" fn kin_join(
    file: &[u8],
    from: u32,
    to: u32,
    hops: u32,
    classes: u32,
    meaning: u32,
    first: u32,
    last: u32,
    undated: u32,
    working: &mut [u32],
    out: &mut [u32],
) -> u64
    ensures { JoinNumber file.now (asking from to hops classes meaning first last undated) working.old working.new out.old out.new result }
{
    let question = asking(from, to, hops, classes, meaning, first, last, undated);
    listed_number(join::join(file, question, working, out))
}

// Moves a held listing on by a portion: 19 lent cells, or 18 that were stored before the question had its eighth number. Answers as
// kin_portion; with any other number of cells it answers 2^63 before anything else is looked at, and changes nothing.
#[unsafe(no_mangle)]
pub extern "C" fn kin_held(cells: &mut [u32], file: &[u8], out: &mut [u32]) -> u64
    ensures { HeldNumber file.now cells.old cells.new out.old out.new result }
{
    if !is_held(cells.len()) {
        return REFUSED;
    }
    let before = held_of(cells);
    let outcome = held::advanced(before, file, out);
    let after = outcome.held;
    let answer = outcome.answer;
    keep(cells, after);
    listed_number(answer)
}
