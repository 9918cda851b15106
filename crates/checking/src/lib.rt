// The check of a link file, refusals 1 to 9, and the view of a person's links.
//
// Anybody may hand in any bytes. `check` answers n, m and f, or the first refusal, with its number and place; `row` answers the
// very part of the lent file that a person's links occupy. The rules of a link are over links by value, wherever they stand; what a
// refusal's place is stands in `places` and in specs/Places alone.
#![tactic(auto)]

mod feeds;
mod links;
mod places;
mod rows;

ghost use Rattle.std.specs.Prelude.{◌≡◌};
ghost use Rattle.refusals.specs.Faults.{fault_said};
ghost use Rattle.checking.specs.Checked.{tables_fault};
ghost use Rattle.checking.specs.Answers.{Checks, Views};

use format::file::LinkFile;
use format::header::Header;
use format::layout::Counts;
use format::{header, layout};
use refusals::{Reason, Refusal, unless};

// The first fault of the tables: feeds, then rows, then links.
#[tactic(auto, unfolding(crate::specs::Checked::tables_fault))]
fn tables_fault(file: LinkFile<'_>) -> Result<(), Refusal>
    ensures { fault_said result ≡ tables_fault file.entry.bytes.now }
{
    feeds::feeds_fault(file)?;
    rows::rows_fault(file)?;
    links::links_fault(file)
}

// The verdict on any bytes: n, m and f, or the first refusal, 1 to 9, and its place.
#[tactic(auto, using(format::proofs::Counted::marked_long, format::proofs::Counted::file_laid), unfolding(crate::specs::Checked::checked, crate::specs::Checked::file_fault))]
pub fn check(file: &[u8]) -> Result<Counts, Refusal>
    ensures { Checks file.now result }
{
    unless(header::marked(file), Reason::Mark, places::MARK)?;
    let header = Header { bytes: file };
    unless(
        header.counts_fit(),
        Reason::Counts,
        places::of_counts(header),
    )?;
    unless(
        header.laid_out(),
        Reason::Offsets,
        places::of_offsets(header),
    )?;
    let counts = header.counts();
    let laid = LinkFile {
        bytes: file,
        counts,
    };
    tables_fault(laid)?;
    Ok(counts)
}

// The links of a person: the very part of the lent file that they occupy, from row[p] to row[p+1]. For a refused file, or a
// person out of range, the empty part at the file's beginning.
#[tactic(auto, using(crate::proofs::Passed::passed_laid, crate::proofs::Passed::passed_lies, format::proofs::Counted::offset_is))]
pub fn row(file: &[u8], person: u32) -> &[u8]
    ensures { Views file.entry person result }
{
    let Ok(counts) = check(file) else {
        return &file[0..0];
    };
    let owner = person as usize;
    if counts.persons <= owner {
        return &file[0..0];
    }
    let laid = LinkFile {
        bytes: file,
        counts,
    };
    let start = layout::link_offset(counts, laid.entry(owner));
    let end = layout::link_offset(counts, laid.entry(owner + 1));
    &file[start..end]
}
