// The rule of the row table, 6.
ghost use Rattle.std.specs.Prelude.{◌≡◌, ◌+◌, ◌≤◌};
ghost use Rattle.refusals.specs.Faults.{fault_said, first_among};
ghost use Rattle.format.specs.Format.{person_count};
ghost use Rattle.checking.specs.Checked.{row_starts_or_keeps, row_closes, row_ruled, row_fault};

use crate::places;
use format::file::LinkFile;
use refusals::{Reason, Refusal, unless};

// Entry 0 is 0, and no other is lower than the one before.
#[tactic(auto, unfolding(crate::specs::Checked::row_starts_or_keeps))]
fn starts_or_keeps(file: LinkFile<'_>, at: usize) -> bool
    requires { at ≤ file.counts.persons }
    ensures { result ≡ row_starts_or_keeps file.entry.bytes.now at }
{
    if at == 0 {
        return file.entry(at) == 0;
    }
    file.entry(at - 1) <= file.entry(at)
}

// Entry n is m.
#[tactic(auto, unfolding(crate::specs::Checked::row_closes))]
fn ends(file: LinkFile<'_>, at: usize) -> bool
    requires { at ≤ file.counts.persons }
    ensures { result ≡ row_closes file.entry.bytes.now at }
{
    at != file.counts.persons || file.entry(at) == file.counts.links
}

// The rule of refusal 6, clause by clause: the first entry is 0, none falls, the last is the number of links.
#[tactic(auto, unfolding(crate::specs::Checked::row_ruled))]
fn row_ruled(file: LinkFile<'_>, at: usize) -> bool
    requires { at ≤ file.counts.persons }
    ensures { result ≡ row_ruled file.entry.bytes.now at }
{
    starts_or_keeps(file, at) && ends(file, at)
}

// One entry.
#[tactic(auto, using(format::proofs::Counted::counts_are), unfolding(crate::specs::Checked::row_fault))]
fn row_fault(file: LinkFile<'_>, at: usize) -> Result<(), Refusal>
    requires { at ≤ file.counts.persons }
    ensures { fault_said result ≡ row_fault file.entry.bytes.now at }
{
    unless(
        row_ruled(file, at),
        Reason::Entry,
        places::of_entry(file.counts, at),
    )
}

// The lowest entry that breaks the rule.
pub fn rows_fault(file: LinkFile<'_>) -> Result<(), Refusal>
    ensures { fault_said result ≡ first_among (row_fault file.entry.bytes.now) 0 (person_count file.entry.bytes.now + 1) }
{
    for at in 0..file.counts.persons + 1 {
        row_fault(file, at)?;
    }
    Ok(())
}
