// The rules of a link, 7, 8 and 9, over links by value, and the link table of a file.
ghost use Rattle.std.specs.Prelude.{◌≡◌, ◌≤◌};
ghost use Rattle.ways.specs.Sizes.{most_persons, most_links, most_feeds};
ghost use Rattle.refusals.specs.Faults.{fault_said, first_among};
ghost use Rattle.format.specs.Format.{person_count};
ghost use Rattle.checking.specs.Links.{rises, link_ruled, link_fault};
ghost use Rattle.checking.specs.Checked.{owned_fault};
ghost use Rattle.checking.specs.Inside.{Rowed};

use crate::places;
use format::file::LinkFile;
use format::kinds;
use format::layout::Counts;
use format::links::{LAST_DAY, Link};
use refusals::{Reason, Refusal, unless};

// In one row the targets strictly rise, above the link before that counts: the first of a row has nothing to rise above.
fn rises(before: Option<Link>, link: Link) -> bool
    ensures { result ≡ rises before link }
{
    before.is_none_or(|lower| lower.target < link.target)
}

// The rule of refusal 7.
#[tactic(auto, unfolding(crate::specs::Links::link_ruled))]
fn link_ruled(counts: Counts, owner: usize, before: Option<Link>, link: Link) -> bool
    ensures { result ≡ link_ruled counts owner before link }
{
    let target = link.target as usize;
    let feed = link.feed as usize;
    target < counts.persons
        && target != owner
        && rises(before, link)
        && feed < counts.feeds
        && link.zero == 0
}

// One link, 7, 8, 9: as the link of this number among the owner's.
#[tactic(auto, unfolding(crate::specs::Links::link_fault))]
pub fn link_fault(
    counts: Counts,
    owner: usize,
    before: Option<Link>,
    link: Link,
    number: usize,
) -> Result<(), Refusal>
    requires { (counts.persons ≤ most_persons) × (counts.feeds ≤ most_feeds) × (number ≤ most_links) }
    ensures { fault_said result ≡ link_fault counts owner before link number }
{
    let place = places::of_link(counts, number);
    unless(link_ruled(counts, owner, before, link), Reason::Link, place)?;
    unless(kinds::known(link.kind), Reason::Kind, place)?;
    unless(link.day <= LAST_DAY, Reason::Day, place)
}

// The first fault of the link table. Both loops are left at the first fault, from inside, as the document has it: so the refusal is carried out
// of them, and not handed up by `?`.
pub fn links_fault(file: LinkFile<'_>) -> Result<(), Refusal>
    requires { Rowed file.bytes.now }
    ensures { fault_said result ≡ first_among (owned_fault file.entry.bytes.now) 0 (person_count file.entry.bytes.now) }
{
    let mut found = Ok(());
    let counts = file.counts;
    'persons: for owner in 0..counts.persons {
        let start = file.entry(owner);
        let end = file.entry(owner + 1);
        let mut before = None;
        for number in start..end {
            let link = file.link(number);
            found = link_fault(counts, owner, before, link, number);
            if found.is_err() {
                break 'persons;
            }
            before = Some(link);
        }
    }
    found
}
