// The place of each refusal. Nothing else in the code knows what a place is: callers hand over the header, or the counts and what is
// refused, and each function asks no more than what the check knows by then. One function for all would no longer say of what the place is.
ghost use Rattle.std.specs.Prelude.{◌≡◌, true, ◌+◌, ◌≤◌};
ghost use Rattle.ways.specs.Sizes.{most_persons, most_links, most_feeds};
ghost use Rattle.format.specs.Format.{counts_fit};
ghost use Rattle.checking.specs.Places.{counts_place, offsets_place, feed_place, entry_place, link_place};

use format::header::Header;
use format::layout::Counts;

// Of the mark (1): 0.
pub const MARK: u32 = 0;

// Of the counts (2): 0.
#[tactic(auto, unfolding(crate::specs::Places::counts_place))]
pub fn of_counts(header: Header<'_>) -> u32
    ensures { result ≡ counts_place header.entry.bytes.now }
{
    0
}

// Of the offsets and the length (3): 0.
#[tactic(auto, unfolding(crate::specs::Places::offsets_place))]
pub fn of_offsets(header: Header<'_>) -> u32
    requires { counts_fit header.bytes.now ≡ true }
    ensures { result ≡ offsets_place header.entry.bytes.now }
{
    0
}

// Of a feed (4, 5): its number.
#[tactic(auto, unfolding(crate::specs::Places::feed_place))]
pub fn of_feed(counts: Counts, feed: usize) -> u32
    requires { feed ≤ most_feeds }
    ensures { result ≡ feed_place counts feed }
{
    feed as u32
}

// Of an entry of the row table (6): its number.
#[tactic(auto, unfolding(crate::specs::Places::entry_place))]
pub fn of_entry(counts: Counts, entry: usize) -> u32
    requires { (counts.feeds ≤ most_feeds) × (entry ≤ most_persons + 1) }
    ensures { result ≡ entry_place counts entry }
{
    entry as u32
}

// Of a link (7, 8, 9): its number through the whole file.
#[tactic(auto, unfolding(crate::specs::Places::link_place))]
pub fn of_link(counts: Counts, number: usize) -> u32
    requires { (counts.persons ≤ most_persons) × (counts.feeds ≤ most_feeds) × (number ≤ most_links) }
    ensures { result ≡ link_place counts number }
{
    number as u32
}
