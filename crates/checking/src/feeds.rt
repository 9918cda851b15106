// The rules of the feed table, 4 and 5.
ghost use Rattle.std.specs.Prelude.{◌≡◌, ◌<◌};
ghost use Rattle.refusals.specs.Faults.{fault_said, first_among};
ghost use Rattle.format.specs.Format.{feed_count};
ghost use Rattle.checking.specs.Checked.{archive_rises, feed_ruled, feed_fault};

use crate::places;
use format::feeds::Feed;
use format::file::LinkFile;
use format::numbers;
use refusals::{Reason, Refusal, unless};

// The first feed has nothing to rise above.
#[tactic(auto, unfolding(crate::specs::Checked::archive_rises))]
fn archive_rises(feed: Feed<'_>) -> bool
    ensures { result ≡ archive_rises feed.entry.bytes.now feed.entry.number }
{
    if feed.number == 0 {
        return true;
    }
    let before = Feed {
        bytes: feed.bytes,
        number: feed.number - 1,
    };
    before.archive() < feed.archive()
}

// The rule of refusal 4.
#[tactic(auto, unfolding(crate::specs::Checked::feed_ruled))]
fn feed_ruled(feed: Feed<'_>) -> bool
    ensures { result ≡ feed_ruled feed.entry.bytes.now feed.entry.number }
{
    1 <= feed.archive() && archive_rises(feed) && feed.zero() == 0
}

// One feed: 4 before 5.
#[tactic(auto, using(format::proofs::Counted::counts_are), unfolding(crate::specs::Checked::feed_fault))]
fn feed_fault(file: LinkFile<'_>, number: usize) -> Result<(), Refusal>
    requires { number < file.counts.feeds }
    ensures { fault_said result ≡ feed_fault file.entry.bytes.now number }
{
    let place = places::of_feed(file.counts, number);
    let feed = file.feed(number);
    unless(feed_ruled(feed), Reason::Feed, place)?;
    unless(
        numbers::within(1, 2, feed.meaning()),
        Reason::FeedMeaning,
        place,
    )
}

// The first fault of the feed table. A loop of three lines, here and over the rows: `try_for_each` says the same in as many.
pub fn feeds_fault(file: LinkFile<'_>) -> Result<(), Refusal>
    ensures { fault_said result ≡ first_among (feed_fault file.entry.bytes.now) 0 (feed_count file.entry.bytes.now) }
{
    for number in 0..file.counts.feeds {
        feed_fault(file, number)?;
    }
    Ok(())
}
