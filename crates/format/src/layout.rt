// Where everything stands: the sizes of the four kinds of record, and the offsets that follow from the counts.
ghost use Rattle.std.specs.Prelude.{◌≡◌, true, ◌+◌, ◌*◌, ◌≤◌};
ghost use Rattle.ways.specs.Sizes.{most_persons, most_links, most_feeds};
ghost use Rattle.format.specs.Format.{feed_at, rows_start, entry_size, links_start, link_size, fit, offsets_for};

// The bytes of the header, of a feed, of an entry of the row table and of a link.
pub const HEADER: usize = 32;

const FEED: usize = 4;

const ENTRY: usize = 4;

const LINK: usize = 12;

// The header's counts: n, m and f.
#[derive(Clone, Copy, Debug, PartialEq, Eq)]
pub struct Counts {
    pub persons: usize,
    pub links: usize,
    pub feeds: usize,
}

// The offsets of the three tables, and the file's length.
#[derive(Clone, Copy, Debug, PartialEq, Eq)]
pub struct Offsets {
    pub feeds: usize,
    pub rows: usize,
    pub links: usize,
    pub length: usize,
}

// The offset of a feed.
pub fn feed_offset(feed: usize) -> usize
    requires { feed ≤ most_feeds }
    ensures { result ≡ feed_at feed }
{
    HEADER + FEED * feed
}

// The offset of an entry of the row table, which begins where the feeds end.
pub fn entry_offset(counts: Counts, entry: usize) -> usize
    requires { (counts.feeds ≤ most_feeds) × (entry ≤ most_persons + 1) }
    ensures { result ≡ rows_start counts.feeds + entry_size * entry }
{
    feed_offset(counts.feeds) + ENTRY * entry
}

// The offset of a link, by its number through the whole file; the links begin where the n+1 entries end.
pub fn link_offset(counts: Counts, link: usize) -> usize
    requires { (counts.persons ≤ most_persons) × (counts.feeds ≤ most_feeds) × (link ≤ most_links) }
    ensures { result ≡ links_start counts.persons counts.feeds + link_size * link }
{
    entry_offset(counts, counts.persons + 1) + LINK * link
}

// The offsets and the length that follow from the counts.
#[tactic(auto, using(crate::proofs::Counted::fit_facts))]
pub fn derived(counts: Counts) -> Offsets
    requires { fit counts ≡ true }
    ensures { result ≡ offsets_for counts }
{
    Offsets {
        feeds: feed_offset(0),
        rows: entry_offset(counts, 0),
        links: link_offset(counts, 0),
        length: link_offset(counts, counts.links),
    }
}
