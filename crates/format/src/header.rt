// The header: the mark, the counts, the offsets and the length.
ghost use Rattle.std.specs.Prelude.{◌≡◌, true, ◌+◌, ◌≤◌, length};
ghost use Rattle.format.specs.Numbers.{number32};
ghost use Rattle.format.specs.Format.{header_size, marked, counts_in, fit, counts_fit, offsets_in, agree, laid_out};
ghost use Rattle.format.specs.Laid.{Laid};

use crate::layout::{Counts, HEADER, Offsets};
use crate::{layout, numbers};
use ways::{FEEDS, LINKS, PERSONS};

// Whether there are 32 bytes and the mark is `KLF1`.
#[tactic(auto, unfolding(crate::specs::Format::marked))]
pub fn marked(file: &[u8]) -> bool
    ensures { result ≡ marked file.now }
{
    HEADER <= file.len() && file.starts_with(b"KLF1")
}

// Bytes that reach as far as a header, and so have its numbers. That the counts fit is asked apart, in three
// clauses: a type for it would be made and taken apart by the check alone, and be no plainer.
#[derive(Clone, Copy)]
pub struct Header<'a> {
    pub bytes: &'a [u8],
    pub ghost whole: { header_size ≤ length bytes.now },
}

// Whether n is 1 to its limit, and m and f are at most theirs.
#[tactic(auto, unfolding(crate::specs::Format::fit))]
fn fit(counts: Counts) -> bool
    ensures { result ≡ fit counts }
{
    (1..=PERSONS).contains(&counts.persons) && counts.links <= LINKS && counts.feeds <= FEEDS
}

// Whether the stated offsets and length are the derived ones, and the length is that of the slice.
#[tactic(auto, unfolding(crate::specs::Format::agree))]
fn agree(stated: Offsets, derived: Offsets, length: usize) -> bool
    ensures { result ≡ agree stated derived length }
{
    stated == derived && length == derived.length
}

impl Header<'_> {
    // A number, by its offset.
    fn stated(self, at: usize) -> usize
        requires { at + 4 ≤ header_size }
        ensures { result ≡ number32 self.entry.bytes.now at }
    {
        numbers::number32(self.bytes, at) as usize
    }

    // The counts, whatever they are.
    pub fn counts(self) -> Counts
        ensures { result ≡ counts_in self.entry.bytes.now }
    {
        Counts {
            persons: self.stated(4),
            links: self.stated(8),
            feeds: self.stated(12),
        }
    }

    // The offsets and the length, whatever they are.
    fn offsets(self) -> Offsets
        ensures { result ≡ offsets_in self.entry.bytes.now }
    {
        Offsets {
            feeds: self.stated(16),
            rows: self.stated(20),
            links: self.stated(24),
            length: self.stated(28),
        }
    }

    // Whether the counts are within their limits.
    pub fn counts_fit(self) -> bool
        ensures { result ≡ counts_fit self.entry.bytes.now }
    {
        fit(self.counts())
    }

    // Whether the offsets and the length are as derived from the counts, and the length is the slice's.
    pub fn laid_out(self) -> bool
        requires { counts_fit self.bytes.now ≡ true }
        ensures { result ≡ laid_out self.entry.bytes.now }
    {
        agree(
            self.offsets(),
            layout::derived(self.counts()),
            self.bytes.len(),
        )
    }
}

// The counts of a file that passed 1, 2 and 3.
#[tactic(auto, using(crate::proofs::Counted::marked_long, crate::proofs::Counted::file_laid))]
pub fn counts(file: &[u8]) -> Counts
    requires mark { marked file.now ≡ true }
    requires counts { counts_fit file.now ≡ true }
    requires layout { laid_out file.now ≡ true }
    ensures { Laid file.now result }
{
    Header { bytes: file }.counts()
}
