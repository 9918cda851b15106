// The feed table.
ghost use Rattle.std.specs.Prelude.{◌≡◌, ◌+◌, ◌≤◌, ◌<◌, length};
ghost use Rattle.ways.specs.Sizes.{most_feeds};
ghost use Rattle.format.specs.Numbers.{byte};
ghost use Rattle.format.specs.Format.{archive, meaning, feed_zero, feed_at, feed_size};

use crate::file::LinkFile;
use crate::{layout, numbers};

// A feed, by its number, of bytes that reach as far.
#[derive(Clone, Copy)]
pub struct Feed<'a> {
    pub bytes: &'a [u8],
    pub number: usize,
    pub ghost counted: { number < most_feeds },
    pub ghost inside: { feed_at number + feed_size ≤ length bytes.now },
}

impl Feed<'_> {
    // The archive number.
    pub fn archive(self) -> u32
        ensures { result ≡ archive self.entry.bytes.now self.entry.number }
    {
        numbers::number16(self.bytes, layout::feed_offset(self.number))
    }

    // A byte, by its place in the feed.
    fn byte(self, at: usize) -> u32
        requires { at < feed_size }
        ensures { result ≡ byte self.entry.bytes.now (feed_at self.entry.number + at) }
    {
        u32::from(self.bytes[layout::feed_offset(self.number) + at])
    }

    // The date meaning.
    pub fn meaning(self) -> u32
        ensures { result ≡ meaning self.entry.bytes.now self.entry.number }
    {
        self.byte(2)
    }

    // The byte that has to be zero.
    pub fn zero(self) -> u32
        ensures { result ≡ feed_zero self.entry.bytes.now self.entry.number }
    {
        self.byte(3)
    }
}

impl<'a> LinkFile<'a> {
    // A feed of the file.
    pub fn feed(self, number: usize) -> Feed<'a>
        requires { number < self.counts.feeds }
        ensures bytes { result.bytes.now ≡ self.entry.bytes.now }
        ensures number { result.number ≡ number }
    {
        Feed {
            bytes: self.bytes,
            number,
        }
    }
}
