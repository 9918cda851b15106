// The link table.
ghost use Rattle.std.specs.Prelude.{◌≡◌, ◌<◌};
ghost use Rattle.format.specs.Format.{link_in};

use crate::file::LinkFile;
use crate::{layout, numbers};

// The last day that a link or a question can name: 31 December 9999.
pub const LAST_DAY: u32 = 3_652_059;

// A link by value, wherever it stands.
#[derive(Clone, Copy)]
pub struct Link {
    pub target: u32,
    pub day: u32,
    pub feed: u32,
    pub kind: u8,
    pub zero: u8,
}

impl LinkFile<'_> {
    // A link, by its number through the whole file.
    pub fn link(self, number: usize) -> Link
        requires { number < self.counts.links }
        ensures { result ≡ link_in self.entry.bytes.now number }
    {
        let at = layout::link_offset(self.counts, number);
        let bytes = self.bytes;
        Link {
            target: numbers::number32(bytes, at),
            day: numbers::number32(bytes, at + 4),
            feed: numbers::number16(bytes, at + 8),
            kind: bytes[at + 10],
            zero: bytes[at + 11],
        }
    }
}
