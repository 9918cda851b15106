// The row table.
ghost use Rattle.std.specs.Prelude.{◌≡◌, ◌≤◌};
ghost use Rattle.format.specs.Format.{row};

use crate::file::LinkFile;
use crate::{layout, numbers};

impl LinkFile<'_> {
    // An entry of the row table: the number of the first link of a person, or of all links.
    pub fn entry(self, entry: usize) -> usize
        requires { entry ≤ self.counts.persons }
        ensures { result ≡ row self.entry.bytes.now entry }
    {
        numbers::number32(self.bytes, layout::entry_offset(self.counts, entry)) as usize
    }
}
