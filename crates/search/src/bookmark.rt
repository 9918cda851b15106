// After a bookmark: while the chain is the bookmark's own beginning, what stands before it is skipped.
ghost use Rattle.std.specs.Prelude.{◌≡◌};
ghost use Rattle.search.specs.Bookmarks.{kept, Tight, Beside};

use std::cmp::Ordering;

// Where v stands to the bookmark's next person, behind `len` persons: before, the same, or behind. Once the bookmark is left, and in a
// fresh start, everybody stands behind.
pub fn beside(tight: Option<&[u32]>, len: usize, v: u32) -> Ordering
    requires { Tight tight len }
    ensures { Beside tight.entry len v result }
{
    let Some(bookmark) = tight else {
        return Ordering::Greater;
    };
    v.cmp(&bookmark[len + 1])
}

// The bookmark, as long as the chain is its beginning: behind a person on that side of it.
pub fn keep(tight: Option<&[u32]>, side: Ordering) -> Option<&[u32]>
    ensures { result ≡ kept tight.entry side }
{
    if side.is_eq() { tight } else { None }
}
