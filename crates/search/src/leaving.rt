// Leaving a person: whether anything led on from there.
ghost use Rattle.std.specs.Prelude.{◌≡◌, true};
ghost use Rattle.search.specs.Entering.{Barren};

use std::cmp::Ordering;

// Whether a person was left with nothing found and nothing skipped, from the chains counted before and after, and whether one more was
// seen: whoever stands on the bookmark's own beginning may have had chains before it.
pub fn barren(side: Ordering, before: usize, after: usize, more: bool) -> bool
    ensures { result ≡ true → Barren side before after more }
{
    side.is_gt() && !more && after == before
}
