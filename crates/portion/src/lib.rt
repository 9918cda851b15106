// The portion: the first chains after a bookmark, in the room that was lent.
//
// The public face of the search from one person to another. It refuses by number, in order: the file, the question, the output, the bookmark;
// a refusal changes no cell.
// It is the first instance of `listing`: portions laid end to end are the listing, by a law over this operation's own promise.
#![tactic(auto)]

ghost use Rattle.listing.specs.Portions.{start_given};
ghost use Rattle.portion.specs.Listing.{Portioned};

use question::{Question, Wanted};
use refusals::Answer;

// Writes the first chains after the bookmark to the output, as records from cell 0 on, as many as it has room for, and answers how
// many and whether the listing has ended. Without a bookmark it starts afresh.
pub fn portion(file: &[u8], question: Question, start: Option<&[u32]>, out: &mut [u32]) -> Answer
    ensures { Portioned file.now question (start_given start.entry) out.old out.new result }
{
    starting::answer(file, question, Wanted::Chains, start, out)
}
