// The rings: every way from a person back to that person that passes nobody twice, in portions.
//
// The public face of the search where From and To are one person. It refuses by number, in order: the file, the question, with 21 in 11's
// place, the output, the bookmark; a refusal changes no cell.
// It is the second instance of `listing`: what holds of portions of any listing holds of the rings, by the same laws.
#![tactic(auto)]

ghost use Rattle.listing.specs.Portions.{start_given};
ghost use Rattle.rings.specs.Rings.{RingsPortioned};

use question::{Question, Wanted};
use refusals::Answer;

// Writes the first rings after the bookmark to the output, as records from cell 0 on, as many as it has room for, and answers how
// many and whether the listing has ended. Without a bookmark it starts afresh.
pub fn rings(file: &[u8], question: Question, start: Option<&[u32]>, out: &mut [u32]) -> Answer
    ensures { RingsPortioned file.now question (start_given start.entry) out.old out.new result }
{
    starting::answer(file, question, Wanted::Rings, start, out)
}
