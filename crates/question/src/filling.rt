// From bytes to the compact graph: one pass over the links.
ghost use Rattle.question.specs.Filled.{Fillable, Filled, Appendable, Appended};

use crate::{Question, admission};
use compact::PERSONS;
use format::file::LinkFile;
use format::header;

// Writes the persons that a person's admitted links lead to, from the cell `start` on. Answers the cell behind the last of them.
fn append(
    file: LinkFile<'_>,
    question: Question,
    person: usize,
    start: usize,
    targets: &mut [u16],
) -> usize
    requires { Appendable file.bytes.now person start targets.old }
    ensures { Appended file.entry.bytes.now question person start result targets.old targets.new }
{
    if file.counts.persons <= person {
        return start;
    }
    let first = file.entry(person);
    let stop = file.entry(person + 1);
    let mut end = start;
    for number in first..stop {
        if admission::admits(file, question, number) {
            targets[end] = file.link(number).target as u16;
            end += 1;
        }
    }
    end
}

// Fills row starts and targets from a file that has passed, so that, read back, they are `next`. Whoever is not in the file has an empty
// row behind the others, so that a reader needs no person count. The arrays are the caller's: a graph over arrays of this function's own could
// not be handed back, and to hand back the arrays would copy them.
pub fn fill(file: &[u8], question: Question, starts: &mut [u16], targets: &mut [u16])
    requires { Fillable file.now starts.old targets.old }
    ensures { Filled file.now question starts.new targets.new }
{
    let laid = LinkFile {
        bytes: file,
        counts: header::counts(file),
    };
    let mut end = 0;
    starts[0] = 0;
    for person in 0..PERSONS {
        end = append(laid, question, person, end, targets);
        starts[person + 1] = end as u16;
    }
}
