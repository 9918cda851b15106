// Where a portion starts: afresh, or after a bookmark; and the search from there on.
//
// `answer` takes any file, question and output, and refuses first; `list` asks for ones that have passed, From and To one person or two: so
// chains and rings are answered by the same lines. Whether a bookmark is the record of one of them is tested cell by cell and never by
// listing.
#![tactic(auto)]

mod bookmark;

ghost use Rattle.listing.specs.Portions.{start_given};
ghost use Rattle.starting.specs.Starting.{Passes, Starts, Answers};

use compact::{Graph, LINKS, STARTS};
use distance::table;
use question::{Question, Wanted, filling};
use refusals::{Answer, Listed, Reason, unless};

// Answers what is wanted of a file and a question, whatever these and the output are: it refuses by number, in order, the file, the
// question, the output, the bookmark, or writes a portion as `list` does. A refusal changes no cell.
pub fn answer(
    file: &[u8],
    question: Question,
    wanted: Wanted,
    start: Option<&[u32]>,
    out: &mut [u32],
) -> Answer
    ensures { Answers wanted file.now question (start_given start.entry) out.old out.new result }
{
    question::asked_room(file, question, wanted, out.len())?;
    // Two calls, so that the compiler does not lay it in here: a refusal takes no stack for the graph and the search.
    match start {
        None => list(file, question, None, out),
        Some(bookmark) => list(file, question, Some(bookmark), out),
    }
}

// Writes what is listed behind the start to the output, as records from cell 0 on, as many as it has room for, and answers how many and
// whether the listing has ended; or 17. With no bookmark it starts afresh.
pub fn list(file: &[u8], question: Question, start: Option<&[u32]>, out: &mut [u32]) -> Answer
    requires { Passes file.now question out.old }
    ensures { Starts file.now question (start_given start.entry) out.old out.new result }
{
    let mut starts = [0u16; STARTS];
    let mut targets = [0u16; LINKS];
    filling::fill(file, question, &mut starts, &mut targets);
    let graph = Graph {
        starts: &starts,
        targets: &targets,
    };
    unless(bookmark::fits(graph, question, start), Reason::Bookmark, 0)?;
    let fewest = table::distances(graph, question.to as usize, question.hops as u8);
    let found = search::list(
        graph,
        &fewest,
        question.from,
        question.to,
        question.hops as usize,
        start,
        out,
    );
    // Said here and in the join, each of its own list: a conversion would say it in as many words.
    Ok(Listed {
        count: found.count,
        ended: !found.more,
    })
}
