// The join: chains put together of two halves that share only the middle person.
//
// The public face of the half chains: it refuses by number, in order, and has all half chains counted before any is written to the
// lent working cells; then the chains are gathered from them. It promises the listing by hops, shorter first, then in dictionary
// order, and every cell that it leaves.
#![tactic(auto)]

ghost use Rattle.std.specs.Prelude.{◌≡◌, length};
ghost use Rattle.refusals.specs.Faults.{sound};
ghost use Rattle.question.specs.Asked.{asked_room_fault};
ghost use Rattle.half_chains.specs.Shelf.{Seeking};
ghost use Rattle.join.specs.Answers.{Joins, JoinsIn};

use compact::{Graph, LINKS, STARTS};
use format::header;
use half_chains::sought::Sought;
use half_chains::{INDEX, chains, halves};
use question::{Question, Wanted, filling};
use refusals::{Answer, Listed, Reason, unless};
use traces::tracing::Purpose;

// The join over the compact graph of a file: the half chains are counted before any cell is written.
fn join_graph(graph: Graph<'_>, sought: Sought, working: &mut [u32], out: &mut [u32]) -> Answer
    requires { Seeking graph sought }
    ensures { JoinsIn graph.entry sought working.old working.new out.old out.new result }
{
    let mut index = [0usize; INDEX];
    let counted = halves::shelve(graph, &mut index, working, sought, Purpose::Count);
    unless(!counted.more, Reason::Working, 0)?;
    halves::shelve(graph, &mut index, working, sought, Purpose::Write);
    let found = chains::gather(graph, working, &index, out, sought);
    // As in `starting`, of this list.
    Ok(Listed {
        count: found.count,
        ended: !found.more,
    })
}

// The join where the file, the question and the output have passed.
fn joined(file: &[u8], question: Question, working: &mut [u32], out: &mut [u32]) -> Answer
    requires { asked_room_fault file.now question (length out.old) ≡ sound }
    ensures { Joins file.now question working.old working.new out.old out.new result }
{
    let mut starts = [0u16; STARTS];
    let mut targets = [0u16; LINKS];
    filling::fill(file, question, &mut starts, &mut targets);
    let graph = Graph {
        starts: &starts,
        targets: &targets,
    };
    let counts = header::counts(file);
    let sought = Sought {
        persons: counts.persons,
        from: question.from as usize,
        to: question.to as usize,
        hops: question.hops as usize,
    };
    join_graph(graph, sought, working, out)
}

// Lists the chains by joining half chains: all half chains are written to `working`, the first chains, shorter first, to `out`.
pub fn join(file: &[u8], question: Question, working: &mut [u32], out: &mut [u32]) -> Answer
    ensures { Joins file.now question working.old working.new out.old out.new result }
{
    question::asked_room(file, question, Wanted::Chains, out.len())?;
    joined(file, question, working, out)
}
