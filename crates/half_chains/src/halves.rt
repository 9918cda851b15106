// The half chains, from each number of hops and each first person in turn: counted, or written with the index of them.
ghost use Rattle.half_chains.specs.Shelf.{Begin, Begun, Shelve, Shelved, First, Firsts};

use crate::sought::{NOTHING, Sought};
use compact::{Graph, PERSONS, STARTS};
use pages::HandedOver;
use traces::trace::Trace;
use traces::tracing::{Purpose, Tracing};
use ways::RECORD;

// The half chains of so many hops that begin with a person. From is marked: none begins with that person.
fn begin(
    tracing: &Tracing<'_>,
    marks: &mut [bool; PERSONS],
    working: &mut [u32],
    hops: usize,
    person: usize,
    before: HandedOver,
) -> HandedOver
    requires { Begin tracing.now marks.old working.old hops person before }
    ensures { Begun tracing.now marks.old marks.new working.old working.new hops person before result }
{
    if marks[person] {
        return before;
    }
    let alone = Trace::alone(person, hops);
    marks[person] = true;
    let got = traces::extend::extend(tracing, marks, working, alone, before);
    marks[person] = false;
    got
}

// The half chains of so many hops, by their first person. The row of the index for these hops notes for each person how many half
// chains came before theirs, and in the end how many there are.
fn by_first_person(
    tracing: &Tracing<'_>,
    marks: &mut [bool; PERSONS],
    index: &mut [usize],
    working: &mut [u32],
    persons: usize,
    hops: usize,
    before: HandedOver,
) -> HandedOver
    requires { First tracing.now marks.old index.old working.old persons hops before }
    ensures { Firsts tracing.now marks.old marks.new index.old index.new working.old working.new persons hops before result }
{
    let row = (hops - 1) * STARTS;
    let mut got = before;
    for p in 0..persons {
        if got.more {
            break;
        }
        index[row + p] = got.count;
        got = begin(tracing, marks, working, hops, p, got);
    }
    index[row + persons] = got.count;
    got
}

// All half chains, shorter first, then in dictionary order: (To) alone, and those of 1, 2, .. hops. From is marked all the time. No
// right half is looked up, so none is lent.
pub fn shelve(
    graph: Graph<'_>,
    index: &mut [usize],
    working: &mut [u32],
    sought: Sought,
    purpose: Purpose,
) -> HandedOver
    requires { Shelve graph index.old working.old sought }
    ensures { Shelved graph.entry index.old index.new working.old working.new sought purpose result }
{
    let from = sought.from;
    let mut marks = [false; PERSONS];
    marks[from] = true;
    let tracing = Tracing {
        graph,
        halves: &[],
        index: &[],
        to: sought.to,
        rest: 0,
        room: working.len() / RECORD,
        purpose,
    };
    let persons = sought.persons;
    let mut got = begin(&tracing, &mut marks, working, 0, sought.to, NOTHING);
    for hops in 1..=sought.hops / 2 {
        if got.more {
            break;
        }
        got = by_first_person(&tracing, &mut marks, index, working, persons, hops, got);
    }
    got
}
