// The search: entering a person, and going through that person's links. It lists the chains of the compact graph in
// dictionary order, from a bookmark on, as records, until there is no more room, and says whether one more follows. From and To may be one
// person: then what it lists comes back to that person.
// One face, `list`, sets up a walk: the graph, the question, and marks, barriers and trail of its own. Two methods of the walk call
// each other in a cycle. What the face promises speaks of the listing alone. Pruning, by the fewest hops at first and by barriers from
// then on, changes no listing: that is proved; the time it saves is measured.
#![tactic(auto)]

ghost use Rattle.search.specs.Face.{Asked, Answered};

mod bookmark;
mod leaving;
mod places;
mod records;
mod walk;

use compact::{Graph, PERSONS};
use pages::HandedOver;
use places::{Ask, Stand, TRAIL};
use walk::Walk;
use ways::RECORD;

// Writes the chains from `from` to `to` of at most `hops` hops, those behind the bookmark where the listing was
// started, as records to `out` while there is room. `fewest` has each person's fewest hops to `to`.
pub fn list(
    graph: Graph<'_>,
    fewest: &[u8; PERSONS],
    from: u32,
    to: u32,
    hops: usize,
    start: Option<&[u32]>,
    out: &mut [u32],
) -> HandedOver
    requires { Asked graph.starts.now graph.targets.now fewest.now from to hops start }
    ensures { Answered graph.entry.starts.now graph.entry.targets.now from to hops start.entry out.old out.new result }
{
    let at = from as usize;
    let mut walk = Walk {
        graph,
        ask: Ask {
            to,
            room: out.len() / RECORD,
        },
        marks: [false; PERSONS],
        barriers: *fewest,
        chain: [0; RECORD],
        trail: [0; TRAIL],
        height: 0,
        count: 0,
    };
    walk.chain[1] = from;
    walk.marks[at] = true;
    let more = walk.go_through(at, out, Stand { len: 1, left: hops }, start);
    HandedOver {
        count: walk.count,
        more,
    }
}
