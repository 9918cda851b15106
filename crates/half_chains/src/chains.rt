// The chains: of 1, 2, .. hops, by their left halves, each with its right halves.
ghost use Rattle.half_chains.specs.Shelf.{Gather, Gathered};

use crate::sought::{NOTHING, Sought};
use compact::{Graph, PERSONS};
use pages::HandedOver;
use traces::trace::Trace;
use traces::tracing::{Purpose, Tracing};
use ways::RECORD;

// Hands over the chains that are sought, shorter first, while there is room.
pub fn gather(
    graph: Graph<'_>,
    halves: &[u32],
    index: &[usize],
    out: &mut [u32],
    sought: Sought,
) -> HandedOver
    requires { Gather graph halves.now index.now out.old sought }
    ensures { Gathered graph.entry halves.now index.now out.old out.new sought result }
{
    let from = sought.from;
    let room = out.len() / RECORD;
    let mut marks = [false; PERSONS];
    marks[from] = true;
    let mut got = NOTHING;
    for length in 1..=sought.hops {
        if got.more {
            break;
        }
        let left = (length + 1) / 2;
        let tracing = Tracing {
            graph,
            halves,
            index,
            to: sought.to,
            rest: length - left,
            room,
            purpose: Purpose::Write,
        };
        let alone = Trace::alone(from, left);
        got = traces::extend::extend(&tracing, &mut marks, out, alone, got);
    }
    got
}
