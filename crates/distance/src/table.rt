// The distance table, breadth-first towards To: by rounds, each one hop farther than the last.
ghost use Rattle.std.specs.Prelude.{◌≡◌, ◌<◌};
ghost use Rattle.compact.specs.Compact.{persons};
ghost use Rattle.compact.specs.Links.{links_of};
ghost use Rattle.distance.specs.Table.{Table, Stepped, anybody};
ghost use Rattle.distance.specs.Inside.{Readable, NobodyBehind, Rounding};

use compact::{Graph, PERSONS};

// Whether a person has a link to somebody whose cell holds `hops`.
fn leads(graph: Graph<'_>, cells: &[u8; PERSONS], person: usize, hops: u8) -> bool
    requires { person < persons }
    ensures { result ≡ anybody cells.now hops (links_of graph.entry person) }
{
    graph
        .next(person)
        .iter()
        .any(|target| cells[*target as usize] == hops)
}

// How many persons there are up to the last who has a link: nobody behind leads anywhere, so no round has to look there.
fn linked(graph: Graph<'_>) -> usize
    ensures { NobodyBehind (links_of graph.entry) result }
{
    for person in (0..PERSONS).rev() {
        if !graph.next(person).is_empty() {
            return person + 1;
        }
    }
    0
}

// One round: whoever is still unknown and has a link to somebody of `hops` has one more. Answers whether anybody was added. The cells
// that this round sets do not disturb it: none of them holds `hops`.
fn round(graph: Graph<'_>, people: usize, most: u8, hops: u8, cells: &mut [u8; PERSONS]) -> bool
    requires { (Rounding most hops) × (NobodyBehind (links_of graph) people) }
    ensures { Stepped graph.entry.starts.now graph.entry.targets.now cells.old most hops result cells.new }
{
    let mut added = false;
    for person in 0..people {
        if cells[person] == most + 1 && leads(graph, cells, person, hops) {
            cells[person] = hops + 1;
            added = true;
        }
    }
    added
}

// The fewest hops of each of 1,024 persons to To, `most` at most, else one more, which is unknown: all are so at the start. It stops as
// soon as a round adds nobody. The table is handed back by value: that copies 1,024 bytes, which is little beside filling the graph, and
// its callers then know each cell from the promise alone.
pub fn distances(graph: Graph<'_>, to: usize, most: u8) -> [u8; PERSONS]
    requires { Readable to most }
    ensures { Table graph.entry.starts.now graph.entry.targets.now to most result }
{
    let unknown = most + 1;
    let mut cells = [unknown; 1024];
    cells[to] = 0;
    let people = linked(graph);
    for hops in 0..most {
        if !round(graph, people, most, hops, &mut cells) {
            return cells;
        }
    }
    cells
}
