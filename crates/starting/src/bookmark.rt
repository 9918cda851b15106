// Whether a bookmark is the record of a chain or, where From is To, of a ring, cell by cell.
ghost use Rattle.std.specs.Prelude.{◌≡◌, ◌≤◌, length};
ghost use Rattle.ways.specs.Graph.{among};
ghost use Rattle.ways.specs.Sizes.{record_size, most_hops};
ghost use Rattle.compact.specs.Links.{links_of};
ghost use Rattle.listing.specs.Portions.{start_given};
ghost use Rattle.starting.specs.Bookmark.{runs, leads_on, zeros, is_bookmark, start_fits};

use compact::{Graph, PERSONS};
use question::Question;
use ways::RECORD;

// Whether a link leads from a person to the next; whoever is no person has none.
fn leads(graph: Graph<'_>, person: u32, next: u32) -> bool
    ensures { result ≡ among next (links_of graph.entry person) }
{
    let from = person as usize;
    from < PERSONS
        && graph
            .next(from)
            .iter()
            .any(|target| u32::from(*target) == next)
}

// Whether the persons run on from one to the next by links, nobody twice, to the end person. By places: each is held against the next and against
// all behind.
fn run(graph: Graph<'_>, way: &[u32], to: u32) -> bool
    requires { 1 ≤ length way.now }
    ensures { result ≡ runs (links_of graph.entry) to way.now }
{
    let last = way.len() - 1;
    for at in 0..last {
        let person = way[at];
        if !leads(graph, person, way[at + 1]) || way[at + 1..].contains(&person) {
            return false;
        }
    }
    way[last] == to
}

// Whether From leads on by these persons to To, and comes again only where From is To.
#[tactic(auto, using(crate::proofs::Cells::on_way))]
fn leads_on(graph: Graph<'_>, from: u32, to: u32, way: &[u32]) -> bool
    requires { 1 ≤ length way.now }
    ensures { result ≡ leads_on (links_of graph.entry) from to way.now }
{
    leads(graph, from, way[0]) && (from == to || !way.contains(&from)) && run(graph, way, to)
}

// Whether there is nothing but zeros.
fn blank(cells: &[u32]) -> bool
    ensures { result ≡ zeros cells.now }
{
    cells.iter().all(|cell| *cell == 0)
}

// Whether the cells are the record of a chain from `from` to `to` of at most `hops` hops, or of a ring where these are one person.
fn is_bookmark(graph: Graph<'_>, from: u32, to: u32, hops: u32, cells: &[u32]) -> bool
    requires { hops ≤ most_hops }
    ensures { result ≡ is_bookmark record_size (links_of graph.entry) from to hops cells.now }
{
    if cells.len() != RECORD || !format::numbers::within(1, hops, cells[0]) {
        return false;
    }
    let end = cells[0] as usize + 2;
    cells[1] == from && leads_on(graph, from, to, &cells[2..end]) && blank(&cells[end..])
}

// Whether a portion may start here: a fresh start may, and a bookmark that is such a record.
pub fn fits(graph: Graph<'_>, question: Question, start: Option<&[u32]>) -> bool
    requires { question.hops ≤ most_hops }
    ensures { result ≡ start_fits (links_of graph.entry) question (start_given start.entry) }
{
    match start {
        None => true,
        Some(bookmark) => is_bookmark(graph, question.from, question.to, question.hops, bookmark),
    }
}
