// The compact graph: all that listing and searching see of a link file once a file and a question have passed.
// Row starts and targets stand in two arrays of 16-bit cells. Person p has the targets from cell starts[p] up to but
// without cell starts[p + 1]: the persons that p's admitted links lead to, strictly rising. specs/ says how the arrays
// are read as a function from a person to persons (`graph_of`, and `links_of` of a `Graph`), and when they are well formed (`Compact`):
// of every `Graph` they are.
// `question` fills the arrays, and every room that goes by links reads them through `Graph`.
#![tactic(auto)]

ghost use Rattle.std.specs.Prelude.{◌≡◌, ◌<◌};
ghost use Rattle.compact.specs.Compact.{persons, graph_of, Compact, Compact-prop};

use ways::{LINKS as MOST_LINKS, PERSONS as MOST_PERSONS};

// As many persons as a file can have.
pub const PERSONS: usize = MOST_PERSONS;

// One row start for each person, and the end of the last row.
pub const STARTS: usize = PERSONS + 1;

// As many links as a file can have.
pub const LINKS: usize = MOST_LINKS;

// The two arrays, lent together and well formed. A list for each person would take memory from the heap.
#[derive(Clone, Copy)]
pub struct Graph<'a> {
    pub starts: &'a [u16; STARTS],
    pub targets: &'a [u16; LINKS],
    pub ghost compact: { Compact starts.now targets.now } by { Compact-prop starts.now targets.now },
}

impl<'a> Graph<'a> {
    // The persons that a person has links to.
    pub fn next(self, person: usize) -> &'a [u16]
        requires { person < persons }
        ensures { result.now ≡ graph_of self.entry.starts.now self.entry.targets.now person }
    {
        let starts = self.starts;
        let targets = self.targets;
        &targets[starts[person] as usize..starts[person + 1] as usize]
    }
}
