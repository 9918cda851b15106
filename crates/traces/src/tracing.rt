// What is asked of all sequences that are traced towards To, and what they are traced with.
ghost use Rattle.std.specs.Prelude.{◌≡◌};
ghost use Rattle.traces.specs.Indexed.{Indexed, Indexed_prop};

use compact::Graph;

// What sequences are traced for: to be counted only, or to be written as records. It decides one test for each chain, which a closure would be
// called for.
#[derive(Clone, Copy)]
pub enum Purpose {
    Count,
    Write,
}

// What stays the same while sequences are traced. It is lent to each step, so that no step copies it. What the index points at are
// records of persons, wherever a right half has a hop.
#[derive(Drop)]
pub struct Tracing<'a> {
    pub graph: Graph<'a>,
    // the right halves, as records, and the index that says where they stand
    pub halves: &'a [u32],
    pub index: &'a [usize],
    // whom the sequences have to lead to
    pub to: usize,
    // hops of the right halves; where there are none, the sequence itself has to end at To
    pub rest: usize,
    // records that there is room for
    pub room: usize,
    pub purpose: Purpose,
    pub ghost indexed: { (rest ≡ 0 → ⊥) → Indexed halves.now index.now rest } by { Indexed_prop halves.now index.now rest },
}
