// The pure mathematics of chains: no bytes, no search, no code but the numbers of the product, from which every room counts: the size of
// a record, the most hops, and how many persons, links and feeds a file may have.
// specs/ says what a chain, a ring, a listing, a portion, a record and a half chain are, over a graph that is
// any function from a person to the persons that the person has links to. proofs/ has the laws that all rooms cite:
// the listing holds every chain and nothing else, in dictionary order, and no other list does; so do the rings; portions
// laid end to end give it back; half chains join to it; and a search may leave out what has no way to the end.
#![tactic(auto)]

// A chain record has ten cells: the hops, the persons, zeros.
pub const RECORD: usize = 10;

// A chain has at most eight hops.
pub const HOPS: usize = 8;

// A file has at most so many persons, links and feeds.
pub const PERSONS: usize = 1024;

pub const LINKS: usize = 4096;

pub const FEEDS: usize = 16;
