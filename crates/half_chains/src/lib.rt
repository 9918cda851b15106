// Half chains: the simple sequences that end at To and do not visit From, and the chains that two halves make.
//
// Half chains are gone through from each number of hops and each first person in turn, counted or written as records with an index of
// them; chains of 1, 2, .. hops are found by their left halves, each with the right halves that start where it ends. `traces` extends
// both. Only the compact graph is read here; who is asked, and what is refused, is the business of `join`.
#![tactic(auto)]

pub mod chains;
pub mod halves;
pub mod sought;

use compact::STARTS;
use ways::HOPS;

// The index of the half chains that have a hop, and at most half of all: a row for each number of hops, with a start for each first
// person and the end of the last, one row behind the other, as `place_of` counts them: nested arrays would be
// looked up in two steps and say the same.
pub const INDEX: usize = HOPS / 2 * STARTS;
