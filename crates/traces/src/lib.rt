// Traces: a simple sequence of persons, extended towards To by exactly so many hops.
//
// One recursion on the hops serves half chains and whole chains alike. Where it has no hop left, the sequence is whole if it ends at To, or it is
// paired with each right half that starts where it ends and shares nobody else; what is whole is counted, or written as a record.
// Only the compact graph is read here, and the right halves that are lent with their index.
#![tactic(auto)]

pub mod extend;
mod pairs;
mod records;
pub mod trace;
pub mod tracing;
