// The link file, byte by byte: numbers, header, feeds, rows, links, kinds.
//
// Every room above reads a file only through the readers of this one, and every size and offset stands here once, in `layout` and in
// specs/Format, in the order of the customer's document. Nothing is refused here: what a file has to keep to is `checking`'s.
#![tactic(auto)]

pub mod feeds;
pub mod file;
pub mod header;
pub mod kinds;
pub mod layout;
pub mod links;
pub mod numbers;
pub mod rows;
