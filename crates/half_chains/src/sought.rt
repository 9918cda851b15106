// What both modules of this room are asked by their caller, and what they begin with.
use pages::HandedOver;

// Nothing handed over yet.
pub const NOTHING: HandedOver = HandedOver {
    count: 0,
    more: false,
};

// Between whom chains are sought and of how many hops at most, in a file of so many persons.
#[derive(Clone, Copy)]
pub struct Sought {
    pub persons: usize,
    pub from: usize,
    pub to: usize,
    pub hops: usize,
}
