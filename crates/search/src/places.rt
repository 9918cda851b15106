// What a search is asked, and where it stands, in numbers: a struct of two numbers goes in registers.
use compact::PERSONS;
use ways::HOPS;

// Each entry that stands on the trail has raised its person's barrier, and none passes the hops: never too few.
pub const TRAIL: usize = HOPS * PERSONS;

// What stays the same all through a search: whom the chains lead to, and how many records there is room for.
#[derive(Clone, Copy)]
pub struct Ask {
    pub to: u32,
    pub room: usize,
}

// Where the chain stands: the persons in it so far, and the hops still allowed.
#[derive(Clone, Copy)]
pub struct Stand {
    pub len: usize,
    pub left: usize,
}
