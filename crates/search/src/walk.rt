// The walk: entering a person, and going through that person's links, in a cycle.
ghost use Rattle.search.specs.Entering.{Ready, Entered, GoneThrough};

use crate::places::{Ask, Stand, TRAIL};
use crate::{bookmark, leaving};
use compact::{Graph, PERSONS};
use ways::RECORD;

// What a search goes by, and what it notes on its way: the graph and the question; whom the chain has, and each person's barrier; the
// chain, with its persons from cell 1 on; the trail back from the barriers, and how many entries it has; and the chains handed over. Memory is
// fixed, so chain and trail are arrays: where a chain stands goes with each step (`Stand`), since it ends with it.
#[derive(Drop)]
pub struct Walk<'a> {
    pub graph: Graph<'a>,
    pub ask: Ask,
    pub marks: [bool; PERSONS],
    pub barriers: [u8; PERSONS],
    pub chain: [u32; RECORD],
    pub trail: [u16; TRAIL],
    pub height: usize,
    pub count: usize,
}

impl Walk<'_> {
    // Tries v as the next person of the chain. Returns whether a chain more was seen than there is room for.
    // `tight` is the bookmark while the chain is its beginning: none once the chain has left it, and in a fresh start.
    #[cycle(enter_go_through)]
    fn enter(&mut self, v: u32, out: &mut [u32], stand: Stand, tight: Option<&[u32]>) -> bool
        requires { Ready self.old out.old stand tight v }
        ensures { Entered self.old self.new out.old out.new stand tight.entry v result }
    {
        let side = bookmark::beside(tight, stand.len, v);
        if side.is_lt() {
            return false;
        }
        // To comes before the mark: where From is To as well, this closes a ring.
        if v == self.ask.to {
            if side.is_eq() {
                return false;
            }
            return self.hand_over(out, stand.len, v, stand.len);
        }
        let at = v as usize;
        if self.marks[at] {
            return false;
        }
        let left = stand.left - 1;
        if left < self.barriers[at] as usize {
            return false;
        }
        // The last hop is no search: the barrier says that To is next.
        if left == 1 && side.is_gt() {
            return self.hand_over(out, stand.len, v, stand.len + 1);
        }
        let len = stand.len + 1;
        self.chain[len] = v;
        self.marks[at] = true;
        let count = self.count;
        let height = self.height;
        let more = self.go_through(at, out, Stand { len, left }, bookmark::keep(tight, side));
        self.marks[at] = false;
        self.chain[len] = 0;
        let barren = leaving::barren(side, count, self.count, more);
        self.height = barriers::settle(
            &mut self.barriers,
            &mut self.trail,
            at,
            left,
            barren,
            height,
            self.height,
        );
        more
    }

    // Tries each link of the person at, who stands last in the chain, until one chain more is seen than there is room for. Returns
    // whether it was.
    #[cycle(enter_go_through)]
    pub fn go_through(
        &mut self,
        at: usize,
        out: &mut [u32],
        stand: Stand,
        tight: Option<&[u32]>,
    ) -> bool
        requires { Ready self.old out.old stand tight at }
        ensures { GoneThrough self.old self.new out.old out.new stand tight.entry at result }
    {
        for &v in self.graph.next(at) {
            if self.enter(v as u32, out, stand, tight) {
                return true;
            }
        }
        false
    }
}
