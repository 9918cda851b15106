// Handing over a chain: its record is written to the output, or it is the one more for which there is no room. `traces` has a function of its own
// for what it hands over, which may be counted only and has a right half behind it; what both share is in `pages`, and one for both would ask
// each chain which it is.
ghost use Rattle.search.specs.HandingOver.{Room, Handed};

use crate::walk::Walk;
use ways::RECORD;

impl Walk<'_> {
    // Hands over the first `len` persons of the chain with v behind them and To at the end, which may be v: `hops` hops in all. Returns
    // whether this is one more than there is room for.
    // The chain is copied first, and the last cells are set where they lie: a copy of what was just stored is slow.
    pub fn hand_over(&mut self, out: &mut [u32], len: usize, v: u32, hops: usize) -> bool
        requires { Room self.old out.old len hops }
        ensures { Handed self.old self.new out.old out.new len v hops result }
    {
        let count = self.count;
        if count >= self.ask.room {
            return true;
        }
        let at = count * RECORD;
        pages::put(out, at, &self.chain);
        out[at] = hops as u32;
        out[at + (len + 1)] = v;
        out[at + (hops + 1)] = self.ask.to;
        self.count = count + 1;
        false
    }
}
