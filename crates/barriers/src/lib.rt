// Barriers, and the trail that leads back to what they were.
//
// A person's barrier says that To is not reached from there, past those in the chain, in fewer hops. Barriers start as the fewest hops,
// and a search raises them where it found nothing. What was raised while a person stood in the chain need not hold once that person is
// left, so the trail keeps what the barriers were.
// `settle` says what becomes of barriers and trail when a person is left: they hold again, none that is new is high, and the trail leads
// back. How that is done is this room's own affair. `squeeze` shortens the trail: it leads back to the same barriers. The trail is lent, of any
// length: while it is full no barrier is raised, and a search then takes longer and loses nothing.
// Barriers and trail are lent side by side and not as one struct: what holds them is not this room's, and a struct of two references would be
// made anew for each person who is left, with a clause more in every function that the references stay the same; one that owns both would fix the trail's length here.
#![tactic(auto)]

ghost use Rattle.barriers.specs.Settling.{Settling, Settled};

mod squeezing;
mod trail;

use compact::PERSONS;
pub use squeezing::squeeze;

// Settles the barriers when v is left, who was entered with `left` hops still allowed: the trail had `low` entries then and has
// `high` now. `barren` says that no way led on from v. Returns how many entries the trail has from now on.
// v's barrier is raised where nothing was found; else all is put back as it was when v was entered.
pub fn settle(
    barriers: &mut [u8; PERSONS],
    trail: &mut [u16],
    v: usize,
    left: usize,
    barren: bool,
    low: usize,
    high: usize,
) -> usize
    requires { Settling barriers.old trail.old v left low high }
    ensures { Settled barriers.old barriers.new trail.old trail.new v left barren low high result }
{
    if barren {
        return trail::raise(barriers, trail, v, left + 1, high);
    }
    trail::undo(barriers, trail, low, high);
    low
}
