// The trail: an entry for each barrier that was raised, with the person and what the barrier was.
ghost use Rattle.std.specs.Prelude.{◌≡◌, ◌/◌, ◌%◌, set};
ghost use Rattle.std.proofs.Math.Seq.{slice};
ghost use Rattle.barriers.specs.Trail.{heights, unwind, Restorable, Undoable, Raising, Raised};

use compact::PERSONS;

// Barriers are 0 to 15. An entry is the person times 16 and the old barrier: the old one lies in the lowest four bits, the person above
// them. A barrier is at most the hops and one more, and 1,024 times 16 fits a cell of 16 bits.
pub const HEIGHTS: usize = 16;

// Puts one barrier back. Nothing is tested: the trail holds entries of persons alone.
fn restore(barriers: &mut [u8; PERSONS], entry: u16)
    requires { Restorable barriers.old entry }
    ensures { barriers.new ≡ set barriers.old (entry / heights) (entry % heights) }
{
    let e = entry as usize;
    barriers[e / HEIGHTS] = (e % HEIGHTS) as u8;
}

// Puts back the barriers that the trail has from `low` up to `high`, the last first. By places: what `Undoable` says of entries, it says of their
// places.
pub fn undo(barriers: &mut [u8; PERSONS], trail: &[u16], low: usize, high: usize)
    requires { Undoable barriers.old trail.now low high }
    ensures { barriers.new ≡ unwind (slice low high trail.now) barriers.old }
{
    for n in (low..high).rev() {
        restore(barriers, trail[n]);
    }
}

// Raises v's barrier, if the trail has room for the old one. Returns how many entries the trail then has.
pub fn raise(
    barriers: &mut [u8; PERSONS],
    trail: &mut [u16],
    v: usize,
    barrier: usize,
    n: usize,
) -> usize
    requires { Raising barriers.old trail.old v barrier n }
    ensures { Raised barriers.old barriers.new trail.old trail.new v barrier n result }
{
    if n >= trail.len() {
        return n;
    }
    trail[n] = (v * HEIGHTS + usize::from(barriers[v])) as u16;
    barriers[v] = barrier as u8;
    n + 1
}
