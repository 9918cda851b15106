// Squeezing: of a person's entries in a stretch of the trail only the first is kept. The last are put back first, so only the first
// tells in the end; and a person in a dead region is raised again and again, each time by a hop or two.
ghost use Rattle.std.specs.Prelude.{◌≡◌, ◌/◌, ◌%◌, get_or, set};
ghost use Rattle.barriers.specs.Trail.{heights, Restorable, Undoable};
ghost use Rattle.barriers.specs.Squeezing.{Squeezed, First, FirstsKept, Unmarked};

use crate::trail::HEIGHTS;
use compact::PERSONS;

// Twice as many as there are persons: then half or more are later entries of persons who have one, so that squeezing takes a few steps for each
// barrier that was raised.
const WORTH_IT: usize = 2 * PERSONS;

// Whether an entry is the first of its person. The person is then marked: what no barrier reaches is added to the barrier, so that
// who was met takes no memory of its own.
fn is_first(barriers: &mut [u8; PERSONS], entry: u16) -> bool
    requires { Restorable barriers.old entry }
    ensures { First barriers.old barriers.new entry result }
{
    let person = entry as usize / HEIGHTS;
    let barrier = usize::from(barriers[person]);
    if barrier >= HEIGHTS {
        return false;
    }
    barriers[person] = (barrier + HEIGHTS) as u8;
    true
}

// Keeps the first entry of each person between `low` and `high`. Returns where the trail ends then.
fn keep_firsts(barriers: &mut [u8; PERSONS], trail: &mut [u16], low: usize, high: usize) -> usize
    requires { Undoable barriers.old trail.old low high }
    ensures { FirstsKept barriers.old barriers.new trail.old trail.new low high result }
{
    let mut n = low;
    // By places, since what is read and what is written stand in one slice.
    for i in low..high {
        let entry = trail[i];
        if is_first(barriers, entry) {
            trail[n] = entry;
            n += 1;
        }
    }
    n
}

// Takes the mark off the person of an entry.
fn unmark(barriers: &mut [u8; PERSONS], entry: u16)
    requires { Restorable barriers.old entry }
    ensures { barriers.new ≡ set barriers.old (entry / heights) (get_or barriers.old (entry / heights) 0 % heights) }
{
    let person = entry as usize / HEIGHTS;
    barriers[person] = (usize::from(barriers[person]) % HEIGHTS) as u8;
}

// Takes the marks off the persons of the entries from `low` up to `n`.
fn unmark_all(barriers: &mut [u8; PERSONS], trail: &[u16], low: usize, n: usize)
    requires { Undoable barriers.old trail.now low n }
    ensures { Unmarked barriers.old barriers.new trail.now low n }
{
    for &entry in &trail[low..n] {
        unmark(barriers, entry);
    }
}

// Squeezes the trail between `low` and its end at `high`, if it is worth it. Returns where the trail ends then.
pub fn squeeze(barriers: &mut [u8; PERSONS], trail: &mut [u16], low: usize, high: usize) -> usize
    requires { Undoable barriers.old trail.old low high }
    ensures { Squeezed barriers.old barriers.new trail.old trail.new low high result }
{
    if high - low < WORTH_IT {
        return high;
    }
    let n = keep_firsts(barriers, trail, low, high);
    unmark_all(barriers, trail, low, n);
    n
}
