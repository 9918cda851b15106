// A held listing in lent cells: the numbers of its question, started, the record. One that was stored before the question had its
// eighth number has a cell less: it counts as 1, and the listing is moved on in the cells that it has.
ghost use Rattle.std.specs.Prelude.{◌≡◌, ◌≤◌, length};
ghost use Rattle.outside.specs.HeldCells.{held_size, stored_size, held_whole, undated_in, held_of, cells_of_held};

use crate::encoding::asking;
use held::Held;
use ways::RECORD;

// The numbers of a question, and where the last of them stands.
const NUMBERS: usize = 8;

const UNDATED: usize = NUMBERS - 1;

// The numbers of one stored before, and what the number that it lacks counts as.
const STORED_NUMBERS: usize = 7;

const STORED_UNDATED: u32 = 1;

// The cells of a held listing behind its question.
const BEHIND: usize = 1 + RECORD;

// All its cells, and those of one stored before.
const HELD: usize = NUMBERS + BEHIND;

const STORED_HELD: usize = STORED_NUMBERS + BEHIND;

// Whether so many cells are a held listing, of either form.
pub fn is_held(cells: usize) -> bool
    ensures { result ≡ held_whole cells }
{
    cells == HELD || cells == STORED_HELD
}

// What the question says of undated links.
fn undated_in(lent: &[u32]) -> u32
    ensures { result ≡ undated_in lent.now }
{
    if lent.len() == HELD {
        return lent[UNDATED];
    }
    STORED_UNDATED
}

// The held listing in its cells.
pub fn held_of(lent: &[u32]) -> Held
    requires { (stored_size ≤ length lent.now) × (length lent.now ≤ held_size) }
    ensures { result ≡ held_of lent.now }
{
    let numbers = lent.len() - BEHIND;
    let question = asking(
        lent[0],
        lent[1],
        lent[2],
        lent[3],
        lent[4],
        lent[5],
        lent[6],
        undated_in(lent),
    );
    Held {
        question,
        started: lent[numbers],
        record: pages::record_at(lent, numbers + 1),
    }
}

// A call changes started and the record at most; the question stays.
pub fn keep(lent: &mut [u32], held: Held)
    requires { (stored_size ≤ length lent.old) × (length lent.old ≤ held_size) }
    ensures { lent.new ≡ cells_of_held lent.old held }
{
    let numbers = lent.len() - BEHIND;
    let record = held.record;
    lent[numbers] = held.started;
    pages::put(lent, numbers + 1, &record);
}
