// Reading: all that lent space has room for, or all that there is.
//
// A program reads the whole input before anything is decided about it. What stands in the space are the bytes that were read, in their
// order, with nothing between them: wherever it is known what a reader gives, the promise says so.
#![tactic(auto)]

ghost use Rattle.std.specs.Prelude.{◌≤◌, length, take};
ghost use Rattle.std.specs.Io.KnownBytes.{Consumes};

use std::io::Read;

// Reads until the space is full, the input ends or a read fails: how many bytes came. How far a read goes is not known before it, and one
// that fails ends it as the input's end does, which no method of the library says without the heap: so it stays a `while`.
pub fn read_full<R: Read>(from: &mut R, space: &mut [u8]) -> usize
    ensures within { result ≤ length space.new }
    ensures bytes { Consumes (R.remaining from.old) (R.remaining from.new) (take result space.new) }
{
    let mut done = 0;
    while done < space.len() {
        let more = from.read(&mut space[done..]).unwrap_or(0);
        if more == 0 {
            break;
        }
        done += more;
    }
    done
}
