// Cells of lent memory, copied from one place to another.
//
// Whoever copies cells calls `copy`, of persons or of bytes: what it promises is one list pasted into another (`lib.Seq.paste`). A caller
// says in its own words what it copied: a record, a half chain, a bookmark, some text. Whoever asks whether a person is among cells asks
// the slice (`contains`); proofs/Seeking says what that means in the words of the graph.
#![tactic(auto)]

ghost use Rattle.std.specs.Prelude.{◌≡◌, ◌+◌, ◌≤◌, length, drop};
ghost use lib.Seq.{paste};

// Copies `count` cells, those of `from` from its cell `first` on, to `out`, from cell `at` on. Two places and a count, since that is what the
// promise of pasting says.
pub fn copy<T: Copy>(out: &mut [T], at: usize, from: &[T], first: usize, count: usize)
    requires { (at + count ≤ length out.old) × (first + count ≤ length from.now) }
    ensures { out.new ≡ paste out.old at (drop first from.now) count }
{
    out[at..at + count].copy_from_slice(&from[first..first + count]);
}
