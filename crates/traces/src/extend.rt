// The recursion: a simple sequence is extended by exactly so many hops towards To, and then meets its right halves.
// A half chain is such a sequence too: no hop is left for a right half, and it has to end at To itself.
ghost use Rattle.traces.specs.Traces.{Ready, Extended};

use crate::trace::Trace;
use crate::tracing::Tracing;
use compact::PERSONS;
use pages::HandedOver;

// Extends the chain so far by each next person who does not stand in it yet. Marks and output are lent beside what stays the same: only they
// are written.
pub fn extend(
    tracing: &Tracing<'_>,
    marks: &mut [bool; PERSONS],
    out: &mut [u32],
    trace: Trace,
    before: HandedOver,
) -> HandedOver
    requires { Ready tracing.now marks.old out.old trace before }
    ensures { Extended tracing.now marks.old marks.new out.old out.new trace before result }
{
    if trace.left == 0 {
        return crate::pairs::arrive(tracing, marks, out, trace, before);
    }
    let len = trace.len + 1;
    let mut got = before;
    for &next in tracing.graph.next(trace.last) {
        let v = next as usize;
        if !marks[v] {
            let mut longer = trace;
            longer.chain[len] = v as u32;
            longer.len = len;
            longer.left = trace.left - 1;
            longer.last = v;
            marks[v] = true;
            got = extend(tracing, marks, out, longer, got);
            marks[v] = false;
            if got.more {
                break;
            }
        }
    }
    got
}
