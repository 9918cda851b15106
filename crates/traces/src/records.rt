// Handing over a chain: it is counted, its record is written, or it is the one more for which there is no room.
ghost use Rattle.std.specs.Prelude.{◌≡◌, ◌+◌, ◌≤◌, [], length};
ghost use Rattle.std.proofs.Math.Seq.{paste};
ghost use Rattle.traces.specs.HandingOver.{Room, Handed, Ended};

use crate::trace::Trace;
use crate::tracing::{Purpose, Tracing};
use pages::HandedOver;
use ways::RECORD;

// Writes the persons of a right half to `out`, from cell `at` on. They are few: one by one they are written sooner than by the
// library's `copy_from_slice`, a call for each record, with which a dense join took a tenth longer.
fn put_behind(out: &mut [u32], at: usize, behind: &[u32])
    requires { at + length behind.now ≤ length out.old }
    ensures { out.new ≡ paste out.old at behind.now (length behind.now) }
{
    for (i, person) in behind.iter().enumerate() {
        out[at + i] = *person;
    }
}

// Hands over the chain so far with these persons of a right half behind it.
pub fn hand_over(
    tracing: &Tracing<'_>,
    out: &mut [u32],
    trace: Trace,
    behind: &[u32],
    before: HandedOver,
) -> HandedOver
    requires { Room tracing.now out.old trace behind.now before }
    ensures { Handed tracing.now out.old out.new trace behind.now before result }
{
    let count = before.count;
    if count >= tracing.room {
        return HandedOver { count, more: true };
    }
    if let Purpose::Write = tracing.purpose {
        let at = count * RECORD;
        let rest = behind.len();
        pages::put(out, at, &trace.chain);
        put_behind(out, at + (trace.len + 1), behind);
        out[at] = (trace.len + rest - 1) as u32;
    }
    HandedOver {
        count: count + 1,
        more: false,
    }
}

// Hands over a sequence that no right half stands behind, if it ends at To.
pub fn end(tracing: &Tracing<'_>, out: &mut [u32], trace: Trace, before: HandedOver) -> HandedOver
    requires { Room tracing.now out.old trace [] before }
    ensures { Ended tracing.now out.old out.new trace before result }
{
    if trace.last != tracing.to {
        return before;
    }
    hand_over(tracing, out, trace, &[], before)
}
