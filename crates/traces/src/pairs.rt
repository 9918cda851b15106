// A left half has come to its middle person: it is paired with each right half that starts there.
ghost use Rattle.std.specs.Prelude.{◌≡◌, ◌<◌, EachIndex, slice_index};
ghost use Rattle.compact.specs.Compact.{persons};
ghost use Rattle.traces.specs.Traces.{clear, Ready, Arrived};

use crate::trace::Trace;
use crate::tracing::Tracing;
use compact::{PERSONS, STARTS};
use pages::HandedOver;
use ways::RECORD;

// Whether nobody of these persons is marked.
fn apart(people: &[u32], marks: &[bool; PERSONS]) -> bool
    requires { EachIndex people.now (λ i. slice_index people.now i < persons) }
    ensures { result ≡ clear marks.now people.now }
{
    people.iter().all(|v| !marks[*v as usize])
}

// Joins the left half with each right half that starts at its last person and shares nobody else with it: the index says where they
// stand. Where no hop is left for a right half, the sequence is whole by itself, or not at all.
pub fn arrive(
    tracing: &Tracing<'_>,
    marks: &[bool; PERSONS],
    out: &mut [u32],
    trace: Trace,
    before: HandedOver,
) -> HandedOver
    requires { Ready tracing.now marks.now out.old trace before }
    ensures { Arrived tracing.now marks.now out.old out.new trace before result }
{
    if tracing.rest == 0 {
        return crate::records::end(tracing, out, trace, before);
    }
    let halves = tracing.halves;
    let index = tracing.index;
    let place = (tracing.rest - 1) * STARTS + trace.last;
    let mut got = before;
    for half in index[place]..index[place + 1] {
        let from = half * RECORD + 2;
        let behind = &halves[from..from + tracing.rest];
        if apart(behind, marks) {
            got = crate::records::hand_over(tracing, out, trace, behind, got);
            if got.more {
                break;
            }
        }
    }
    got
}
