// The question: what is asked of a file.
//
// Eight numbers, whoever sends them. This room stands in front of every operation that answers a question: it refuses a bad file, a bad
// question, a person who is not in the file and an output without room for a record, each with its number and place; it says which links
// a question admits, and turns bytes into the compact graph that every later room sees: once a file and a question have passed, listing
// and searching read `next` and no byte.
#![tactic(auto)]

mod admission;
mod faults;
pub mod filling;

ghost use Rattle.std.specs.Prelude.{◌≡◌};
ghost use Rattle.refusals.specs.Faults.{fault_said};
ghost use Rattle.question.specs.Asked.{asked_for, asked_of_fault, asked_for_room};

use refusals::{Reason, Refusal, unless};
use ways::RECORD;

// From, to, hops, classes, date meaning, first day, last day, and whether undated links count: 1 they do, 0 they are left out.
// They are numbers, as whoever calls from C sends them: 12 to 15 and 20 refuse any number that is none of a question.
#[derive(Clone, Copy)]
pub struct Question {
    pub from: u32,
    pub to: u32,
    pub hops: u32,
    pub classes: u32,
    pub meaning: u32,
    pub first: u32,
    pub last: u32,
    pub undated: u32,
}

// What a question is asked for: the chains from one person to another, or the rings back to the same person. It decides one test, so it is a
// value and no step to run.
#[derive(Clone, Copy)]
pub enum Wanted {
    Chains,
    Rings,
}

// The first refusal of any bytes and any question: the file's own, 1 to 9, then the question's, 10 to 15 and 20, for rings 21 in 11's place.
#[tactic(auto, using(checking::proofs::Passed::passed_verdict, checking::proofs::Passed::refused_verdict))]
fn asked(file: &[u8], question: Question, wanted: Wanted) -> Result<(), Refusal>
    ensures { fault_said result ≡ asked_for wanted file.now question }
{
    let counts = checking::check(file)?;
    faults::question_fault(counts.persons, question, wanted)
}

// The same where the question names one person more, as fewest hops does. What follows the check is all that differs.
#[tactic(auto, using(checking::proofs::Passed::passed_verdict, checking::proofs::Passed::refused_verdict))]
pub fn asked_of(file: &[u8], question: Question, person: u32) -> Result<(), Refusal>
    ensures { fault_said result ≡ asked_of_fault file.now question person }
{
    let counts = checking::check(file)?;
    faults::person_fault(counts.persons, question, person)
}

// The same as `asked`, and then 16: so many output cells have to hold a record.
pub fn asked_room(
    file: &[u8],
    question: Question,
    wanted: Wanted,
    cells: usize,
) -> Result<(), Refusal>
    ensures { fault_said result ≡ asked_for_room wanted file.now question cells }
{
    asked(file, question, wanted)?;
    unless(RECORD <= cells, Reason::Output, 0)
}
