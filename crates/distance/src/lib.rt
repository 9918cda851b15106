// Fewest hops: how near a person is to the end person of a question.
//
// `fewest` answers it for any bytes, any question and any person: the hops, or the refusal. The table behind it holds one cell for each
// of 1,024 persons; the search starts from it too, since whoever is farther from To than hops are left is in no chain. The table is found
// on the compact graph alone, which `question` fills.
#![tactic(auto)]

pub mod table;

ghost use Rattle.std.specs.Prelude.{◌≡◌};
ghost use Rattle.refusals.specs.Faults.{sound};
ghost use Rattle.ways.specs.Fewest.{fewest};
ghost use Rattle.question.specs.Asked.{asked_of_fault};
ghost use Rattle.question.specs.Admission.{next};
ghost use Rattle.distance.specs.Answers.{FewestHops};

use compact::{Graph, LINKS, STARTS};
use question::{Question, filling};
use refusals::Refusal;

// The fewest hops from a person to To over admitted links: one more than the question's where To is not in reach.
#[tactic(auto, unfolding(crate::specs::Answers::answered))]
pub fn fewest(file: &[u8], question: Question, person: u32) -> Result<u32, Refusal>
    ensures { FewestHops file.now question person result }
{
    question::asked_of(file, question, person)?;
    Ok(counted(file, question, person))
}

// The same where the file, the question and the person have passed.
fn counted(file: &[u8], question: Question, person: u32) -> u32
    requires { asked_of_fault file.now question person ≡ sound }
    ensures { result ≡ fewest (next file.now question) question.to question.hops person }
{
    let mut starts = [0u16; STARTS];
    let mut targets = [0u16; LINKS];
    filling::fill(file, question, &mut starts, &mut targets);
    let graph = Graph {
        starts: &starts,
        targets: &targets,
    };
    let cells = table::distances(graph, question.to as usize, question.hops as u8);
    u32::from(cells[person as usize])
}
