// The refusals of a question: 10, then 11 or, for rings, 21, then 12 to 15 and 20. No test is written twice: the question of a listing and
// the one of fewest hops, which names a person more, both begin with the ends and close with the rest.
ghost use Rattle.std.specs.Prelude.{◌≡◌};
ghost use Rattle.refusals.specs.Faults.{fault_said, sound};
ghost use Rattle.question.specs.Asked.{ends_fault, pair_fault, days_fit, terms_fault, rest_fault, question_fault, person_fault};

use crate::{Question, Wanted};
use format::links::LAST_DAY;
use format::numbers;
use refusals::{Reason, Refusal, unless};
use ways::HOPS;

// The most hops, as wide as a question's numbers.
const MOST: u32 = HOPS as u32;

// From and To are persons of the file, From looked at first.
fn ends_fault(persons: usize, question: Question) -> Result<(), Refusal>
    ensures { fault_said result ≡ ends_fault persons question sound }
{
    unless((question.from as usize) < persons, Reason::Person, 0)?;
    unless((question.to as usize) < persons, Reason::Person, 1)
}

// The days of the question make a window.
#[tactic(auto, unfolding(crate::specs::Asked::days_fit))]
fn days_fit(question: Question) -> bool
    ensures { result ≡ days_fit question }
{
    1 <= question.first && (question.first..=LAST_DAY).contains(&question.last)
}

// From and To are two persons for chains, and one for rings.
fn pair_fault(question: Question, wanted: Wanted) -> Result<(), Refusal>
    ensures { fault_said result ≡ pair_fault wanted question }
{
    let same = question.from == question.to;
    match wanted {
        Wanted::Chains => unless(!same, Reason::OnePerson, 0),
        Wanted::Rings => unless(same, Reason::TwoPersons, 0),
    }
}

// 12 to 15, then 20: what a question may ask, whatever the file.
#[tactic(auto, unfolding(crate::specs::Asked::terms_fault))]
fn terms_fault(question: Question) -> Result<(), Refusal>
    ensures { fault_said result ≡ terms_fault question }
{
    unless(numbers::within(1, MOST, question.hops), Reason::Hops, 0)?;
    unless(numbers::within(1, 15, question.classes), Reason::Classes, 0)?;
    unless(numbers::within(1, 2, question.meaning), Reason::Meaning, 0)?;
    unless(days_fit(question), Reason::Window, 0)?;
    unless(numbers::within(0, 1, question.undated), Reason::Undated, 0)
}

// 11 or 21, then the terms.
#[tactic(auto, unfolding(crate::specs::Asked::rest_fault))]
fn rest_fault(question: Question, wanted: Wanted) -> Result<(), Refusal>
    ensures { fault_said result ≡ rest_fault wanted question }
{
    pair_fault(question, wanted)?;
    terms_fault(question)
}

// The first fault of a question to a file of so many persons.
#[tactic(auto, using(crate::proofs::Refused::ends_first), unfolding(crate::specs::Asked::question_fault))]
pub fn question_fault(persons: usize, question: Question, wanted: Wanted) -> Result<(), Refusal>
    ensures { fault_said result ≡ question_fault wanted persons question }
{
    ends_fault(persons, question)?;
    rest_fault(question, wanted)
}

// The same where the question names one person more, who is looked at after From and To: one function with a person or none would ask each time
// which.
#[tactic(auto, using(crate::proofs::Refused::ends_first), unfolding(crate::specs::Asked::person_fault))]
pub fn person_fault(persons: usize, question: Question, person: u32) -> Result<(), Refusal>
    ensures { fault_said result ≡ person_fault persons question person }
{
    ends_fault(persons, question)?;
    unless((person as usize) < persons, Reason::Person, 2)?;
    rest_fault(question, Wanted::Chains)
}
