// Refusals: why something is refused, and where; and what an operation that lists answers.
//
// Every refusal of the house has a number and a place. A look at one place answers `Ok` or the refusal, and looks are laid one behind the
// other by `?`, so that the first that finds a fault decides. specs/ says so, and what a listing answers where there is no fault; proofs/
// has the laws of both, for every room above.
#![tactic(auto)]

ghost use Rattle.std.specs.Prelude.{◌≡◌, ◌≤◌, true, OnOk};
ghost use Rattle.refusals.specs.Reasons.{number_of, highest};
ghost use Rattle.refusals.specs.Faults.{sound, unless, fault_said};

use std::fmt;

// Why something is refused: the customer's numbers, in order.
#[derive(Clone, Copy, Debug, PartialEq, Eq)]
pub enum Reason {
    // The file's own.
    Mark = 1,
    Counts,
    Offsets,
    Feed,
    FeedMeaning,
    Entry,
    Link,
    Kind,
    Day,
    // The question's.
    Person,
    OnePerson,
    Hops,
    Classes,
    Meaning,
    Window,
    // What is lent.
    Output,
    Bookmark,
    Working,
    Input,
    // The question's again, of later requests.
    Undated,
    TwoPersons,
}

impl Reason {
    // The number that the customer's document gives it.
    pub fn number(self) -> u32
        ensures { (result ≡ number_of self) × (result ≤ highest) }
    {
        self as u32
    }
}

// A refusal: why, and at which place.
#[derive(Clone, Copy, Debug, PartialEq, Eq)]
pub struct Refusal {
    pub reason: Reason,
    pub place: u32,
}

// Nothing where a rule holds, and else the refusal for this reason at this place. Rules are laid one behind the other by `?`.
pub fn unless(holds: bool, reason: Reason, place: u32) -> Result<(), Refusal>
    ensures said { fault_said result ≡ unless holds (number_of reason) place sound }
    ensures passes { OnOk result (holds ≡ true) }
{
    if holds {
        return Ok(());
    }
    Err(Refusal { reason, place })
}

impl fmt::Display for Refusal {
    fn fmt<W: fmt::Write>(&self, f: &mut fmt::Formatter<W>) -> fmt::Result {
        write!(f, "refused {} at {}", self.reason.number(), self.place)
    }
}

// What a portion of a listing lists: so many chains, and whether the listing has ended.
#[derive(Clone, Copy, Debug, PartialEq, Eq)]
pub struct Listed {
    pub count: usize,
    pub ended: bool,
}

// What an operation that lists answers.
pub type Answer = Result<Listed, Refusal>;
