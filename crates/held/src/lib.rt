// The held listing: a desk's question, whether its listing was started, and the last record that was handed over.
//
// One call moves it on by a portion. `advance` changes the desk's own held listing in its place: it calls the portion on its question, from
// behind its record if it was started, and stores the last record, nothing else. Which that is, `last_record` says on values. `advanced` is
// the face for every other caller, from values to values through `advance`, with the same promise. A call that hands over no chain, and a
// refusal, change nothing. Calls one after another hand over the listing end to end: proofs/Onward.
#![tactic(auto)]

ghost use Rattle.std.specs.Prelude.{◌≡◌};
ghost use Rattle.refusals.specs.Answers.{answer_said};
ghost use Rattle.listing.specs.EndToEnd.{count_of};
ghost use Rattle.held.specs.Holding.{MovedOn};
ghost use Rattle.held.specs.Keeping.{RecordsStand, record_behind};

use question::Question;
use refusals::Answer;
use ways::RECORD;

// Any number in `started` but 0 says that the listing was started; until then the record is not looked at. These are the cells that a
// desk has in C, a mark of any number and a record that stands there even while it is not looked at, and a call that hands over
// nothing leaves both as they are: so they are no `Option`.
#[derive(Clone, Copy)]
pub struct Held {
    pub question: Question,
    pub started: u32,
    pub record: [u32; RECORD],
}

// A held listing after a call, and what the call answers.
#[derive(Clone, Copy)]
pub struct Outcome {
    pub held: Held,
    pub answer: Answer,
}

// The last of the records that the answer counts; none if it counts none or is a refusal.
fn last_record(answer: Answer, out: &[u32]) -> Option<[u32; RECORD]>
    requires { RecordsStand (count_of (answer_said answer)) out.now }
    ensures { result ≡ record_behind (count_of (answer_said answer)) out.now }
{
    let Ok(listed) = answer else {
        return None;
    };
    if listed.count > 0 {
        return Some(pages::record_at(out, (listed.count - 1) * RECORD));
    }
    None
}

// The held listing in its own place, one portion on.
pub fn advance(held: &mut Held, file: &[u8], out: &mut [u32]) -> Answer
    ensures { MovedOn file.now held.old held.new out.old out.new result }
{
    let start = listing::start(held.started, &held.record);
    let answer = portion::portion(file, held.question, start, out);
    if let Some(record) = last_record(answer, out) {
        held.started = 1;
        held.record = record;
    }
    answer
}

// The same from a value to a value: what it promises speaks of no struct in memory.
pub fn advanced(held: Held, file: &[u8], out: &mut [u32]) -> Outcome
    ensures { MovedOn file.now held result.held out.old out.new result.answer }
{
    let mut h = held;
    let answer = advance(&mut h, file, out);
    Outcome { held: h, answer }
}
