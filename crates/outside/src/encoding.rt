// How a question comes as numbers, and how an answer is put into one number of 64 bits.
ghost use Rattle.std.specs.Prelude.{◌≡◌};
ghost use Rattle.refusals.specs.Answers.{answer_said};
ghost use Rattle.refusals.specs.Reasons.{number_of};
ghost use Rattle.outside.specs.Encoded.{asking, Small, refusal_number, listed_number};

use question::Question;
use refusals::{Answer, Refusal};

// What every refusal is counted from, and the answer to held cells of a wrong size.
pub const REFUSED: u64 = 0x8000_0000_0000_0000;

// The eight numbers of a question, in the customer's order.
pub fn asking(
    from: u32,
    to: u32,
    hops: u32,
    classes: u32,
    meaning: u32,
    first: u32,
    last: u32,
    undated: u32,
) -> Question
    ensures { result ≡ asking from to hops classes meaning first last undated }
{
    Question {
        from,
        to,
        hops,
        classes,
        meaning,
        first,
        last,
        undated,
    }
}

// A refusal: 2^63 + number * 2^32 + place.
pub fn refusal_number(refusal: Refusal) -> u64
    ensures { result ≡ refusal_number (number_of refusal.reason) refusal.place }
{
    REFUSED + u64::from(refusal.reason.number()) * 0x1_0000_0000 + u64::from(refusal.place)
}

// A listing: count + ended * 2^62, or the refusal.
pub fn listed_number(answer: Answer) -> u64
    requires { Small (answer_said answer) }
    ensures { result ≡ listed_number (answer_said answer) }
{
    match answer {
        Ok(listed) => listed.count as u64 + u64::from(listed.ended) * 0x4000_0000_0000_0000,
        Err(refusal) => refusal_number(refusal),
    }
}
