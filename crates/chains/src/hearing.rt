// What stands on standard input: the question, or too little for one.
ghost use Rattle.std.specs.Prelude.{◌≡◌};
ghost use Rattle.chains.specs.Program.{heard_in, input_said};

use format::numbers::number32;
use question::Question;
use refusals::{Reason, Refusal, unless};

// The bytes of a question.
pub const QUESTION: usize = 32;

pub fn heard(input: &[u8]) -> Result<Question, Refusal>
    ensures { input_said result ≡ heard_in input.now }
{
    unless(QUESTION <= input.len(), Reason::Input, 0)?;
    Ok(Question {
        from: number32(input, 0),
        to: number32(input, 4),
        hops: number32(input, 8),
        classes: number32(input, 12),
        meaning: number32(input, 16),
        first: number32(input, 20),
        last: number32(input, 24),
        undated: number32(input, 28),
    })
}
