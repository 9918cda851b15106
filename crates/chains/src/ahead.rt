// Looking ahead: where a portion comes next it is asked for, so that lines come next.
ghost use Rattle.std.specs.Prelude.{◌≡◌};
ghost use Rattle.chains.specs.Pieces.{Standing};
ghost use Rattle.chains.specs.Inside.{LookedAhead, left_by};

use crate::hearing::{QUESTION, heard};
use crate::onward::go_on;
use crate::progress::{Left, Progress};
use refusals::{Answer, Listed};

impl From<Answer> for Left {
    // What a portion's answer leaves to print: its lines, or its refusal's.
    fn from(answer: Answer) -> Left
        ensures { result ≡ left_by answer }
    {
        match answer {
            Ok(Listed { count, ended }) => Left::Lines {
                next: 0,
                count,
                ended,
            },
            Err(refusal) => Left::Refusal(refusal),
        }
    }
}

// Where a portion comes next, asks for it: then its lines, or a refusal's, come next.
pub fn look_ahead(input: &[u8], progress: Progress, cells: &mut [u32]) -> Progress
    requires { Standing input.now cells.old progress }
    ensures { LookedAhead input.now cells.old progress cells.new result }
{
    let Left::Portion = progress.left else {
        return progress;
    };
    let mut bookmark = progress.bookmark;
    let mut counted = progress.counted;
    let left = match heard(input) {
        Err(refusal) => Left::Refusal(refusal),
        Ok(question) => {
            let file = &input[QUESTION..];
            let answer = go_on(file, question, &mut bookmark, &mut counted, cells);
            Left::from(answer)
        }
    };
    Progress {
        left,
        bookmark,
        counted,
    }
}
