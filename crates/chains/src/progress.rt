// How far the printing is: what is left, and what it takes to go on.
ghost use Rattle.chains.specs.Pieces.{Begins};

use refusals::Refusal;
use text::counts::Counted;
use ways::RECORD;

// What is still to be printed.
#[derive(Clone, Copy)]
pub enum Left {
    // The next portion, and what follows it.
    Portion,
    // The lines of the records from `next` on, so many records in all, then the last line, or more portions.
    Lines {
        next: usize,
        count: usize,
        ended: bool,
    },
    // A refusal's line.
    Refusal(Refusal),
    Nothing,
}

// What is left, the record behind which the next portion starts, if there is one yet, and the chains counted so far.
#[derive(Clone, Copy)]
pub struct Progress {
    pub left: Left,
    pub bookmark: Option<[u32; RECORD]>,
    pub counted: Counted,
}

// Everything is still to be printed.
pub fn begin() -> Progress
    ensures { Begins result }
{
    Progress {
        left: Left::Portion,
        bookmark: None,
        counted: Counted::nothing(),
    }
}
