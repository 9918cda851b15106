// Going on by a portion: its chains in the cells, the count, and the bookmark for the next one.
ghost use Rattle.std.specs.Prelude.{◌≡◌, ◌*◌, ◌≤◌, length};
ghost use Rattle.ways.specs.Sizes.{record_size};
ghost use Rattle.listing.specs.Portions.{start_given};
ghost use Rattle.refusals.specs.Answers.{answer_said};
ghost use Rattle.listing.specs.EndToEnd.{last_record};
ghost use Rattle.text.specs.Decimal.{worth};
ghost use Rattle.chains.specs.Onward.{OnTheWay, WentOn, next_start};

use question::Question;
use refusals::{Answer, Listed};
use text::counts::Counted;
use ways::RECORD;

// Where the next portion starts: behind the bookmark, or afresh where there is none.
fn start(bookmark: &Option<[u32; RECORD]>) -> Option<&[u32]>
    ensures { start_given result ≡ next_start bookmark.now }
{
    bookmark.as_ref().map(|record| &record[..])
}

// The last of so many records.
fn last_record(cells: &[u32], count: usize) -> [u32; RECORD]
    requires { (1 ≤ count) × (count * record_size ≤ length cells.now) }
    ensures { result ≡ last_record count cells.now }
{
    pages::record_at(cells, (count - 1) * RECORD)
}

// The next portion: its chains are counted, and where more follow, the bookmark is the last of them.
pub fn go_on(
    file: &[u8],
    question: Question,
    bookmark: &mut Option<[u32; RECORD]>,
    counted: &mut Counted,
    cells: &mut [u32],
) -> Answer
    requires { OnTheWay file.now question (next_start bookmark.old) counted.old cells.old }
    ensures { WentOn file.now question (next_start bookmark.old) (worth counted.old.digits) (next_start bookmark.new) counted.new cells.new (answer_said result) }
{
    let answer = portion::portion(file, question, start(bookmark), cells);
    let Ok(Listed { count, ended }) = answer else {
        return answer;
    };
    counted.count_on(count);
    if !ended {
        *bookmark = Some(last_record(cells, count));
    }
    answer
}
