// What is printed, piece by piece.
//
// `next_piece` puts the next bytes at the beginning of lent bytes and answers how far it came. What was still to be printed before is
// these bytes and what is still to be printed after them; at the start that is all that the program prints (specs/Pieces). So the pieces
// laid end to end are `printed input`: the law `laid_pieces` of proofs/Putting.
ghost use Rattle.std.specs.Prelude.{◌≡◌, ◌≤◌, length};
ghost use Rattle.text.specs.Printed.{longest_line};
ghost use Rattle.chains.specs.Pieces.{Standing, NextPiece};
ghost use Rattle.chains.specs.Inside.{Printable, PutPiece, piece_of, left_behind};

use crate::ahead::look_ahead;
use crate::progress::{Left, Progress};

// So many bytes were put, none where nothing is left, and how far the printing is behind them.
#[derive(Clone, Copy)]
pub struct Piece {
    pub bytes: usize,
    pub progress: Progress,
}

// A piece of so many bytes, and what it leaves.
fn piece_of(progress: Progress, bytes: usize, left: Left) -> Piece
    ensures { result ≡ piece_of progress bytes left }
{
    let bookmark = progress.bookmark;
    let counted = progress.counted;
    Piece {
        bytes,
        progress: Progress {
            left,
            bookmark,
            counted,
        },
    }
}

// What is left behind the lines up to the record `next`.
fn behind_lines(next: usize, count: usize, ended: bool) -> Left
    ensures { result ≡ left_behind next count ended }
{
    if next < count || ended {
        return Left::Lines { next, count, ended };
    }
    Left::Portion
}

// Puts the first lines of what is left, as many as there is room for.
fn put_piece(progress: Progress, cells: &[u32], out: &mut [u8]) -> Piece
    requires { (Printable cells.now progress) × (longest_line ≤ length out.old) }
    ensures { PutPiece cells.now progress out.new result }
{
    let left = progress.left;
    match left {
        Left::Lines { next, count, ended } => {
            if next < count {
                let reached = text::lines(cells, next, count, out);
                let after = behind_lines(reached.next, count, ended);
                return piece_of(progress, reached.bytes, after);
            }
            let counted = progress.counted;
            let bytes = text::end_line(&counted, out);
            piece_of(progress, bytes, Left::Nothing)
        }
        Left::Refusal(refusal) => {
            let bytes = text::refusal_line(refusal.reason.number(), refusal.place, out);
            piece_of(progress, bytes, Left::Nothing)
        }
        // Nothing is left. Never a portion: `look_ahead` has asked for it.
        _ => piece_of(progress, 0, left),
    }
}

// The next piece.
pub fn next_piece(input: &[u8], progress: Progress, cells: &mut [u32], out: &mut [u8]) -> Piece
    requires { (Standing input.now cells.old progress) × (longest_line ≤ length out.old) }
    ensures { NextPiece input.now cells.old progress cells.new out.new result }
{
    let seen = look_ahead(input, progress, cells);
    put_piece(seen, cells, out)
}
