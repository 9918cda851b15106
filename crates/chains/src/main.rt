// Lists every chain that a question finds in a file: both come on standard input, the lines go to standard output.
//
// Nothing is decided here: `pieces` makes what is printed, a piece at a time, and its promise names every byte of it (specs/Pieces). What
// is left is to read, and to write each piece before the next one is made: no contract can say that. It streams, in fixed memory: a
// portion is printed before the next one is asked for. A write that fails, as to a closed pipe, ends it.
#![tactic(auto)]

mod ahead;
mod hearing;
mod onward;
mod pieces;
mod progress;

ghost use Rattle.std.specs.Prelude.{◌≡◌, ◌*◌, ◌≤◌, length};
ghost use Rattle.ways.specs.Sizes.{record_size};
ghost use Rattle.text.specs.Printed.{longest_line};
ghost use Rattle.chains.specs.Program.{longest_input, portion_size};

use crate::hearing::QUESTION;
use reading::read_full;
use ways::RECORD;

// The most bytes of a file.
const LONGEST_FILE: usize = 53_348;
// One byte more tells that a file is too long.
const LONGEST_INPUT: usize = QUESTION + LONGEST_FILE + 1;
// The chains of a portion, and their cells.
const PORTION: usize = 4_096;

const CELLS: usize = PORTION * RECORD;

// The most bytes of a piece.
const PIECE: usize = 65_536;

// Zeros for the input, and for the records of a portion: as many as specs/Program says, which no clause of `main` can.
fn input_space() -> [u8; LONGEST_INPUT]
    ensures { longest_input ≡ length result }
{
    [0; LONGEST_INPUT]
}

fn record_space() -> [u32; CELLS]
    ensures { portion_size * record_size ≡ length result }
{
    [0; CELLS]
}

// Piece by piece, until one is empty: then nothing is left. No `for` goes over the pieces: each is made where the last one lay, once that is
// written.
fn print(rt: &impl Print, input: &[u8], cells: &mut [u32], out: &mut [u8])
    requires { (record_size ≤ length cells.old) × (longest_line ≤ length out.old) }
{
    let mut progress = progress::begin();
    loop {
        let piece = pieces::next_piece(input, progress, cells, out);
        let bytes = piece.bytes;
        if bytes == 0 {
            return;
        }
        if rt.write_all(&out[..bytes]).is_err() {
            return;
        }
        progress = piece.progress;
    }
}

fn main(rt: HostRuntime) {
    let mut input = input_space();
    let length = read_full(&mut rt.stdin(), &mut input);
    let mut cells = record_space();
    let mut out = [0; PIECE];
    print(&rt, &input[..length], &mut cells, &mut out);
}
