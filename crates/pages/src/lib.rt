// The page: records one behind the other in lent cells, while there is room.
//
// Whoever finds chains hands them over in the same way: each is counted and its record written, and the first for which there
// is no room is noted. specs/ says it once for all (`emit`, `emits`), proofs/ has the laws: what is handed over in parts is handed
// over at once, and records of chains handed over are the first chains, written from cell 0. In code a record is put into cells here,
// and read from them.
#![tactic(auto)]

ghost use Rattle.std.specs.Prelude.{◌≡◌, ◌+◌, ◌≤◌, length, take, drop};
ghost use Rattle.std.proofs.Math.Seq.{paste};
ghost use Rattle.ways.specs.Sizes.{record_size};

use ways::RECORD;

// What was handed over: so many chains, and whether there is one more than there is room for.
#[derive(Clone, Copy)]
pub struct HandedOver {
    pub count: usize,
    pub more: bool,
}

// Copies the cells of the chain to `out`, from cell `at` on.
pub fn put(out: &mut [u32], at: usize, chain: &[u32; RECORD])
    requires { at + record_size ≤ length out.old }
    ensures { out.new ≡ paste out.old at chain.now record_size }
{
    cells::copy(out, at, chain, 0, RECORD);
}

// The record that stands in the cells from `at` on.
pub fn record_at(cells: &[u32], at: usize) -> [u32; RECORD]
    requires { at + record_size ≤ length cells.now }
    ensures { result ≡ take record_size (drop at cells.now) }
{
    let mut record = [0; RECORD];
    cells::copy(&mut record, 0, cells, at, RECORD);
    record
}
