// The exports for C: each of the functions of `outside` under its own name, with its own promise.
//
// A crate is a library or a static library. `outside` is the library, on which the room `demands` stands; this is the static library over
// it, which is handed on under the name liboutside.a, as include/kin.h has it. Nothing is done here but the call:
// C asks for each function by a name of its own, so each stands here once more.
#![tactic(auto)]

ghost use Rattle.listing.specs.Portions.{start_said};
ghost use Rattle.outside.specs.Encoded.{CheckNumber, RowNumber, FewestNumber, PortionNumber, RingsNumber, JoinNumber, asking};
ghost use Rattle.outside.specs.HeldCells.{HeldNumber};

#[unsafe(no_mangle)]
pub extern "C" fn kin_check(file: &[u8]) -> u64
    ensures { CheckNumber file.now result }
{
    outside::kin_check(file)
}

#[unsafe(no_mangle)]
pub extern "C" fn kin_row(file: &[u8], person: u32) -> u64
    ensures { RowNumber file.now person result }
{
    outside::kin_row(file, person)
}

#[unsafe(no_mangle)]
pub extern "C" fn kin_fewest(
    file: &[u8],
    from: u32,
    to: u32,
    hops: u32,
    classes: u32,
    meaning: u32,
    first: u32,
    last: u32,
    undated: u32,
    person: u32,
) -> u64
    ensures { FewestNumber file.now (asking from to hops classes meaning first last undated) person result }
{
    outside::kin_fewest(
        file, from, to, hops, classes, meaning, first, last, undated, person,
    )
}

#[unsafe(no_mangle)]
pub extern "C" fn kin_portion(
    file: &[u8],
    from: u32,
    to: u32,
    hops: u32,
    classes: u32,
    meaning: u32,
    first: u32,
    last: u32,
    undated: u32,
    started: u32,
    bookmark: &[u32],
    out: &mut [u32],
) -> u64
    ensures { PortionNumber file.now (asking from to hops classes meaning first last undated) (start_said started bookmark.now) out.old out.new result }
{
    outside::kin_portion(
        file, from, to, hops, classes, meaning, first, last, undated, started, bookmark, out,
    )
}

#[unsafe(no_mangle)]
pub extern "C" fn kin_rings(
    file: &[u8],
    from: u32,
    to: u32,
    hops: u32,
    classes: u32,
    meaning: u32,
    first: u32,
    last: u32,
    undated: u32,
    started: u32,
    bookmark: &[u32],
    out: &mut [u32],
) -> u64
    ensures { RingsNumber file.now (asking from to hops classes meaning first last undated) (start_said started bookmark.now) out.old out.new result }
{
    outside::kin_rings(
        file, from, to, hops, classes, meaning, first, last, undated, started, bookmark, out,
    )
}

#[unsafe(no_mangle)]
pub extern "C" fn kin_join(
    file: &[u8],
    from: u32,
    to: u32,
    hops: u32,
    classes: u32,
    meaning: u32,
    first: u32,
    last: u32,
    undated: u32,
    working: &mut [u32],
    out: &mut [u32],
) -> u64
    ensures { JoinNumber file.now (asking from to hops classes meaning first last undated) working.old working.new out.old out.new result }
{
    outside::kin_join(
        file, from, to, hops, classes, meaning, first, last, undated, working, out,
    )
}

#[unsafe(no_mangle)]
pub extern "C" fn kin_held(cells: &mut [u32], file: &[u8], out: &mut [u32]) -> u64
    ensures { HeldNumber file.now cells.old cells.new out.old out.new result }
{
    outside::kin_held(cells, file, out)
}
