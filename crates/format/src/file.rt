// A link file whose header is in order.
ghost use Rattle.format.specs.Laid.{Laid};

use crate::layout::Counts;

// Bytes that passed 1, 2 and 3, and the counts that their header states. The tables are read through it, each in its own module.
#[derive(Clone, Copy)]
pub struct LinkFile<'a> {
    pub bytes: &'a [u8],
    pub counts: Counts,
    pub ghost laid: { Laid bytes.now counts },
}
