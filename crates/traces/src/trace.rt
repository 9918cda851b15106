// A sequence that is traced.
ghost use Rattle.std.specs.Prelude.{◌≡◌, ◌<◌};
ghost use Rattle.compact.specs.Compact.{persons};
ghost use Rattle.traces.specs.Traces.{alone};

use ways::RECORD;

// A sequence and where it stands, copied with each step: the longer sequence is another one.
#[derive(Clone, Copy)]
pub struct Trace {
    // its persons, from cell 1 on, as a record has them: memory is fixed, so how many they are stands beside them
    pub chain: [u32; RECORD],
    // persons in the sequence so far
    pub len: usize,
    // hops still to go to the middle person
    pub left: usize,
    // the person who stands last
    pub last: usize,
}

impl Trace {
    // The sequence of one person, with so many hops still to go.
    pub fn alone(person: usize, left: usize) -> Trace
        requires { person < persons }
        ensures { result ≡ alone person left }
    {
        let mut chain = [0; RECORD];
        chain[1] = person as u32;
        Trace {
            chain,
            len: 1,
            left,
            last: person,
        }
    }
}
