// Prints the verdict on the link file that comes on standard input and, where it passed, the bytes of each person's row view,
// one line a person. What the bytes are is decided in `checking`.
#![tactic(auto)]

use reading::read_full;

// The most bytes that are read.
const SPACE: usize = 65_536;

// Words as they stand. Here and below each piece is a write of its own, and one that fails is passed over: what follows it is written all the
// same, wherever there is room for that.
fn print(rt: &impl Print, words: &[u8]) {
    let _ = rt.write_all(words);
}

fn print_number(rt: &impl Print, number: usize) {
    let _ = print!(rt; "{number}");
}

// A person, then the bytes of the view in two hexadecimal digits each.
fn print_view(rt: &impl Print, person: u32, view: &[u8]) {
    print_number(rt, person as usize);
    print(rt, b":");
    for byte in view {
        print(rt, b" ");
        let _ = print!(rt; "{byte:02x}");
    }
    print(rt, b"\n");
}

fn print_views(rt: &impl Print, file: &[u8], persons: u32) {
    for person in 0..persons {
        print_view(rt, person, checking::row(file, person));
    }
}

fn print_verdict(rt: &impl Print, file: &[u8]) {
    match checking::check(file) {
        Ok(counts) => {
            print(rt, b"passed: ");
            print_number(rt, counts.persons);
            print(rt, b" persons, ");
            print_number(rt, counts.links);
            print(rt, b" links, ");
            print_number(rt, counts.feeds);
            print(rt, b" feeds\n");
            print_views(rt, file, counts.persons as u32);
        }
        Err(refusal) => {
            print(rt, b"refused ");
            print_number(rt, refusal.reason.number() as usize);
            print(rt, b" at ");
            print_number(rt, refusal.place as usize);
            print(rt, b"\n");
        }
    }
}

fn main(rt: HostRuntime) {
    let mut space = [0; SPACE];
    let length = read_full(&mut rt.stdin(), &mut space);
    print_verdict(&rt, &space[..length]);
}
