#![tactic(auto)]

// The listing: portions of any list of chains that rises strictly and whose chains fit a record.
//
// What a start is and when it is refused, what a portion answers and writes, that it allows one result only, that calls laid end to end
// are the list, that one resumes behind any bookmark, and that a held listing comes to its end: all of it is said here of any such list
// and any first fault. Nothing in this room knows a file, a question or a link, so nothing else can show in a portion.
// `portion` lists the chains from From to To, and is the first instance; `rings` lists the rings of a person, and is the second. The one
// function here tells where a portion starts, of a mark and the cells that lie beside it.

ghost use Rattle.std.specs.Prelude.{◌≡◌};
ghost use Rattle.listing.specs.Portions.{start_given, start_said};

// Where a portion starts: afresh if it was not started (0), whatever the cells say, else behind the bookmark in the cells.
pub fn start(started: u32, bookmark: &[u32]) -> Option<&[u32]>
    ensures { start_given result ≡ start_said started bookmark.now }
{
    match started {
        0 => None,
        _ => Some(bookmark),
    }
}
