// Kinds and their class.
ghost use Rattle.std.specs.Prelude.{◌≡◌};
ghost use Rattle.format.specs.Kinds.{class_said, class_of, known};

// The classes, each with its number in a sum of classes.
#[derive(Clone, Copy, Debug, PartialEq, Eq)]
pub enum Class {
    // Parent of, child of, sibling of.
    Family = 1,
    // Spouse of.
    Spouse = 2,
    // Same person.
    SamePerson = 4,
    // Named together in papers.
    Papers = 8,
}

// Decided by ranges of the kind number: a class, or none where the kind is unknown.
#[tactic(auto, unfolding(crate::specs::Kinds::class_of))]
pub fn class_of(kind: u8) -> Option<Class>
    ensures { class_said result ≡ class_of kind }
{
    match kind {
        1 | 2 | 4 => Some(Class::Family),
        3 => Some(Class::Spouse),
        5 => Some(Class::SamePerson),
        16..=31 => Some(Class::Papers),
        _ => None,
    }
}

// Whether a kind has a class.
pub fn known(kind: u8) -> bool
    ensures { result ≡ known (class_of kind) }
{
    class_of(kind).is_some()
}
