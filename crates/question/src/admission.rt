// Which links a question admits.
ghost use Rattle.std.specs.Prelude.{◌≡◌, ◌/◌, ◌%◌, ◌<◌, eqb};
ghost use Rattle.format.specs.Kinds.{class_number, class_of};
ghost use Rattle.question.specs.Admission.{in_sum, day_admitted, admitted};
ghost use Rattle.question.specs.Inside.{Fed};

use crate::Question;
use format::file::LinkFile;
use format::kinds;
use format::kinds::Class;
use format::links::Link;

// Whether a class is one of a sum of classes. Each arm divides by a number that the compiler knows: a division by the class itself
// is slow.
fn summed(class: Class, classes: u32) -> bool
    ensures { result ≡ eqb (classes / class_number class % 2) 1 }
{
    match class {
        Class::Family => classes % 2 == 1,
        Class::Spouse => classes / 2 % 2 == 1,
        Class::SamePerson => classes / 4 % 2 == 1,
        Class::Papers => classes / 8 % 2 == 1,
    }
}

// Whether the class of a kind is in the sum.
fn in_sum(kind: u8, classes: u32) -> bool
    ensures { result ≡ in_sum (class_of kind) classes }
{
    kinds::class_of(kind).is_some_and(|class| summed(class, classes))
}

// Whether a link is undated and the question wants undated links, or has a day of the window from a feed whose days mean what the
// question asks.
#[tactic(auto, unfolding(crate::specs::Admission::day_admitted))]
fn day_admitted(file: LinkFile<'_>, question: Question, link: Link) -> bool
    requires { link.feed < file.counts.feeds }
    ensures { result ≡ day_admitted file.entry.bytes.now question link }
{
    if link.day == 0 {
        return question.undated == 1;
    }
    let feed = file.feed(link.feed as usize);
    (question.first..=question.last).contains(&link.day) && feed.meaning() == question.meaning
}

// Whether a link of a file that passed is admitted.
#[tactic(auto, unfolding(crate::specs::Admission::admitted))]
pub fn admits(file: LinkFile<'_>, question: Question, number: usize) -> bool
    requires { Fed file.bytes.now number }
    ensures { result ≡ admitted file.entry.bytes.now question number }
{
    let link = file.link(number);
    in_sum(link.kind, question.classes) && day_admitted(file, question, link)
}
