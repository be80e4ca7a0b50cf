// Which texts are identifier names.
ghost use Rattle.std.specs.Prelude.{◌≡◌};
ghost use Rattle.names.specs.Identifiers.{class, starts, goes_on, identifier};

// Where a byte may stand in an identifier name.
#[derive(Clone, Copy, PartialEq, Eq, Debug)]
enum Class {
    Start,
    Part,
    Other,
}

use Class::{Other as O, Part as P, Start as S};

// The class of each byte, sixteen to a line: a constant table is the project's form. It is a static, which is read in
// place: a const of enum values is built anew at each use.
#[rattlefmt::skip]
static CLASSES: [Class; 256] = [
    O, O, O, O, O, O, O, O, O, O, O, O, O, O, O, O,
    O, O, O, O, O, O, O, O, O, O, O, O, O, O, O, O,
    O, O, O, O, S, O, O, O, O, O, O, O, O, O, O, O,
    P, P, P, P, P, P, P, P, P, P, O, O, O, O, O, O,
    O, S, S, S, S, S, S, S, S, S, S, S, S, S, S, S,
    S, S, S, S, S, S, S, S, S, S, S, O, O, O, O, S,
    O, S, S, S, S, S, S, S, S, S, S, S, S, S, S, S,
    S, S, S, S, S, S, S, S, S, S, S, O, O, O, O, O,
    O, O, O, O, O, O, O, O, O, O, O, O, O, O, O, O,
    O, O, O, O, O, O, O, O, O, O, O, O, O, O, O, O,
    O, O, O, O, O, O, O, O, O, O, O, O, O, O, O, O,
    O, O, O, O, O, O, O, O, O, O, O, O, O, O, O, O,
    O, O, O, O, O, O, O, O, O, O, O, O, O, O, O, O,
    O, O, O, O, O, O, O, O, O, O, O, O, O, O, O, O,
    O, O, O, O, O, O, O, O, O, O, O, O, O, O, O, O,
    O, O, O, O, O, O, O, O, O, O, O, O, O, O, O, O,
];

fn class_of(byte: u8) -> Class
    ensures { result ≡ class byte }
{
    CLASSES[usize::from(byte)]
}

#[tactic(auto, unfolding(crate::specs::Identifiers::class))]
fn may_start(byte: u8) -> bool
    ensures { result ≡ starts byte }
{
    matches!(class_of(byte), Class::Start)
}

#[tactic(auto, unfolding(crate::specs::Identifiers::class, crate::specs::Identifiers::goes_on))]
fn may_follow(byte: u8) -> bool
    ensures { result ≡ goes_on byte }
{
    !matches!(class_of(byte), Class::Other)
}

// Whether the text is one or more of A-Z, a-z, `$`, `_` and, after the first, 0-9.
pub fn is_identifier_name(text: &[u8]) -> bool
    ensures { result ≡ identifier text.now }
{
    match text {
        [] => false,
        [first, rest @ ..] => may_start(*first) && rest.iter().all(|byte| may_follow(*byte)),
    }
}
