// The letters of a kind's name, as they come in.
ghost use Rattle.std.specs.Prelude.{◌≡◌, ◌≤◌, true, false, [], ◌∷◌, ◌++◌, MatchOption};
ghost use Rattle.grammar.specs.Scan.{begun, kind_named};

use grammar::kind_name;
use pages::Kind;

// Every kind.
const KINDS: [Kind; 25] = [
    Kind::Node,
    Kind::Name,
    Kind::Number,
    Kind::Key,
    Kind::Private,
    Kind::Jattr,
    Kind::String,
    Kind::Directive,
    Kind::Template,
    Kind::Paren,
    Kind::Cond,
    Kind::Seq,
    Kind::In,
    Kind::Default,
    Kind::Member,
    Kind::Jmember,
    Kind::Index,
    Kind::Slot,
    Kind::Prop,
    Kind::Bind,
    Kind::Full,
    Kind::Method,
    Kind::Field,
    Kind::Accessor,
    Kind::Bare,
];

// The longest name of a kind has nine letters.
const LONGEST: usize = 9;

// The letters of a kind's name so far: an array and a length, since a state is copied and no heap is used.
#[derive(Clone, Copy, Debug)]
pub struct Word {
    letters: [u8; LONGEST],
    len: usize,
    ghost fits: { len ≤ 9 },
}

impl Word {
    ghost use Rattle.reader.specs.View.{letters_of};

    // No letters.
    pub(crate) fn new() -> Word
        ensures { letters_of result ≡ [] }
    {
        Word {
            letters: [0; LONGEST],
            len: 0,
        }
    }

    fn letters(&self) -> &[u8]
        ensures { result.now ≡ letters_of self.now }
    {
        &self.letters[..self.len]
    }

    // Whether some kind's name begins with the letters.
    fn begins_name(&self) -> bool
        ensures { result ≡ begun (letters_of self.now) }
    {
        let letters = self.letters();
        KINDS
            .iter()
            .any(|kind| kind_name(*kind).starts_with(letters))
    }

    // The letters and one more, if some kind's name begins with them.
    pub(crate) fn with(mut self, b: u8) -> Option<Word>
        ensures { MatchOption result (begun (letters_of self ++ b ∷ []) ≡ false) (λ word. (begun (letters_of self ++ b ∷ []) ≡ true) × (letters_of word ≡ letters_of self ++ b ∷ [])) }
    {
        if self.len >= LONGEST {
            return None;
        }
        self.letters[self.len] = b;
        self.len += 1;
        self.begins_name().then_some(self)
    }

    // The kind whose name the letters are. No `TryFrom`, whose error would say no more than `None`.
    pub(crate) fn kind(&self) -> Option<Kind>
        ensures { result ≡ kind_named (letters_of self.now) }
    {
        let letters = self.letters();
        KINDS
            .iter()
            .copied()
            .find(|kind| letters == kind_name(*kind))
    }
}
