// The names that are written out in a list.
ghost use Rattle.std.specs.Prelude.{◌≡◌, ℕ, List, Decides};
ghost use Rattle.matchers.specs.Words.{listed, Listed};

use crate::matcher::Matcher;

// The set of its words.
#[derive(Clone, Copy, Debug)]
pub struct WordList<'a, 'b> {
    pub words: &'a [&'b [u8]],
}

impl<'a, 'b> Matcher for WordList<'a, 'b> {
    ghost holds = { λ l name. listed l.words.now name };

    fn is_match(&self, name: &[u8]) -> bool
        ensures answer { result ≡ listed self.now.words.now name.now }
        ensures means { (text : List ℕ) → Decides (listed self.now.words.now text) (Listed self.now.words.now text) }
    {
        self.words.iter().any(|word| *word == name)
    }
}
