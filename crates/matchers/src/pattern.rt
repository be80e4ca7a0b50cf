// Names that are like a pattern.
ghost use Rattle.std.specs.Prelude.{◌≡◌, ℕ, List, Decides};
ghost use Rattle.matchers.specs.Patterns.{matched, Means};

use crate::matcher::Matcher;
use crate::walk::run;

// In a pattern `*` stands for any run of bytes, none too, `?` for exactly one byte, and any other byte for itself. The
// set is the names that are like the pattern from their first byte to their last.
#[derive(Clone, Copy, Debug)]
pub struct Pattern<'a> {
    pub bytes: &'a [u8],
}

impl<'a> Matcher for Pattern<'a> {
    ghost holds = { λ p name. matched p.bytes.now name };

    fn is_match(&self, name: &[u8]) -> bool
        ensures answer { result ≡ matched self.now.bytes.now name.now }
        ensures means { (text : List ℕ) → Decides (matched self.now.bytes.now text) (Means self.now.bytes.now text) }
    {
        run(self.bytes, name).matched
    }
}
