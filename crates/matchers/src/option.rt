// A matcher that need not be there.
ghost use Rattle.std.specs.Prelude.{false, Some, None};

use crate::matcher::Matcher;

// `None` means the empty set, and `Some` what its matcher means.
impl<M: Matcher> Matcher for Option<M> {
    ghost holds = { λ o name. elim o [ None ↦ false | Some m ↦ M.Matcher.holds m name ] };

    fn is_match(&self, name: &[u8]) -> bool {
        self.as_ref().is_some_and(|matcher| matcher.is_match(name))
    }
}
