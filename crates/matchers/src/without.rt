// The names of one set that are not in another.
ghost use Rattle.std.specs.Prelude.{not, ◌&&◌};

use crate::matcher::Matcher;

// The names that `include` means, without those that `exclude` means.
#[derive(Clone, Copy, Debug, Drop)]
pub struct Without<I, E> {
    pub include: I,
    pub exclude: E,
}

impl<I: Matcher, E: Matcher> Matcher for Without<I, E> {
    ghost holds = { λ w name. I.Matcher.holds w.include name && not (E.Matcher.holds w.exclude name) };

    fn is_match(&self, name: &[u8]) -> bool {
        self.include.is_match(name) && !self.exclude.is_match(name)
    }
}
