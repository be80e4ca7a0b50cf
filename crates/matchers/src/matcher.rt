// What a matcher owes.
ghost use Rattle.std.specs.Prelude.{◌≡◌, ℕ, Bool, List};

// A matcher means a fixed set of names. It answers for every name, and no question changes it.
pub trait Matcher {
    // Whether a name is in the set that it means.
    ghost holds: { Self → List ℕ → Bool };

    // Whether the name is in the set.
    fn is_match(&self, name: &[u8]) -> bool
        ensures answer { result ≡ holds self.now name.now };
}
