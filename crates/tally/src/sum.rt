// Values of one key that add up.
ghost use Rattle.std.specs.Prelude.{◌≡◌};
ghost use Rattle.tally.specs.Counts.{count_sum};
ghost use Rattle.std.proofs.Common.{rules};

// In which order and in which groups values are added does not matter.
pub trait Sum: Copy {
    ghost sum: { Self → Self → Self };

    // This value and another together.
    fn plus(self, other: Self) -> Self
        ensures { result ≡ sum self other };

    ghost commutes: { (a b : Self) → sum a b ≡ sum b a };

    ghost associates: { (a b c : Self) → sum (sum a b) c ≡ sum a (sum b c) };
}

// Counts stop at the largest number of 32 bits.
impl Sum for u32 {
    ghost sum = { count_sum };

    ghost commutes = { Prim.search rules };

    ghost associates = { Prim.search rules };

    fn plus(self, other: u32) -> u32 {
        self.saturating_add(other)
    }
}

// A set: a key is there or not.
impl Sum for () {
    ghost sum = { λ _ _. tt };

    ghost commutes = { Prim.search rules };

    ghost associates = { Prim.search rules };

    fn plus(self, _other: ()) {}
}
