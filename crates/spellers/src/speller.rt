// What a speller owes.
ghost use Rattle.std.specs.Prelude.{◌≡◌, ℕ, ◌≤◌, true, List};
ghost use Rattle.std.specs.List.{slice_get};
ghost use Rattle.spellers.specs.Lawful.{Lawful, as_name};

use names::Name;

// The most spellings of a list.
pub const LIST_LIMIT: u32 = 65_536;

// A speller means, for each original name, a list of spellings. No question changes a list.
pub trait Speller {
    // The list of an original name.
    ghost list: { Self → List ℕ → List (List ℕ) };

    // No spelling has more bytes; at most 255. By the rules, each speller tells such a length.
    const MAX_LEN: usize;

    // By this the clauses and laws name the constant; the check holds each impl's value to it.
    ghost MAX_LEN: { ℕ };

    // MAX_LEN of a speller at hand.
    fn longest(&self) -> usize
        ensures { result ≡ MAX_LEN }
    {
        Self::MAX_LEN
    }

    // The spelling at place n of the original name's list, from 0; none exactly past the list's end.
    fn spell(&self, original: &[u8], n: u32) -> Option<Name>
        ensures answer { result ≡ as_name (slice_get (list self.now original.now) n) };

    // Whether it promises that all names have the same list, so that a caller who has found some of its spellings
    // taken need not try them again for the next name. A speller that promises nothing keeps this.
    fn has_one_list(&self) -> bool
        ensures promise { result ≡ true → (a b : List ℕ) → list self.now a ≡ list self.now b }
    {
        false
    }

    ghost lawful: { (s : Self) (original : List ℕ) → Lawful (list s original) MAX_LEN };

    ghost within: { MAX_LEN ≤ 255 };
}
