// Short spellings: the same list for every name.
ghost use Rattle.std.specs.Prelude.{◌≡◌, ℕ, ◌<◌, true, List, length, take};
ghost use Rattle.std.specs.List.{slice_get};
ghost use Rattle.spellers.specs.Attempts.{attempts};
ghost use Rattle.spellers.specs.Lawful.{as_name};
ghost use Rattle.spellers.specs.Numbering.{letter, short, three_bytes, ShortEdges, SpelledApart, WrittenOnce};
ghost use Rattle.spellers.specs.Shortening.{short_lawful};
ghost use Rattle.std.proofs.Common.{rules};

use crate::speller::Speller;
use names::Name;

// How many letters an identifier name may start with.
const FIRST_BASE: u16 = 54;

// How many letters may follow.
const LATER_BASE: u16 = 64;

// The letters, in the order of the digits that they stand for.
const ALPHABET: [u8; 64] = *b"abcdefghijklmnopqrstuvwxyzABCDEFGHIJKLMNOPQRSTUVWXYZ$_0123456789";

// A spelling of at most three bytes; those past its length are zero. Its form is fixed, three bytes and a count: it is
// answered by value, and borrows nothing.
#[derive(Clone, Copy, Debug, PartialEq, Eq)]
pub struct ShortSpelling {
    bytes: [u8; 3],
    len: u8,
}

impl ShortSpelling {
    // The bytes up to its length.
    pub fn as_bytes(&self) -> &[u8]
        ensures { result.now ≡ take self.now.len self.now.bytes }
    {
        let bytes: &[u8] = &self.bytes;
        let len = usize::from(self.len).min(bytes.len());
        &bytes[..len]
    }
}

// The letter of a digit.
#[tactic(auto, unfolding(crate::specs::Numbering::letter))]
fn letter_of(digit: u16) -> u8
    requires { digit < 64 }
    ensures { result ≡ letter digit }
{
    ALPHABET[usize::from(digit)]
}

// The short spelling of a number: a first digit in base 54, and then, while something is left, digits in base 64, with 1
// taken from what is left before each. The turns are bounded, and not only by what is left, so that they are laid out one after
// the other.
pub fn base54(n: u16) -> ShortSpelling
    ensures spelled { result ≡ three_bytes (short n) }
    ensures written { WrittenOnce }
    ensures apart { SpelledApart }
    ensures edges { ShortEdges }
{
    let mut bytes = [letter_of(n % FIRST_BASE), 0, 0];
    let mut left = n / FIRST_BASE;
    for len in 1..3u8 {
        if left == 0 {
            return ShortSpelling { bytes, len };
        }
        left -= 1;
        bytes[usize::from(len)] = letter_of(left % LATER_BASE);
        left /= LATER_BASE;
    }
    ShortSpelling { bytes, len: 3 }
}

// The speller of short names.
#[derive(Clone, Copy, Debug)]
pub struct ShortSpeller;

// All names have the same list: the short spellings of the numbers 0 to 65,535.
impl Speller for ShortSpeller {
    ghost list = { λ _ _. attempts short 3 };

    const MAX_LEN: usize = 3;

    ghost MAX_LEN = { 3 };

    ghost lawful = { λ s original. short_lawful };

    ghost within = { Prim.search rules };

    fn spell(&self, original: &[u8], n: u32) -> Option<Name>
        ensures answer { result ≡ as_name (slice_get (attempts short 3) n) }
        ensures full { length (attempts short 3) ≡ 65536 }
    {
        let n = u16::try_from(n).ok()?;
        Name::new(base54(n).as_bytes())
    }

    fn has_one_list(&self) -> bool
        ensures promise { result ≡ true → (a b : List ℕ) → attempts short 3 ≡ attempts short 3 }
        ensures given { result ≡ true }
    {
        true
    }
}
