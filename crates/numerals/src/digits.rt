// Runs of digits in a text.
ghost use Rattle.std.specs.Prelude.{◌≡◌, ◌≤◌, min, length};
ghost use Rattle.numerals.specs.Deciding.{begins, ends, front, leading, rest, trim, value};

// A run of bytes from `0` to `9`.
#[derive(Clone, Copy)]
pub(crate) struct Digits<'a> {
    pub(crate) bytes: &'a [u8],
    ghost only_digits: { front bytes.now ≡ bytes.now },
}

// No exponent is compared with a number as large as this.
const MANY: usize = 1000;

impl<'a> Digits<'a> {
    // The digits that the text begins with, and what follows them.
    pub(crate) fn split(text: &'a [u8]) -> (Digits<'a>, &'a [u8])
        ensures before { result.0.bytes.now ≡ front text.now }
        ensures after { result.1.now ≡ rest text.now }
    {
        let count = text.iter().take_while(|b| b.is_ascii_digit()).count();
        let (bytes, rest) = text.split_at(count);
        (Digits { bytes }, rest)
    }

    pub(crate) fn len(self) -> usize
        ensures { result ≡ length self.entry.bytes.now }
    {
        self.bytes.len()
    }

    // Whether they begin with another one than 0.
    pub(crate) fn begins_well(self) -> bool
        ensures { result ≡ begins self.entry.bytes.now }
    {
        self.bytes.first().is_some_and(|b| *b != b'0')
    }

    // Whether they end with another one than 0.
    pub(crate) fn ends_well(self) -> bool
        ensures { result ≡ ends self.entry.bytes.now }
    {
        self.bytes.last().is_some_and(|b| *b != b'0')
    }

    // How many zeros they begin with.
    pub(crate) fn leading_zeros(self) -> usize
        ensures within { result ≤ length self.entry.bytes.now }
        ensures count { result ≡ leading self.entry.bytes.now }
    {
        self.bytes.iter().take_while(|b| **b == b'0').count()
    }

    // How many there are without the zeros at their end.
    #[tactic(auto, using(crate::proofs::Runs::trim_less, crate::proofs::Runs::trim_stop))]
    pub(crate) fn significant(self) -> usize
        ensures { result ≡ length (trim self.entry.bytes.now) }
    {
        let mut kept = self.bytes;
        while let [front @ .., b'0'] = kept {
            kept = front;
        }
        kept.len()
    }

    // The number that they write, or MANY where it is larger. A digit more never makes a number smaller, so what has
    // come to MANY stays there, and no sum wraps however many digits there are.
    #[tactic(auto, using(crate::proofs::Runs::front_bounds, crate::proofs::Runs::saturated_more))]
    pub(crate) fn saturated(self) -> usize
        ensures { result ≡ min 1000 (value self.entry.bytes.now) }
    {
        let mut n: usize = 0;
        for b in self.bytes {
            n = (n * 10 + usize::from(*b - b'0')).min(MANY);
        }
        n
    }
}
