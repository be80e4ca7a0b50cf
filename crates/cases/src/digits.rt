// Digits, and the numbers that they make.
ghost use Rattle.std.specs.Prelude.{◌≡◌, ◌<◌};
ghost use Rattle.cases.specs.Cases.{digit_of, longer, number_of};
ghost use Rattle.cases.specs.Expander.{bits_of};

// What a digit counts: the hexadecimal ones in small letters, and any other byte as 0, a capital too, which `to_digit`
// would count.
pub(crate) fn digit(b: u8) -> u8
    ensures counts { result ≡ digit_of b }
    ensures below { result < 16 }
{
    match b {
        b'0'..=b'9' => b - b'0',
        b'a'..=b'f' => b - b'a' + 10,
        _ => 0,
    }
}

// A number with one digit more, in 32 bits.
pub(crate) fn with_digit(n: u32, b: u8) -> u32
    ensures { result ≡ longer 32 n b }
{
    n.wrapping_mul(10).wrapping_add(u32::from(digit(b)))
}

// In how many bits the number of a repetition counts. The two programs differ in it.
#[derive(Clone, Copy)]
pub(crate) enum Width {
    Bits32,
    Bits64,
}

impl Width {
    // A number with one digit more.
    pub(crate) fn with_digit(self, n: u64, b: u8) -> u64
        ensures { result ≡ longer (bits_of self) n b }
    {
        let more = n.wrapping_mul(10).wrapping_add(u64::from(digit(b)));
        match self {
            Width::Bits32 => more % 4_294_967_296,
            Width::Bits64 => more,
        }
    }
}

// The number that a text is, in 32 bits.
pub fn number(text: &[u8]) -> u32
    ensures { result ≡ number_of text.now }
{
    text.iter().fold(0, |n, b| with_digit(n, *b))
}
