// A text is gone through byte by byte.
ghost use Rattle.std.specs.Prelude.{◌≡◌, ℕ, List, ◌∷◌, ◌++◌, IfOk, OnOk};
ghost use Rattle.std.specs.List.{repeat};
ghost use Rattle.cases.specs.Cases.{expansion, expansion_in};
ghost use Rattle.cases.specs.Expander.{bits_of};

use crate::digits::{Width, digit};
use std::alloc::{AllocError, Global};

// Where in a text the next byte stands: outside, after `~`, after its first digit, after `{` and a part of the
// number, or after `:` in a text that is to stand so often.
#[derive(Clone, Copy)]
enum Mode {
    Outside,
    Tilde,
    Digit(u8),
    Brace(u64),
    Colon(u64),
}

// What a text stands for so far, and the part of a repeated text that was met.
#[derive(Drop)]
struct Expander {
    width: Width,
    mode: Mode,
    bytes: Vec<u8>,
    repeated: Vec<u8>,
}

// Adds a text so often, and takes no memory beside that of the bytes. An empty text adds nothing, however often.
fn add_repeated(bytes: &mut Vec<u8>, text: &[u8], times: u64) -> Result<(), AllocError>
    ensures { OnOk result (bytes.new.items ≡ bytes.old.items ++ repeat times text.now) }
{
    if text.is_empty() {
        return Ok(());
    }
    for _ in 0..times {
        bytes.extend_from_slice(text)?;
    }
    Ok(())
}

impl Expander {
    ghost use Rattle.cases.specs.Expander.{complete};

    // A byte outside.
    fn take_outside(&mut self, b: u8) -> Result<(), AllocError>
        requires { self.old.mode ≡ Mode.Outside }
        ensures { OnOk result ((s : List ℕ) → complete self.new s ≡ complete self.old (b ∷ s)) }
    {
        match b {
            b'~' => self.mode = Mode::Tilde,
            b'{' => self.mode = Mode::Brace(0),
            _ => self.bytes.push(b)?,
        }
        Ok(())
    }

    // A byte of a text that is to stand so often, which `}` ends.
    fn take_repeated(&mut self, times: u64, b: u8) -> Result<(), AllocError>
        requires { self.old.mode ≡ Mode.Colon times }
        ensures { OnOk result ((s : List ℕ) → complete self.new s ≡ complete self.old (b ∷ s)) }
    {
        if b != b'}' {
            self.repeated.push(b)?;
            return Ok(());
        }
        add_repeated(&mut self.bytes, self.repeated.as_slice(), times)?;
        self.mode = Mode::Outside;
        Ok(())
    }

    // One byte more.
    fn take(&mut self, b: u8) -> Result<(), AllocError>
        ensures { OnOk result ((s : List ℕ) → complete self.new s ≡ complete self.old (b ∷ s)) }
    {
        match self.mode {
            Mode::Outside => self.take_outside(b)?,
            Mode::Tilde => self.mode = Mode::Digit(b),
            Mode::Digit(high) => {
                self.bytes.push(digit(high) * 16 + digit(b))?;
                self.mode = Mode::Outside;
            }
            Mode::Brace(times) if b == b':' => {
                self.repeated.clear();
                self.mode = Mode::Colon(times);
            }
            Mode::Brace(times) => self.mode = Mode::Brace(self.width.with_digit(times, b)),
            Mode::Colon(times) => self.take_repeated(times, b)?,
        }
        Ok(())
    }
}

// What a text stands for, where the number of a repetition counts in so many bits.
fn expanded_in(alloc: Global, width: Width, text: &[u8]) -> Result<Vec<u8>, AllocError>
    ensures { IfOk result (λ bytes. bytes.items ≡ expansion_in (bits_of width) text.now) }
{
    let mut expander = Expander {
        width,
        mode: Mode::Outside,
        bytes: Vec::new(alloc),
        repeated: Vec::new(alloc),
    };
    for b in text {
        expander.take(*b)?;
    }
    Ok(expander.bytes)
}

// What a text stands for, where the number of a repetition counts in 32 bits.
pub fn expanded(alloc: Global, text: &[u8]) -> Result<Vec<u8>, AllocError>
    ensures { IfOk result (λ bytes. bytes.items ≡ expansion text.now) }
{
    expanded_in(alloc, Width::Bits32, text)
}

// What a text stands for, where the number of a repetition counts in 64 bits.
pub fn expanded_in_64_bits(alloc: Global, text: &[u8]) -> Result<Vec<u8>, AllocError>
    ensures { IfOk result (λ bytes. bytes.items ≡ expansion_in 64 text.now) }
{
    expanded_in(alloc, Width::Bits64, text)
}

#[cfg(test)]
mod tests {
    use super::*;
    use std::test::Fail;

    #[test]
    fn stands_for_its_bytes(rt: HostRuntime) -> Result<(), Fail> {
        let bytes = expanded(rt.alloc(), b"a~7fb{3:xy}{0:z}~0")?;
        assert_eq!(rt; bytes.as_slice(), b"a\x7fbxyxyxy".as_slice());
        Ok(())
    }

    // That 64 bits count and not 32 shows only where a text would stand over 2^32 times: an edit shows it, and no test.
    #[test]
    fn stands_for_its_bytes_in_64_bits(rt: HostRuntime) -> Result<(), Fail> {
        let bytes = expanded_in_64_bits(rt.alloc(), b"{18446744073709551618:xy}{4294967296:}z")?;
        assert_eq!(rt; bytes.as_slice(), b"xyxyz".as_slice());
        Ok(())
    }
}
