// The pieces of a form: numbers, texts and flags.
ghost use Rattle.std.specs.Prelude.{◌≡◌, ◌<◌, [], replicate, decimal};
ghost use Rattle.grammar.specs.Words.{hex};
ghost use Rattle.grammar.specs.Written.{out_byte, out_bytes, out_flags, out_text};
ghost use Rattle.pages.specs.Trees.{bytes};
ghost use Rattle.writer.specs.Puts.{Puts};

use crate::output::{Full, Output};
use pages::{Flags, NO_FLAGS};

// By a table, since `char::from_digit` gives an `Option` of a `char` where a byte is wanted.
fn hex_digit(d: u8) -> u8
    requires { d < 16 }
    ensures { result ≡ hex d }
{
    b"0123456789abcdef"[usize::from(d)]
}

impl Output<'_> {
    pub(crate) fn put_decimal(&mut self, n: u32) -> Result<(), Full>
        ensures { Puts (decimal n) self.old self.new result }
    {
        self.put_all(itoa::Buffer::new().format(n).as_bytes())
    }

    pub(crate) fn put_blanks(&mut self, count: usize) -> Result<(), Full>
        ensures { Puts (replicate count 32) self.old self.new result }
    {
        for _ in 0..count {
            self.put(b' ')?;
        }
        Ok(())
    }

    // Writes a byte of a text: escaped only where it has to be.
    fn put_letter(&mut self, b: u8) -> Result<(), Full>
        ensures { Puts (out_byte b []) self.old self.new result }
    {
        match b {
            b'"' | b'\\' => self.put_all(&[b'\\', b]),
            b' '..=b'~' => self.put(b),
            _ => self.put_all(&[b'\\', hex_digit(b / 16), hex_digit(b % 16)]),
        }
    }

    fn put_letters(&mut self, text: &[u8]) -> Result<(), Full>
        ensures { Puts (out_bytes text.now []) self.old self.new result }
    {
        for b in text {
            self.put_letter(*b)?;
        }
        Ok(())
    }

    // Writes a text in its quotes, after a blank.
    pub(crate) fn put_quoted(&mut self, text: &[u8]) -> Result<(), Full>
        ensures { Puts (out_text (bytes text.now) []) self.old self.new result }
    {
        self.put_all(b" \"")?;
        self.put_letters(text)?;
        self.put(b'"')
    }

    // Writes the flags after a blank; nothing where none is set.
    pub(crate) fn put_flags(&mut self, flags: Flags) -> Result<(), Full>
        ensures { Puts (out_flags flags []) self.old self.new result }
    {
        if flags == NO_FLAGS {
            return Ok(());
        }
        self.put(b' ')?;
        for (set, letter) in [
            (flags.optional, b'o'),
            (flags.computed, b'c'),
            (flags.shorthand, b's'),
        ] {
            if set {
                self.put(letter)?;
            }
        }
        Ok(())
    }
}
