// What stands in a form before its children.
ghost use Rattle.std.specs.Prelude.{◌^◌, ◌<◌, [], ◌∷◌, ◌++◌, replicate, decimal, ◌≢◌};
ghost use Rattle.grammar.specs.Words.{word};
ghost use Rattle.grammar.specs.Written.{out_flags, out_text};
ghost use Rattle.pages.specs.Trees.{astray, text_in};
ghost use Rattle.writer.specs.Puts.{Puts};
ghost use Rattle.writer.specs.Walk.{SmallText};

use crate::output::{Full, Output};
use grammar::kind_name;
use pages::{Flags, Kind, Part};

impl Output<'_> {
    // Writes the opening of a form: its indent, bracket, kind and start. A caller that took the start from
    // a row learns here that it fits.
    pub(crate) fn put_opening(&mut self, indent: usize, kind: Kind, start: u32) -> Result<(), Full>
        ensures puts { Puts (replicate indent 32 ++ (40 ∷ (word kind ++ (32 ∷ 64 ∷ decimal start)))) self.old self.new result }
        ensures fits { start < 2 ^ 32 }
    {
        self.put_blanks(indent)?;
        self.put(b'(')?;
        self.put_all(kind_name(kind))?;
        self.put_all(b" @")?;
        self.put_decimal(start)
    }

    // Writes what may be absent from a form: its flags, and the text that a part has in the page's text. A
    // caller that took that text from a page learns here that its bytes fit.
    pub(crate) fn put_marks(
        &mut self,
        flags: Flags,
        part: Option<Part>,
        text: &[u8],
    ) -> Result<(), Full>
        requires { text_in text.now part ≢ astray }
        ensures puts { Puts (out_flags flags [] ++ out_text (text_in text.now part) []) self.old self.new result }
        ensures fits { SmallText (text_in text.now part) }
    {
        self.put_flags(flags)?;
        match part {
            None => Ok(()),
            Some(Part { offset, length }) => self.put_quoted(&text[offset..offset + length]),
        }
    }
}
