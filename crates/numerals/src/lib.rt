// Which texts are numerals: what ECMA-262's Number::toString writes of a finite number in base 10.
#![tactic(auto)]

ghost use Rattle.std.specs.Prelude.{◌≡◌, Decides};
ghost use Rattle.numerals.specs.Numeral.{Canonical, HasForm, HasLongForm, OneNumber};
ghost use Rattle.numerals.specs.Deciding.{Special};

mod digits;
mod form;

use crate::form::{Form, text_form};

// Whether the text has number form: some number is written so. There is no other number then.
pub fn is_number_form(text: &[u8]) -> bool
    ensures exactly { Decides result (HasForm text.now) }
    ensures unique { OneNumber text.now }
{
    text_form(text).is_some()
}

// Whether a number is written so that has over 15 digits, or a point place above 300 or below -300.
pub fn is_long_number(text: &[u8]) -> bool
    ensures exactly { Decides result (HasLongForm text.now) }
    ensures unique { OneNumber text.now }
{
    text_form(text) == Some(Form::Long)
}

// Whether the text is one of the four that are canonical and have no number form.
#[tactic(auto, using(std::proofs::lemmas::Slice::Eq::text_from_reads))]
fn is_special(text: &[u8]) -> bool
    ensures { Decides result (Special text.now) }
{
    matches!(text, b"-0" | b"NaN" | b"Infinity" | b"-Infinity")
}

// Whether the text has number form of a number that is not long, or is `-0`, `NaN`, `Infinity` or `-Infinity`.
pub fn is_canonical_numeric(text: &[u8]) -> bool
    ensures exactly { Decides result (Canonical text.now) }
    ensures unique { OneNumber text.now }
{
    text_form(text) == Some(Form::Short) || is_special(text)
}
