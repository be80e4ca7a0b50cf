// The form of a text, part by part.
ghost use Rattle.std.specs.Prelude.{◌≡◌};
ghost use Rattle.numerals.specs.Deciding.{point_form, unsigned_form, fraction_form, front, is_lone, exponent_form, rest, signed_form, form_of, power_form, text_form, whole_form};

use crate::digits::Digits;

// No exponent is written where the point place is from -5 to 21.
const LAST_PLACE: usize = 21;

const MOST_ZEROS: usize = 5;

// Where one is written, it is one less than the point place: 21 or more, or -7 or less.
const LEAST_PLUS: usize = 21;

const LEAST_MINUS: usize = 7;

// A number is long with more digits than these, or with a point place above 300 or below -300. Its exponent is
// then 300 or more, or -302 or less.
const MOST_DIGITS: usize = 15;

const LONG_PLUS: usize = 300;

const LONG_MINUS: usize = 302;

// Number form, of a number that is not long or of one that is. The functions below answer none where a text has none.
#[derive(Clone, Copy, Debug, PartialEq, Eq, Drop)]
pub(crate) enum Form {
    Short,
    Long,
}

// The form of a number with so many digits, and with a far point place or not.
fn form_of(digits: usize, far: bool) -> Form
    ensures { result ≡ form_of digits far }
{
    if digits > MOST_DIGITS || far {
        Form::Long
    } else {
        Form::Short
    }
}

// Digits alone. The zeros at their end are counted only where the answer needs them: there may be any number.
fn whole_form(digits: Digits) -> Option<Form>
    ensures { result ≡ whole_form digits.entry.bytes.now }
{
    if !digits.begins_well() || digits.len() > LAST_PLACE {
        return None;
    }
    Some(form_of(digits.significant(), false))
}

// Digits on both sides of a point. A `0` before it may be followed by a few more after it.
fn fraction_form<'a>(before: Digits<'a>, after: Digits<'a>) -> Option<Form>
    ensures { result ≡ fraction_form before.entry.bytes.now after.entry.bytes.now }
{
    if !after.ends_well() {
        return None;
    }
    if before.begins_well() {
        return (before.len() <= LAST_PLACE).then_some(form_of(before.len() + after.len(), false));
    }
    let zeros = after.leading_zeros();
    (before.len() == 1 && zeros <= MOST_ZEROS).then_some(form_of(after.len() - zeros, false))
}

// Whether these are one digit, and not 0.
fn is_lone(digits: Digits) -> bool
    ensures { result ≡ is_lone digits.entry.bytes.now }
{
    digits.begins_well() && digits.len() == 1
}

// A sign and the digits of an exponent, with so many digits before the `e`. The exponent is compared only with
// numbers that are less than where it saturates.
fn exponent_form(digits: usize, sign: u8, exponent: Digits) -> Option<Form>
    ensures { result ≡ exponent_form digits sign exponent.entry.bytes.now }
{
    if !exponent.begins_well() {
        return None;
    }
    let size = exponent.saturated();
    match sign {
        b'+' if size >= LEAST_PLUS => Some(form_of(digits, size >= LONG_PLUS)),
        b'-' if size >= LEAST_MINUS => Some(form_of(digits, size >= LONG_MINUS)),
        _ => None,
    }
}

// What follows an `e`, with so many digits before it.
fn power_form(digits: usize, text: &[u8]) -> Option<Form>
    ensures { result ≡ power_form digits text.now }
{
    let (sign, tail) = text.split_first()?;
    match Digits::split(tail) {
        (exponent, []) => exponent_form(digits, *sign, exponent),
        _ => None,
    }
}

// What follows a point.
fn point_form<'a>(before: Digits<'a>, text: &'a [u8]) -> Option<Form>
    ensures { result ≡ point_form before.entry.bytes.now (front text.now) (rest text.now) }
{
    let (after, rest) = Digits::split(text);
    match rest {
        [] => fraction_form(before, after),
        [b'e', tail @ ..] if is_lone(before) && after.ends_well() => {
            power_form(1 + after.len(), tail)
        }
        _ => None,
    }
}

// A text without a sign.
fn unsigned_form(text: &[u8]) -> Option<Form>
    ensures { result ≡ unsigned_form text.now }
{
    let (digits, rest) = Digits::split(text);
    match rest {
        [] => whole_form(digits),
        [b'.', tail @ ..] => point_form(digits, tail),
        [b'e', tail @ ..] if is_lone(digits) => power_form(1, tail),
        _ => None,
    }
}

// A text that may begin with a minus.
fn signed_form(text: &[u8]) -> Option<Form>
    ensures { result ≡ signed_form text.now }
{
    match text {
        [] => None,
        [b'-', tail @ ..] => unsigned_form(tail),
        _ => unsigned_form(text),
    }
}

// The form of a text. `0` is the one numeral that begins with `0` and has no point. It has no sign.
pub(crate) fn text_form(text: &[u8]) -> Option<Form>
    ensures { result ≡ text_form text.now }
{
    match text {
        b"0" => Some(Form::Short),
        _ => signed_form(text),
    }
}
