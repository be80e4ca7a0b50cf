// Names and numbers: what each text is.
use names::{is_foreign, is_hard_name, is_identifier_name, is_valid_property_mangle_cache_target};
use numerals::{is_canonical_numeric, is_long_number, is_number_form};

// A text as a number: `canonical` or `long` where it has number form, `word` for the four canonical texts
// that have none, and else `other`.
pub fn is_number(answer: &str, text: &[u8]) -> bool {
    let (form, long, canonical) = match answer {
        "canonical" => (true, false, true),
        "long" => (true, true, false),
        "word" => (false, false, true),
        _ => (false, false, false),
    };
    is_number_form(text) == form
        && is_long_number(text) == long
        && is_canonical_numeric(text) == canonical
}

// A text as a name: a `target` of pins, a `hard` identifier name, `foreign`, and else `other`.
pub fn is_name(answer: &str, text: &[u8]) -> bool {
    let (identifier, hard, target, foreign) = match answer {
        "target" => (true, false, true, false),
        "hard" => (true, true, false, false),
        "foreign" => (false, false, false, true),
        _ => (false, false, false, false),
    };
    is_identifier_name(text) == identifier
        && is_hard_name(text) == hard
        && is_valid_property_mangle_cache_target(text) == target
        && is_foreign(text) == foreign
}
