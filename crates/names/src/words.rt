// Which texts may be the target of a property in a mangle cache, and which are not ASCII.
ghost use Rattle.std.specs.Prelude.{◌≡◌, not, ◌&&◌};
ghost use Rattle.names.specs.Identifiers.{identifier};
ghost use Rattle.names.specs.Texts.{hard, foreign};

use crate::identifier::is_identifier_name;

// Whether the text is one of the hard names: `__proto__`, `constructor` and `prototype`.
#[tactic(auto, unfolding(crate::specs::Texts::hard), using(std::proofs::lemmas::Slice::Eq::text_from_reads))]
pub fn is_hard_name(text: &[u8]) -> bool
    ensures { result ≡ hard text.now }
{
    matches!(text, b"__proto__" | b"constructor" | b"prototype")
}

// Whether the text is an identifier name and no hard name.
pub fn is_valid_property_mangle_cache_target(text: &[u8]) -> bool
    ensures { result ≡ (identifier text.now && not (hard text.now)) }
{
    is_identifier_name(text) && !is_hard_name(text)
}

// Whether some byte is not ASCII.
#[tactic(auto, using(crate::proofs::Foreign::foreign_by_ascii))]
pub fn is_foreign(text: &[u8]) -> bool
    ensures { result ≡ foreign text.now }
{
    !text.is_ascii()
}
