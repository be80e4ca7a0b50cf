// Debug spellings: the original name can be read in them. Original and attempt go side by side, as the Rust's own
// `debug_name` takes them.
ghost use Rattle.std.specs.Prelude.{◌≡◌, ℕ, List, ◌++◌, codes, decimal};
ghost use Rattle.std.specs.List.{slice_get};
ghost use Rattle.names.specs.Names.{bytes_of, made_of};
ghost use Rattle.spellers.specs.Attempts.{attempts};
ghost use Rattle.spellers.specs.Lawful.{as_name};
ghost use Rattle.spellers.specs.Debugging.{DebugEdges, attempt_mark, debug_name, told};
ghost use Rattle.spellers.specs.Debugged.{debug_lawful};
ghost use Rattle.std.proofs.Common.{rules};

use crate::speller::Speller;
use names::{Name, is_identifier_name};

// The name followed by a number; none where it has too many bytes.
fn numbered(name: Name, n: u16) -> Option<Name>
    ensures { result ≡ made_of (bytes_of name ++ decimal n) }
{
    name.followed_by(itoa::Buffer::new().format(n).as_bytes())
}

// The frame's beginning with a word behind it.
fn begun(word: &[u8]) -> Option<Name>
    ensures { result ≡ made_of (codes "_$" ++ word.now) }
{
    Name::new(b"_$")?.followed_by(word)
}

// For a name that cannot stand in its spellings.
fn begun_by_number(attempt: u16) -> Option<Name>
    ensures { result ≡ made_of ((codes "_$" ++ codes "property") ++ decimal attempt) }
{
    numbered(begun(b"property")?, attempt)
}

// For an identifier name.
fn begun_by_name(original: &[u8], attempt: u16) -> Option<Name>
    ensures { result ≡ made_of ((codes "_$" ++ original.now) ++ attempt_mark attempt) }
{
    let front = begun(original)?;
    if attempt == 0 {
        return Some(front);
    }
    numbered(front.followed_by(b"$")?, attempt)
}

// The frame's beginning, and what tells the attempts of a name apart.
fn begun_with(original: &[u8], attempt: u16) -> Option<Name>
    ensures { result ≡ made_of (codes "_$" ++ told original.now attempt) }
{
    if is_identifier_name(original) {
        begun_by_name(original, attempt)
    } else {
        begun_by_number(attempt)
    }
}

// The debug spelling of a name at an attempt; none where it has over 255 bytes.
#[tactic(auto, using(crate::proofs::Framing::text_behind), unfolding(crate::specs::Debugging::debug_name))]
pub fn debug_name(original: &[u8], attempt: u16) -> Option<Name>
    ensures { result ≡ made_of (debug_name original.now attempt) }
{
    begun_with(original, attempt)?.followed_by(b"$_")
}

// The speller of names in which the original can be read.
#[derive(Clone, Copy, Debug)]
pub struct DebugSpeller;

// A name's list has the debug spellings of the attempts 0 to 65,535 that have at most 255 bytes.
impl Speller for DebugSpeller {
    ghost list = { λ _ original. attempts (debug_name original) 255 };

    const MAX_LEN: usize = 255;

    ghost MAX_LEN = { 255 };

    ghost lawful = { λ s original. debug_lawful original };

    ghost within = { Prim.search rules };

    fn spell(&self, original: &[u8], n: u32) -> Option<Name>
        ensures answer { result ≡ as_name (slice_get (attempts (debug_name original.now) 255) n) }
        ensures edges { DebugEdges }
    {
        let attempt = u16::try_from(n).ok()?;
        debug_name(original, attempt)
    }
}
