// What the spellers answer.
use names::Name;
use spellers::{DebugSpeller, ShortSpeller, Speller, base54, debug_name};

// What stands in the table where there is no spelling. No spelling is this text: a short one has fewer
// bytes, and a debug one begins otherwise.
const NONE: &[u8] = b"none";

fn is_text(found: Option<Name>, text: &[u8]) -> bool {
    found.map_or(text == NONE, |name| name.is(text))
}

// short|N|TEXT
pub fn short_holds(n: u32, text: &[u8]) -> bool {
    u16::try_from(n).map_or(text == NONE, |n| base54(n).as_bytes() == text)
        && is_text(ShortSpeller.spell(b"name", n), text)
}

// debug|NAME|N|TEXT
pub fn debug_holds(original: &[u8], n: u32, text: &[u8]) -> bool {
    let found = u16::try_from(n).ok().and_then(|n| debug_name(original, n));
    is_text(found, text) && is_text(DebugSpeller.spell(original, n), text)
}
