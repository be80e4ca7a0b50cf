// A speller of the program's own, and what a caller hears from any speller.
ghost use Rattle.std.specs.Prelude.{[]};
ghost use Rattle.std.proofs.Common.{rules};

use names::Name;
use spellers::{DebugSpeller, ShortSpeller, Speller};

// It has no spelling for any name. That its lists are alike is not promised.
#[derive(Clone, Copy)]
struct Mute;

impl Speller for Mute {
    ghost list = { λ _ _. [] };

    const MAX_LEN: usize = 0;

    ghost MAX_LEN = { 0 };

    ghost lawful = { Prim.search rules };

    ghost within = { Prim.search rules };

    fn spell(&self, original: &[u8], n: u32) -> Option<Name> {
        None
    }
}

// Prints the first spelling, the longest length and whether all names have one list.
fn introduce<S: Speller>(rt: &impl Print, who: &str, speller: &S) -> anyhow::Result<()> {
    let first = speller.spell(b"name", 0);
    let first = first
        .as_ref()
        .map_or(Ok("none"), |name| str::from_utf8(name.as_bytes()))?;
    let longest = speller.longest();
    let one = speller.has_one_list();
    println!(rt; "{who}: first {first}, at most {longest} bytes, one list: {one}")?;
    Ok(())
}

pub fn introduce_all(rt: &impl Print) -> anyhow::Result<()> {
    introduce(rt, "mute", &Mute)?;
    introduce(rt, "short", &ShortSpeller)?;
    introduce(rt, "debug", &DebugSpeller)
}
