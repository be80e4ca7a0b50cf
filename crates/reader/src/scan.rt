// One pass over a listing.
ghost use Rattle.std.specs.Prelude.{◌≡◌, ◌-◌, ◌<◌, length, MatchResult};
ghost use Rattle.grammar.specs.Scan.{run, at_start, ended, broke};
ghost use Rattle.reader.specs.View.{view, held, IsSame};

use crate::memory::Memory;
use crate::reader::Reader;

// Reads every byte, or up to the place of one that is unread.
pub(crate) fn scan(listing: &[u8], memory: &mut Memory) -> Result<Reader, usize>
    ensures same { IsSame memory.old memory.new }
    ensures read { MatchResult result
        (λ reader. run listing.now at_start (held memory.old) ≡ ended (view reader) (held memory.new))
        (λ place. (place < length listing.now) × (run listing.now at_start (held memory.old) ≡ broke (length listing.now - place))) }
{
    let mut reader = Reader::new();
    for (place, b) in listing.iter().enumerate() {
        let effect = reader.take(*b).map_err(|_| place)?;
        memory.add(effect);
    }
    Ok(reader)
}
