// Reads a page listing: one pass over any bytes, into rows and text that the caller lends.
#![tactic(auto)]

ghost use Rattle.std.specs.Prelude.{◌≤◌, length, IfOk};
ghost use Rattle.reader.specs.Reads.{Reads, Finds};
ghost use Rattle.reader.specs.View.{IsSame};

use memory::Memory;
use pages::{Refusal, Row};
use scan::scan;

mod entries;
mod memory;
mod open;
mod reader;
mod scan;
mod steps;
mod word;

// How much of the lent memory a page takes: its first rows, and its first bytes.
#[derive(Clone, Copy, Debug, PartialEq, Eq)]
pub struct Size {
    pub nodes: usize,
    pub bytes: usize,
}

// Reads into the memory; a refusal leaves anything there, and borrows nothing from the listing.
fn fill(listing: &[u8], memory: &mut Memory) -> Result<Size, Refusal<'static>>
    ensures same { IsSame memory.old memory.new }
    ensures finds { Finds listing.now memory.old.rows.now memory.old.text.now result memory.new.rows.now memory.new.text.now }
{
    let reader = scan(listing, memory).map_err(|place| Refusal::Unread(place))?;
    if !reader.is_done() {
        return Err(Refusal::Unread(listing.len()));
    }
    if let Some(node) = reader.fault {
        return Err(Refusal::Misshapen(node));
    }
    let size = Size {
        nodes: reader.nodes,
        bytes: reader.bytes,
    };
    if memory.fits(size) {
        Ok(size)
    } else {
        Err(Refusal::Overfull)
    }
}

// Reads a listing into the first rows and bytes of the memory. A refusal leaves all of it zero.
pub fn read<'a>(listing: &'a [u8], rows: &mut [Row], text: &mut [u8]) -> Result<Size, Refusal<'a>>
    ensures reads { Reads listing.now rows.old text.old result rows.new text.new }
    ensures within { IfOk result (λ size. (size.nodes ≤ length rows.old) × (size.bytes ≤ length text.old)) }
{
    let mut memory = Memory { rows, text };
    // Not by `inspect_err`: what its closure borrowed is not known again where it was not called.
    let found = fill(listing, &mut memory);
    if found.is_err() {
        memory.clear();
    }
    found
}
