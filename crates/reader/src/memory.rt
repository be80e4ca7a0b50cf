// The rows and bytes that the caller lends.
ghost use Rattle.std.specs.Prelude.{◌≡◌, ◌&&◌, length, replicate, slice_set, nat_le, Ok};
ghost use Rattle.grammar.specs.Reading.{zero_row};
ghost use Rattle.grammar.specs.Scan.{applied};
ghost use Rattle.reader.specs.View.{effect_of, memory_of, held, IsSame};

use crate::Size;
use crate::open::Effect;
use pages::{CLEARED, Row, clear, is_within_limits};

#[derive(Drop)]
pub struct Memory<'a> {
    pub rows: &'a mut [Row],
    pub text: &'a mut [u8],
}

impl Memory<'_> {
    // Writes what a byte adds to the page; past the end of the memory, nothing.
    pub(crate) fn add(&mut self, effect: Effect)
        ensures same { IsSame self.old self.new }
        ensures after { held self.new ≡ applied (effect_of (Ok effect)) (held self.old) }
    {
        match effect {
            Effect::Quiet => {}
            Effect::Text(byte, at) => put(self.text, at, byte),
            Effect::Done(open) => put(self.rows, open.number, open.row),
        }
    }

    // Whether a page of this size has room, and keeps the limits.
    pub(crate) fn fits(&self, size: Size) -> bool
        ensures { result ≡ (nat_le size.nodes (length self.now.rows.now) && (nat_le size.bytes (length self.now.text.now) && (nat_le size.nodes 65536 && nat_le size.bytes 1048576))) }
    {
        size.nodes <= self.rows.len()
            && size.bytes <= self.text.len()
            && is_within_limits(size.nodes, size.bytes)
    }

    // Every row and byte becomes zero.
    pub(crate) fn clear(&mut self)
        ensures same { IsSame self.old self.new }
        ensures after { held self.new ≡ memory_of (replicate (length self.old.rows.now) zero_row) (replicate (length self.old.text.now) 0) }
    {
        clear(self.rows, CLEARED);
        clear(self.text, 0);
    }
}

// Writes one element; past the end, nothing. By index: after `get_mut` nothing is known of the elements.
fn put<T: Copy>(memory: &mut [T], at: usize, x: T)
    ensures { memory.new ≡ slice_set memory.old «at» x }
{
    if at < memory.len() {
        memory[at] = x;
    }
}
