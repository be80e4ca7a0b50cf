// Writes a page as a listing.
#![tactic(auto)]

ghost use Rattle.std.specs.Prelude.{◌-◌, ◌^◌, length};
ghost use Rattle.pages.specs.Trees.{shown, tree};
ghost use Rattle.writer.specs.Walk.{Lists, Stands};
ghost use Rattle.writer.specs.Writing.{Listed, Measured};

use crate::output::{Full, Output};
use pages::{Nodes, Refusal, is_within_limits};

mod form;
mod label;
mod output;
mod pieces;

// Writes the listing of the page's tree with its last line end, and gives its length.
fn put_listing(nodes: Nodes<'_>, memory: &mut [u8], room: usize) -> Result<usize, Full>
    requires { Stands nodes.rows.now nodes.text.now 0 0 }
    ensures { (s : Stands nodes.entry.rows.now nodes.entry.text.now 0 0) → Lists (tree s.label s.forest) memory.old room memory.new result }
{
    let mut out = Output {
        memory,
        room,
        at: 0,
    };
    out.put_form(nodes, 0, 0)?;
    out.put(b'\n')?;
    Ok(out.at)
}

// The length of the listing, which has to fit the room. Nothing is written.
fn measure(nodes: Nodes<'_>, room: usize) -> Result<usize, Refusal<'_>>
    ensures { Measured (shown nodes.entry.text.now nodes.entry.rows.now) (length nodes.entry.rows.now) (length nodes.entry.text.now) room result }
{
    nodes.check_shape()?;
    if !is_within_limits(nodes.rows.len(), nodes.text.len()) {
        return Err(Refusal::Overfull);
    }
    put_listing(nodes, &mut [], room).or(Err(Refusal::Overfull))
}

// The length of the listing of a page.
pub fn written_len(nodes: Nodes<'_>) -> Result<usize, Refusal<'_>>
    ensures { Measured (shown nodes.entry.text.now nodes.entry.rows.now) (length nodes.entry.rows.now) (length nodes.entry.text.now) (2 ^ 64 - 1) result }
{
    measure(nodes, usize::MAX)
}

// Writes the listing of a page to the front of `out`, and gives its length.
pub fn write<'a>(nodes: Nodes<'a>, out: &mut [u8]) -> Result<usize, Refusal<'a>>
    ensures { Listed (shown nodes.entry.text.now nodes.entry.rows.now) (length nodes.entry.rows.now) (length nodes.entry.text.now) out.old out.new result }
{
    let len = measure(nodes, out.len())?;
    // It has room, since it was measured.
    let _ = put_listing(nodes, out, len);
    Ok(len)
}
