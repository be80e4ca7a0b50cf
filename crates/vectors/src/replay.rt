// A listing is read, checked for what it leaves in memory, written, and read again.
use pages::{CLEARED, Kind, Nodes, Refusal, Row};
use reader::{Size, read};
use std::alloc::{AllocError, Global};
use writer::{write, written_len};

// What memory holds before a reading: no page has such rows or bytes.
const USED: Row = Row {
    kind: Kind::Bare,
    start: 7,
    children: 9,
    ..CLEARED
};

const USED_BYTE: u8 = 7;

// What comes of a listing.
#[derive(Drop)]
pub enum Outcome<'l> {
    // it is refused, and all memory is cleared
    Refused(Refusal<'l>),
    // it is read, memory past the page is as it was, and this is the written form, which reads back
    Read(Vec<u8>),
    // something that may not come of it
    Wrong,
}

fn all_are<T: PartialEq + Copy>(items: &[T], like: T) -> bool {
    items.iter().all(|x| *x == like)
}

// Whether a room that is too short by one byte is refused and left as it was.
fn wants_its_length(heap: Global, nodes: Nodes, len: usize) -> Result<bool, AllocError> {
    let mut short = vec![in heap; USED_BYTE; len.saturating_sub(1)]?;
    let refused = matches!(write(nodes, &mut short), Err(Refusal::Overfull));
    Ok(refused && all_are(&short, USED_BYTE))
}

// Whether a listing reads back into just as many rows and bytes, and is written again as it was.
fn reads_back(heap: Global, written: &[u8], size: Size) -> Result<bool, AllocError> {
    let mut rows = vec![in heap; USED; size.nodes]?;
    let mut text = vec![in heap; USED_BYTE; size.bytes]?;
    if read(written, &mut rows, &mut text).is_err() {
        return Ok(false);
    }
    let mut again = vec![in heap; USED_BYTE; written.len()]?;
    let (rows, text) = (&rows, &text);
    Ok(write(Nodes { rows, text }, &mut again).is_ok() && again.as_slice() == written)
}

// The written form of a page, with one byte past it that has to stay.
fn written_form(heap: Global, nodes: Nodes) -> Result<Vec<u8>, AllocError> {
    let len = written_len(nodes).unwrap_or(0);
    let mut out = vec![in heap; USED_BYTE; len.saturating_add(1)]?;
    let _ = write(nodes, &mut out);
    if out.last() == Some(&USED_BYTE) {
        out.truncate(len);
    }
    Ok(out)
}

// What comes of a page that was read.
fn rewritten<'l>(heap: Global, nodes: Nodes) -> Result<Outcome<'l>, AllocError> {
    let written = written_form(heap, nodes)?;
    let size = Size {
        nodes: nodes.rows.len(),
        bytes: nodes.text.len(),
    };
    if wants_its_length(heap, nodes, written.len())? && reads_back(heap, &written, size)? {
        return Ok(Outcome::Read(written));
    }
    Ok(Outcome::Wrong)
}

// What comes of reading a listing into so many rows and bytes.
pub fn replayed<'l>(
    heap: Global,
    listing: &'l [u8],
    room: Size,
) -> Result<Outcome<'l>, AllocError> {
    let mut rows = vec![in heap; USED; room.nodes]?;
    let mut text = vec![in heap; USED_BYTE; room.bytes]?;
    let outcome = match read(listing, &mut rows, &mut text) {
        Err(refusal) if all_are(&rows, CLEARED) && all_are(&text, 0) => Outcome::Refused(refusal),
        Ok(Size { nodes, bytes })
            if all_are(&rows[nodes..], USED) && all_are(&text[bytes..], USED_BYTE) => {
            let rows = &rows[..nodes];
            let text = &text[..bytes];
            rewritten(heap, Nodes { rows, text })?
        }
        _ => Outcome::Wrong,
    };
    Ok(outcome)
}
