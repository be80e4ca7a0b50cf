// Pins, kept and reserved names and places at the edges of their limits.
use crate::answer::{Given, tell};
use options::{ManglePropertyCache, Places, ReservedWords};
use table::Entry;

// Pins a name in so many rows, of which `x` has one.
fn tell_pinned(
    rt: &(impl Print + AllocGlobal),
    what: &str,
    room: usize,
    name: &[u8],
    target: &[u8],
) -> anyhow::Result<()> {
    let mut memory = vec![in rt.alloc(); Entry::default(); room]?;
    let mut cache = ManglePropertyCache::new(&mut memory);
    let _ = cache.pin(b"x", b"first");
    let answer = cache.pin(name, target);
    let rows = cache.table.len();
    tell(rt, what, answer.map(|()| Given::Rows(rows)))
}

fn tell_kept(
    rt: &(impl Print + AllocGlobal),
    what: &str,
    room: usize,
    name: &[u8],
) -> anyhow::Result<()> {
    let mut memory = vec![in rt.alloc(); Entry::default(); room]?;
    let mut cache = ManglePropertyCache::new(&mut memory);
    let answer = cache.keep(name);
    let rows = cache.table.len();
    tell(rt, what, answer.map(|()| Given::Rows(rows)))
}

// Reserves so many words, and then one more.
fn tell_reserved(
    rt: &(impl Print + AllocGlobal),
    what: &str,
    room: usize,
    words: u32,
    last: &[u8],
) -> anyhow::Result<()> {
    let mut memory = vec![in rt.alloc(); Entry::default(); room]?;
    let mut reserved = ReservedWords::new(&mut memory);
    for i in 0..words {
        let word = format!(in rt.alloc(); "w{i}")?;
        let _ = reserved.reserve(word.as_bytes());
    }
    let answer = reserved.reserve(last);
    let rows = reserved.table.len();
    tell(rt, what, answer.map(|()| Given::Rows(rows)))
}

// Adds the places from so many down to 1, and then one more.
fn tell_placed(
    rt: &(impl Print + AllocGlobal),
    what: &str,
    room: usize,
    count: u32,
    last: u32,
) -> anyhow::Result<()> {
    let mut memory = vec![in rt.alloc(); Entry::default(); room]?;
    let mut places = Places::new(&mut memory);
    for start in (1..=count).rev() {
        let _ = places.add(start);
    }
    let answer = places.add(last);
    let rows = places.table.len();
    tell(rt, what, answer.map(|()| Given::Rows(rows)))
}

fn pins(rt: &(impl Print + AllocGlobal)) -> anyhow::Result<()> {
    let most = vec![in rt.alloc(); b'a'; 255]?;
    let long = vec![in rt.alloc(); b'a'; 256]?;
    let cases: [(&str, usize, &[u8], &[u8]); 15] = [
        ("a name of 255 bytes", 9, &most, b"b"),
        ("a name of 256 bytes", 9, &long, b"b"),
        ("a pin of 255 bytes", 9, b"y", &most),
        ("a foreign name with a pin of 256 bytes", 9, b"\xff", &long),
        ("byte 127", 9, b"\x7f", b"b"),
        ("byte 128", 9, b"\x80", b"b"),
        ("a foreign pin", 9, b"y", b"\x80"),
        ("a pin that is no identifier name", 9, b"y", b"1"),
        ("an empty pin", 9, b"y", b""),
        ("a hard pin", 9, b"y", b"constructor"),
        ("a hard name", 9, b"constructor", b"b"),
        ("an empty name", 9, b"", b"b"),
        ("the last free row", 2, b"y", b"b"),
        ("no free row", 1, b"y", b"b"),
        ("no free row, and a name that is there", 1, b"x", b"b"),
    ];
    for (what, room, name, target) in cases {
        tell_pinned(rt, what, room, name, target)?;
    }
    Ok(())
}

pub fn option_answers(rt: &(impl Print + AllocGlobal)) -> anyhow::Result<()> {
    pins(rt)?;
    tell_kept(rt, "no rows at all", 0, b"x")?;
    tell_kept(rt, "a kept name", 1, b"x")?;
    tell_kept(rt, "a kept foreign name", 0, b"\x80")?;
    tell_reserved(rt, "the 1024th reserved word", 2_000, 1_023, b"last")?;
    tell_reserved(rt, "a 1025th reserved word", 2_000, 1_024, b"last")?;
    tell_reserved(rt, "a reserved word again", 1_024, 1_024, b"w7")?;
    tell_placed(rt, "the 4096th place", 5_000, 4_095, 9_999)?;
    tell_placed(rt, "a 4097th place", 5_000, 4_096, 9_999)?;
    tell_placed(rt, "a place again", 4_096, 4_096, 7)
}
