// Rows that no listing gives: the answers of the shape check, and of the writer past a limit.
use crate::answer::{Given, tell};
use pages::{CLEARED, Kind, Nodes, Part, Refusal, Row};
use writer::written_len;

const PAREN: Row = Row {
    kind: Kind::Paren,
    children: 1,
    ..CLEARED
};

fn node_with(children: usize) -> Row {
    Row {
        children,
        ..CLEARED
    }
}

fn name_over(offset: usize, length: usize) -> Row {
    Row {
        kind: Kind::Name,
        text: Some(Part { offset, length }),
        ..CLEARED
    }
}

// The answer of the shape check.
fn shape<'a>(rows: &'a [Row], text: &'a [u8]) -> Result<Given, Refusal<'a>> {
    let nodes = Nodes { rows, text };
    nodes.check_shape().map(|()| Given::Lawful)
}

// So many wrappers, one inside the other, and these rows inside.
fn tell_wrapped(
    rt: &(impl Print + AllocGlobal),
    what: &str,
    wrappers: usize,
    rows: &[Row],
) -> anyhow::Result<()> {
    let mut all = vec![in rt.alloc(); PAREN; wrappers]?;
    all.extend_from_slice(rows)?;
    tell(rt, what, shape(&all, b""))
}

fn ends(rt: &(impl Print + AllocGlobal)) -> anyhow::Result<()> {
    tell(rt, "no rows", shape(&[], b""))?;
    tell(rt, "a wrapper alone", shape(&[PAREN], b""))?;
    tell(
        rt,
        "more children than rows",
        shape(&[node_with(usize::MAX), node_with(0)], b""),
    )?;
    tell_wrapped(rt, "64 wrappers alone", 64, &[])?;
    tell(rt, "a left-over node", shape(&[node_with(0), PAREN], b""))?;
    tell(
        rt,
        "a left-over node after a child",
        shape(&[node_with(1), node_with(0), node_with(0)], b""),
    )
}

fn levels(rt: &(impl Print + AllocGlobal)) -> anyhow::Result<()> {
    tell_wrapped(rt, "level 64", 63, &[node_with(0)])?;
    tell_wrapped(rt, "level 65", 64, &[node_with(0)])?;
    tell_wrapped(
        rt,
        "level 65 before a misshapen node",
        64,
        &[node_with(1), PAREN],
    )?;
    tell_wrapped(rt, "a misshapen node on level 65", 64, &[name_over(1, 0)])
}

fn parts(rt: &impl Print) -> anyhow::Result<()> {
    let max = usize::MAX;
    for (what, offset, length) in [
        ("a text that is all of it", 0, 3),
        ("an empty text at the end", 3, 0),
        ("an empty text past the end", 4, 0),
        ("a text past the end", 1, 3),
        ("a text far past the end", max, max),
    ] {
        tell(rt, what, shape(&[name_over(offset, length)], b"abc"))?;
    }
    Ok(())
}

// The length of a page of so many nodes, with so many bytes of text.
fn tell_wide(
    rt: &(impl Print + AllocGlobal),
    what: &str,
    nodes: usize,
    bytes: usize,
) -> anyhow::Result<()> {
    let mut rows = vec![in rt.alloc(); CLEARED; nodes]?;
    if let Some(root) = rows.first_mut() {
        root.children = nodes.saturating_sub(1);
    }
    let text = vec![in rt.alloc(); 0u8; bytes]?;
    let length = written_len(Nodes {
        rows: &rows,
        text: &text,
    });
    tell(rt, what, length.map(Given::Length))
}

fn limits(rt: &(impl Print + AllocGlobal)) -> anyhow::Result<()> {
    for (what, nodes, bytes) in [
        ("65536 rows", 65_536, 0),
        ("65537 rows", 65_537, 0),
        ("1048576 bytes", 1, 1_048_576),
        ("1048577 bytes", 1, 1_048_577),
        ("a misshapen page past a limit", 0, 1_048_577),
    ] {
        tell_wide(rt, what, nodes, bytes)?;
    }
    Ok(())
}

pub fn shape_answers(rt: &(impl Print + AllocGlobal)) -> anyhow::Result<()> {
    ends(rt)?;
    levels(rt)?;
    parts(rt)?;
    limits(rt)
}
