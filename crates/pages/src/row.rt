// A row holds one node of a page; rows stand parent first, children in order.
ghost use Rattle.std.specs.Prelude.{◌≡◌, ◌&&◌, nat_le};

use crate::kind::Kind;

// What a node may be marked with: optional (`o`), computed (`c`), shorthand (`s`).
#[derive(Clone, Copy, Debug, Default, PartialEq, Eq)]
pub struct Flags {
    pub optional: bool,
    pub computed: bool,
    pub shorthand: bool,
}

// A part of the page's text bytes. Its form is fixed by a rule of the project: an offset and a length, no reference.
#[derive(Clone, Copy, Debug, PartialEq, Eq)]
pub struct Part {
    pub offset: usize,
    pub length: usize,
}

// A node. Its form is fixed by a rule of the project: rows hold a tree parent first, each with its number of children.
#[derive(Clone, Copy, Debug, Default, PartialEq, Eq)]
pub struct Row {
    pub kind: Kind,
    pub flags: Flags,
    pub start: u32,
    pub text: Option<Part>,
    pub children: usize,
}

// The rows of a page's nodes, and the bytes in which their texts lie.
#[derive(Clone, Copy, Debug)]
pub struct Nodes<'a> {
    pub rows: &'a [Row],
    pub text: &'a [u8],
}

// The default values, for constants: a constant's value may not call `default`. No flag is set.
pub const NO_FLAGS: Flags = Flags {
    optional: false,
    computed: false,
    shorthand: false,
};

// A row with nothing in it: what a refused reading leaves everywhere.
pub const CLEARED: Row = Row {
    kind: Kind::Node,
    flags: NO_FLAGS,
    start: 0,
    text: None,
    children: 0,
};

// The deepest level on which a node may lie; the root's is 1.
pub const LEVEL_LIMIT: usize = 64;

// The most nodes that a tree has, and the most bytes that its text has.
pub const NODE_LIMIT: usize = 65_536;

pub const TEXT_LIMIT: usize = 1_048_576;

// Whether a page of so many nodes and text bytes keeps the limits on every page.
pub fn is_within_limits(nodes: usize, bytes: usize) -> bool
    ensures { result ≡ (nat_le nodes 65536 && nat_le bytes 1048576) }
{
    nodes <= NODE_LIMIT && bytes <= TEXT_LIMIT
}
