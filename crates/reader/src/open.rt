// What the reader waits for, and what it keeps of each open bracket.
use crate::word::Word;
use pages::Row;

// What the reader waits for.
#[derive(Clone, Copy, Debug)]
pub enum State {
    // the root's bracket
    Before,
    // a kind's first letter
    Opened,
    // more of a kind's name
    Word(Word),
    // the `@`
    Named,
    // a start's first digit
    Starting,
    // more digits
    Start,
    // flags, a text, children or the end
    Started,
    // more flags
    Flags,
    // a text, children or the end
    Flagged,
    // more of a text
    Text,
    // what a backslash stands before
    Escape,
    // the second digit, after this first one
    Hex(u8),
    // children or the end
    Inside,
    // nothing more
    After,
}

// An open bracket: its row so far, and its node's number.
#[derive(Clone, Copy, Debug)]
pub struct Open {
    pub row: Row,
    pub number: usize,
}

// What a byte adds to the page.
#[derive(Clone, Copy, Debug)]
pub enum Effect {
    Quiet,
    // a text byte, and its place
    Text(u8, usize),
    // the row of a node, with its number
    Done(Open),
}

// No listing goes on with the byte.
#[derive(Clone, Copy, Debug, PartialEq, Eq)]
pub struct Unread;
