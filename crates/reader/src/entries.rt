// The reader's fields, and its innermost entry.
ghost use Rattle.std.specs.Prelude.{◌≡◌, ◌≢◌, ◌-◌, ◌^◌, ◌<◌, ◌∷◌, true, false, MatchOption};
ghost use Rattle.grammar.specs.Scan.{after, grown, at_start};
ghost use Rattle.reader.specs.View.{view, open_of, unwound};
ghost use Rattle.reader.specs.Changes.{Changeable, Changed};

use crate::open::{Open, State};
use crate::reader::Reader;
use pages::{CLEARED, LEVEL_LIMIT, Part, Row};

impl Reader {
    // A reader before its first byte.
    pub(crate) fn new() -> Reader
        ensures { view result ≡ at_start }
    {
        Reader {
            state: State::Before,
            stack: [Open {
                row: CLEARED,
                number: 0,
            }; LEVEL_LIMIT],
            depth: 0,
            nodes: 0,
            bytes: 0,
            fault: None,
        }
    }

    // Whether the root's bracket has closed.
    pub(crate) fn is_done(&self) -> bool
        ensures { elim result [ true ↦ (view self.now).phase ≡ after | false ↦ ((view self.now).phase ≢ after) ] }
    {
        matches!(self.state, State::After)
    }

    // The innermost of the open brackets.
    pub(crate) fn innermost(&self) -> Option<&Open>
        ensures { MatchOption result (self.now.depth ≡ 0) (λ e. (0 < self.now.depth) × (unwound self.now.depth self.now.stack ≡ open_of e.now ∷ unwound (self.now.depth - 1) self.now.stack)) }
    {
        self.stack[..self.depth].last()
    }

    // Changes the row of the innermost bracket in place; where none is open, nothing. By index: `last_mut` of
    // a part of a field is not covered where the struct has a ghost field.
    pub(crate) fn change<F: FnOnce(&mut Row)>(&mut self, f: F)
        requires { Changeable F.FnOnce f self.old }
        ensures depth { self.new.depth ≡ self.old.depth }
        ensures after { Changed F.FnOnce f self.old self.new }
    {
        if self.depth > 0 {
            f(&mut self.stack[self.depth - 1].row);
        }
    }
}

// A text's part, longer by one byte.
pub(crate) fn grown(text: Option<Part>) -> Part
    requires { (grown text).length < 2 ^ 64 }
    ensures { result ≡ grown text }
{
    let first = Part {
        offset: 0,
        length: 1,
    };
    text.map_or(
        first,
        |part| Part {
            length: part.length + 1,
            ..part
        },
    )
}
