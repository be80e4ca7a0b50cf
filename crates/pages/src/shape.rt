// Which rows form a lawful tree.
ghost use Rattle.std.specs.Prelude.{◌≡◌, ℕ, ◌+◌, List, length, MatchResult, nat_le};
ghost use Rattle.pages.specs.Kinds.{rule};
ghost use Rattle.pages.specs.Pending.{Passes, Stops};
ghost use Rattle.pages.specs.Refusals.{Checked};
ghost use Rattle.pages.specs.Shape.{count_right, flags_right, key_right, off_key, place_right, shapely, text_right};
ghost use Rattle.pages.specs.Trees.{bytes, shown, shows, text_in};

use crate::kind::{Kind, Standing, Texts};
use crate::refusal::Refusal;
use crate::row::{Flags, LEVEL_LIMIT, Nodes, Part, Row};

// Where a node stands: at the root, or as a child of a node, counted from 0.
#[derive(Clone, Copy, Debug, PartialEq, Eq)]
pub enum Place {
    Root,
    Child(Kind, Flags, usize),
}

// Away from a key's place.
fn is_right_off_key(standing: Standing) -> bool
    ensures { result ≡ off_key standing }
{
    matches!(standing, Standing::Literal | Standing::Expression)
}

// As the key of a node with these flags: any expression if it is computed, else a literal; a plain key in a shorthand.
fn is_key_right(flags: Flags, standing: Standing) -> bool
    ensures { result ≡ key_right flags standing }
{
    let right = if flags.computed {
        is_right_off_key(standing)
    } else {
        standing != Standing::Expression
    };
    right && (!flags.shorthand || standing == Standing::PlainKey)
}

fn is_place_right(place: Place, kind: Kind) -> bool
    ensures { result ≡ place_right place kind }
{
    match place {
        Place::Child(parent, flags, 0) if parent.takes_computed() => {
            is_key_right(flags, kind.standing())
        }
        _ => is_right_off_key(kind.standing()),
    }
}

// Offset and length may add up to more than a `usize` holds.
fn lies_within(part: Part, text_len: usize) -> bool
    ensures { result ≡ nat_le (part.offset + part.length) text_len }
{
    part.offset
        .checked_add(part.length)
        .is_some_and(|end| end <= text_len)
}

fn may_have_text(texts: Texts, children: usize) -> bool
    ensures { (s : List ℕ) → result ≡ text_right texts children (bytes s) }
{
    match texts {
        Texts::Never => false,
        Texts::Always | Texts::Maybe => true,
        Texts::Childless => children == 0,
    }
}

fn is_text_right(texts: Texts, children: usize, text: Option<Part>, text_len: usize) -> bool
    ensures { (s : List ℕ) → length s ≡ text_len → result ≡ text_right texts children (text_in s text) }
{
    match text {
        None => texts != Texts::Always,
        Some(part) => lies_within(part, text_len) && may_have_text(texts, children),
    }
}

fn is_count_right(kind: Kind, children: usize) -> bool
    ensures { result ≡ count_right (rule kind) children }
{
    kind.least() <= children && kind.most().is_none_or(|most| children <= most)
}

fn are_flags_right(kind: Kind, flags: Flags) -> bool
    ensures { result ≡ flags_right (rule kind) flags }
{
    (!flags.optional || kind.takes_optional())
        && (!flags.computed || kind.takes_computed())
        && (!flags.shorthand || kind.takes_shorthand())
}

// Whether the row keeps every rule but that on levels, over any text of this length.
pub fn is_shapely(place: Place, row: &Row, text_len: usize) -> bool
    ensures { (s : List ℕ) (level : ℕ) → length s ≡ text_len → result ≡ shapely (record { place = place; level = level; node = shows s row.now }) }
{
    is_place_right(place, row.kind)
        && is_text_right(row.kind.texts(), row.children, row.text, text_len)
        && is_count_right(row.kind, row.children)
        && are_flags_right(row.kind, row.flags)
}

impl<'a> Nodes<'a> {
    // Whether the rows, over this text, form a lawful tree; else the first node at which they do not.
    pub fn check_shape(self) -> Result<(), Refusal<'a>>
        ensures { Checked (shown self.entry.text.now self.entry.rows.now) result }
    {
        let next = self.subtree(0, Place::Root, 1)?;
        if next < self.rows.len() {
            Err(Refusal::Misshapen(next))
        } else {
            Ok(())
        }
    }

    // The number of the row after the subtree that begins with the row `at`, whose node stands in this place.
    fn subtree(self, at: usize, place: Place, level: usize) -> Result<usize, Refusal<'a>>
        ensures { MatchResult result (Passes (shown self.entry.text.now self.entry.rows.now) place level «at») (Stops (shown self.entry.text.now self.entry.rows.now) place level «at») }
    {
        let row = self.rows.get(at).ok_or(Refusal::Misshapen(at))?;
        if !is_shapely(place, row, self.text.len()) {
            return Err(Refusal::Misshapen(at));
        }
        if level > LEVEL_LIMIT {
            return Err(Refusal::Deep(at));
        }
        let mut next = at + 1;
        for position in 0..row.children {
            let child = Place::Child(row.kind, row.flags, position);
            next = self.subtree(next, child, level + 1)?;
        }
        Ok(next)
    }
}
