// Which children are walked as keys. The rules' table is read by a parent's kind and a position, each for itself: a type
// of the two would have no other use.
ghost use Rattle.std.specs.Prelude.{◌≡◌};
ghost use Rattle.positions.specs.Walks.{child_walk, key_child, passes_on};

use pages::Kind;

// Whether the child in a position is walked as a key however its parent is walked.
fn is_key_child(parent: Kind, position: usize) -> bool
    ensures { result ≡ key_child parent position }
{
    match parent {
        Kind::Index | Kind::Slot => position == 1,
        Kind::In
        | Kind::Prop
        | Kind::Bind
        | Kind::Full
        | Kind::Method
        | Kind::Field
        | Kind::Accessor => position == 0,
        _ => false,
    }
}

// Whether a node that is walked as a key passes that on to the child in a position.
fn passes_on(parent: Kind, position: usize, children: usize) -> bool
    ensures { result ≡ passes_on parent position children }
{
    match parent {
        Kind::Paren => true,
        Kind::Cond => position >= 1,
        Kind::Seq => children.checked_sub(1) == Some(position),
        _ => false,
    }
}

// Whether the child in a position is walked as a key, where its parent is or is not.
pub fn is_walked_as_key(parent_as_key: bool, parent: Kind, position: usize, children: usize) -> bool
    ensures { result ≡ child_walk parent_as_key parent position children }
{
    is_key_child(parent, position) || (parent_as_key && passes_on(parent, position, children))
}
