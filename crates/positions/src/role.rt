// What a position is to the names of a page.
ghost use Rattle.std.specs.Prelude.{◌≡◌};
ghost use Rattle.positions.specs.Roles as rules;

use crate::page::PageOptions;
use pages::Kind;

// Whether a position's text is a name to count, and whether it keeps its spelling from being given to another. The
// default is neither.
#[derive(Clone, Copy, Debug, Default, PartialEq, Eq)]
pub struct Role {
    pub counted: bool,
    pub occupied: bool,
}

// The text of a property's name.
const PROPERTY: Role = Role {
    counted: true,
    occupied: false,
};

// A literal, by whether its start is a place and whether it is walked as a key.
fn literal_role(at_place: bool, as_key: bool, options: PageOptions) -> Role
    ensures { result ≡ rules.literal at_place as_key options }
{
    if at_place {
        PROPERTY
    } else {
        Role {
            counted: as_key && options.mangle_quoted,
            occupied: true,
        }
    }
}

// What the text of a node is, by its kind, whether its start is a place, and whether it is walked as a key.
pub fn classify(kind: Kind, at_place: bool, as_key: bool, options: PageOptions) -> Role
    ensures { result ≡ rules.role kind at_place as_key options }
{
    match kind {
        Kind::Member | Kind::Bare | Kind::Key | Kind::Jattr | Kind::Jmember => PROPERTY,
        Kind::String | Kind::Template => literal_role(at_place, as_key, options),
        Kind::Number => Role {
            occupied: as_key,
            ..Role::default()
        },
        Kind::Directive => Role {
            occupied: true,
            ..Role::default()
        },
        _ => Role::default(),
    }
}
