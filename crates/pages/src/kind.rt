// The kinds of a page's nodes.
ghost use Rattle.std.specs.Prelude.{◌≡◌};
ghost use Rattle.pages.specs.Kinds.{rule};

// `Node` is the zero kind: a cleared row has it.
#[derive(Clone, Copy, Debug, Default, PartialEq, Eq)]
pub enum Kind {
    #[default]
    Node,
    Name,
    Number,
    Key,
    Private,
    Jattr,
    String,
    Directive,
    Template,
    Paren,
    Cond,
    Seq,
    In,
    Default,
    Member,
    Jmember,
    Index,
    Slot,
    Prop,
    Bind,
    Full,
    Method,
    Field,
    Accessor,
    Bare,
}

// Whether a node has a text. `Childless`: maybe, and none if it has children.
#[derive(Clone, Copy, Debug, PartialEq, Eq)]
pub enum Texts {
    Never,
    Always,
    Maybe,
    Childless,
}

// What a kind is in the place of a key: a plain or private key, which stand nowhere else; a literal,
// which may be a key as it is; or an expression, which has to be computed.
#[derive(Clone, Copy, Debug, PartialEq, Eq)]
pub enum Standing {
    PlainKey,
    PrivateKey,
    Literal,
    Expression,
}

impl Kind {
    pub(crate) fn texts(self) -> Texts
        ensures { result ≡ (rule self).text }
    {
        match self {
            Kind::Name
            | Kind::Number
            | Kind::Key
            | Kind::Private
            | Kind::Jattr
            | Kind::Member
            | Kind::Jmember
            | Kind::Bare => Texts::Always,
            Kind::String | Kind::Directive => Texts::Maybe,
            Kind::Template => Texts::Childless,
            Kind::Node
            | Kind::Paren
            | Kind::Cond
            | Kind::Seq
            | Kind::In
            | Kind::Default
            | Kind::Index
            | Kind::Slot
            | Kind::Prop
            | Kind::Bind
            | Kind::Full
            | Kind::Method
            | Kind::Field
            | Kind::Accessor => Texts::Never,
        }
    }

    // The least number of children.
    pub(crate) fn least(self) -> usize
        ensures { result ≡ (rule self).least }
    {
        match self {
            Kind::Node
            | Kind::Name
            | Kind::Number
            | Kind::Key
            | Kind::Private
            | Kind::Jattr
            | Kind::String
            | Kind::Directive
            | Kind::Template
            | Kind::Bare => 0,
            Kind::Paren | Kind::Seq | Kind::Member | Kind::Jmember | Kind::Field | Kind::Accessor =>
                1,
            Kind::In
            | Kind::Default
            | Kind::Index
            | Kind::Slot
            | Kind::Prop
            | Kind::Bind
            | Kind::Full
            | Kind::Method => 2,
            Kind::Cond => 3,
        }
    }

    // The greatest number of children, if there is one.
    pub(crate) fn most(self) -> Option<usize>
        ensures { result ≡ (rule self).most }
    {
        match self {
            Kind::Node | Kind::Template | Kind::Seq => None,
            Kind::Name
            | Kind::Number
            | Kind::Key
            | Kind::Private
            | Kind::Jattr
            | Kind::String
            | Kind::Directive => Some(0),
            Kind::Paren | Kind::Member | Kind::Jmember | Kind::Bare => Some(1),
            Kind::In
            | Kind::Default
            | Kind::Index
            | Kind::Slot
            | Kind::Prop
            | Kind::Bind
            | Kind::Full
            | Kind::Method
            | Kind::Field
            | Kind::Accessor => Some(2),
            Kind::Cond => Some(3),
        }
    }

    pub(crate) fn takes_optional(self) -> bool
        ensures { result ≡ (rule self).optional }
    {
        matches!(self, Kind::Member | Kind::Index | Kind::Slot)
    }

    // The kinds that can be computed are those whose first child is a key.
    pub(crate) fn takes_computed(self) -> bool
        ensures { result ≡ (rule self).computed }
    {
        matches!(
            self,
            Kind::Prop | Kind::Bind | Kind::Full | Kind::Method | Kind::Field | Kind::Accessor
        )
    }

    pub(crate) fn takes_shorthand(self) -> bool
        ensures { result ≡ (rule self).shorthand }
    {
        matches!(self, Kind::Prop | Kind::Bind)
    }

    pub(crate) fn standing(self) -> Standing
        ensures { result ≡ (rule self).standing }
    {
        match self {
            Kind::Key => Standing::PlainKey,
            Kind::Private => Standing::PrivateKey,
            Kind::Number | Kind::String => Standing::Literal,
            _ => Standing::Expression,
        }
    }
}
