// The names of the kinds, as listings spell them.
#![tactic(auto)]

ghost use Rattle.std.specs.Prelude.{◌≡◌};
ghost use Rattle.grammar.specs.Words.{word};

use pages::Kind;

// The name of a kind. A match to bytes and no `Display`: these bytes are compared by the reader and copied into lent
// memory by the writer, and nothing formats them.
pub fn kind_name(kind: Kind) -> &'static [u8]
    ensures { result.now ≡ word kind }
{
    match kind {
        Kind::Node => b"node",
        Kind::Name => b"name",
        Kind::Number => b"number",
        Kind::Key => b"key",
        Kind::Private => b"private",
        Kind::Jattr => b"jattr",
        Kind::String => b"string",
        Kind::Directive => b"directive",
        Kind::Template => b"template",
        Kind::Paren => b"paren",
        Kind::Cond => b"cond",
        Kind::Seq => b"seq",
        Kind::In => b"in",
        Kind::Default => b"default",
        Kind::Member => b"member",
        Kind::Jmember => b"jmember",
        Kind::Index => b"index",
        Kind::Slot => b"slot",
        Kind::Prop => b"prop",
        Kind::Bind => b"bind",
        Kind::Full => b"full",
        Kind::Method => b"method",
        Kind::Field => b"field",
        Kind::Accessor => b"accessor",
        Kind::Bare => b"bare",
    }
}
