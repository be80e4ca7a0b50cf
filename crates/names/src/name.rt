// A name by value: it borrows nothing.
ghost use Rattle.std.specs.Prelude.{◌≡◌, ℕ, ◌≤◌, false, List, [], ◌++◌, length, drop, Decides};
ghost use Rattle.std.specs.Str.{bytes_eq};
ghost use Rattle.std.specs.Ordering.{as_partial_cmp, is_lt, nat_cmp, on};
ghost use Rattle.std.specs.Cmp.{partial_order_from_own_ties};
ghost use Rattle.std.specs.Cmp.Lexicographic.{slice_cmp};
ghost use Rattle.std.specs.Cmp.Rules.{comparing};
ghost use Rattle.std.proofs.Common.{rules};
ghost use Rattle.names.specs.Names.{made_of, bytes_of, name_of};
ghost use Rattle.names.specs.Order.{less};

use std::cmp::Ordering;

// The most bytes that a name has.
pub const NAME_LIMIT: usize = 255;

// The first `len` bytes are the name; those past them are zero in every name that is made here. A name is a key of
// tables in lent memory, so it is a record by value, with no reference to text elsewhere.
#[derive(Clone, Copy)]
pub struct Name {
    pub(crate) bytes: [u8; NAME_LIMIT],
    pub(crate) len: u8,
}

// The name with no bytes: what a cleared entry of a table has for its key. For constants: a constant's value may not
// call `default`. Names are made from its zeros.
pub const NAMELESS: Name = Name {
    bytes: [0; NAME_LIMIT],
    len: 0,
};

// Writes a text over the first of the bytes.
fn put_first(bytes: &mut [u8], text: &[u8])
    requires { length text.now ≤ length bytes.old }
    ensures { bytes.new ≡ text.now ++ drop (length text.now) bytes.old }
{
    bytes[..text.len()].copy_from_slice(text);
}

impl Name {
    // The name with these bytes; none where there are too many.
    pub fn new(text: &[u8]) -> Option<Name>
        ensures { result ≡ made_of text.now }
    {
        if text.len() > NAME_LIMIT {
            return None;
        }
        let mut bytes = [0; NAME_LIMIT];
        put_first(&mut bytes, text);
        Some(Name {
            bytes,
            len: text.len() as u8,
        })
    }

    pub fn as_bytes(&self) -> &[u8]
        ensures { result.now ≡ bytes_of self.now }
    {
        let len = usize::from(self.len);
        &self.bytes[..len]
    }

    // The name that begins with this one and goes on with these bytes; none where there are too many.
    pub fn followed_by(&self, text: &[u8]) -> Option<Name>
        ensures { result ≡ made_of (bytes_of self.now ++ text.now) }
    {
        let start = usize::from(self.len);
        if text.len() > NAME_LIMIT - start {
            return None;
        }
        let end = start + text.len();
        let mut bytes = NAMELESS.bytes;
        put_first(&mut bytes, self.as_bytes());
        put_first(&mut bytes[start..], text);
        Some(Name {
            bytes,
            len: end as u8,
        })
    }

    // Whether the name has these bytes.
    pub fn is(&self, text: &[u8]) -> bool
        ensures { Decides result (bytes_of self.now ≡ text.now) }
    {
        self.as_bytes() == text
    }
}

// Names are equal where their bytes are. A derive would compare the bytes past the length too.
impl PartialEq for Name {
    ghost eq = { on bytes_of bytes_eq };

    ghost laws = { Prim.search (comparing, rules) };

    fn eq(&self, other: &Name) -> bool {
        self.as_bytes() == other.as_bytes()
    }
}

impl Eq for Name {
    ghost laws = { Prim.search (comparing, rules) };
}

// Names stand in the order of their bytes: the first difference decides. The order is total: of two names with
// different bytes, one stands before the other. A derive would compare the bytes past the length too.
impl Ord for Name {
    ghost cmp = { on bytes_of (slice_cmp nat_cmp) };

    ghost total = { Prim.search (comparing, rules) };

    ghost matches_partial_cmp = { Prim.search (comparing, rules) };

    ghost matches_eq = { Prim.search (comparing, rules) };

    fn cmp(&self, other: &Name) -> Ordering
        ensures answer { result ≡ slice_cmp nat_cmp (bytes_of self.now) (bytes_of other.now) }
        ensures before { is_lt result ≡ less (bytes_of self.now) (bytes_of other.now) }
        ensures total { (a b : List ℕ) → less a b ≡ false → less b a ≡ false → a ≡ b }
    {
        self.as_bytes().cmp(other.as_bytes())
    }
}

impl PartialOrd for Name {
    ghost partial_cmp = { as_partial_cmp (on bytes_of (slice_cmp nat_cmp)) };

    ghost laws = { partial_order_from_own_ties (Prim.search (comparing, rules)) (Prim.search (comparing, rules)) };

    fn partial_cmp(&self, other: &Name) -> Option<Ordering> {
        Some(self.cmp(other))
    }
}

// The name with no bytes. A derive would say of each byte that it is 0, and callers want the whole record.
impl Default for Name {
    ghost is_default = { λ name. name ≡ name_of [] };

    fn default() -> Name {
        NAMELESS
    }
}
