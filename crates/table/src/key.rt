// What a key of a table owes.
ghost use Rattle.std.specs.Prelude.{◌≡◌, Bool, true, false, nat_lt};
ghost use Rattle.std.proofs.Common.{rules};

// A key has a strict order in which two keys may be equivalent, neither before the other, and yet differ:
// whatever is not before a key c has all before it that c has before it.
pub trait Key: Copy {
    ghost less: { Self → Self → Bool };

    // Whether this key is before the other.
    fn is_before(&self, other: &Self) -> bool
        ensures { result ≡ less self.now other.now };

    ghost irreflexive: { (a : Self) → less a a ≡ false };

    ghost transitive: { (a b c : Self) → less a b ≡ true → less b c ≡ true → less a c ≡ true };

    ghost comparable: { (a b c : Self) → less a c ≡ true → less b c ≡ false → less a b ≡ true };
}

// Numbers are keys in their order.
impl Key for u32 {
    ghost less = { nat_lt };

    ghost irreflexive = { Prim.search rules };

    ghost transitive = { Prim.search rules };

    ghost comparable = { Prim.search rules };

    fn is_before(&self, other: &u32) -> bool {
        *self < *other
    }
}

#[cfg(test)]
mod tests {
    use super::*;
    use crate::table::{Entry, Table};
    use std::test::Fail;

    // A key with an order that tells fewer keys apart than `==` does.
    #[derive(Clone, Copy, Debug, PartialEq, Eq, PartialOrd, Ord)]
    struct Tag {
        mark: u32,
        number: u32,
    }

    impl Key for Tag {
        ghost less = { λ a b. nat_lt a.number b.number };

        ghost irreflexive = { Prim.search rules };

        ghost transitive = { Prim.search rules };

        ghost comparable = { Prim.search rules };

        fn is_before(&self, other: &Tag) -> bool {
            self.number < other.number
        }
    }

    #[test]
    fn equivalent_keys_have_one_row(rt: HostRuntime) -> Result<(), Fail> {
        let first = Tag { mark: 2, number: 7 };
        let other = Tag { mark: 1, number: 7 };
        let mut entries = [Entry {
            key: first,
            value: 0u32,
        }; 2];
        let mut table = Table::new(&mut entries);
        let new = table.insert(first, 3);
        let again = table.insert(other, 4);
        let row = table.at(0);
        assert_eq!(rt; new, Ok(None));
        assert_eq!(rt; again, Ok(Some(3)));
        assert_eq!(rt;
            row,
            Some(Entry {
                key: first,
                value: 4
            })
        );
        Ok(())
    }
}
