// Names are keys of tables, in the order of their bytes.
ghost use Rattle.names.specs.Names.{bytes_of};
ghost use Rattle.names.specs.Order.{less};
ghost use Rattle.names.specs.Laws.{less_irreflexive, less_transitive, less_before_others};

use crate::name::Name;
use table::Key;

impl Key for Name {
    ghost less = { λ a b. less (bytes_of a) (bytes_of b) };

    ghost irreflexive = { λ a. less_irreflexive (bytes_of a) };

    ghost transitive = { λ a b c. less_transitive (bytes_of a) (bytes_of b) (bytes_of c) };

    ghost comparable = { λ a b c. less_before_others (bytes_of a) (bytes_of b) (bytes_of c) };

    fn is_before(&self, other: &Name) -> bool {
        self.cmp(other).is_lt()
    }
}
