// Adding one name or text to what is gathered.
ghost use Rattle.std.specs.Prelude.{◌≡◌, ◌||◌, [], ◌∷◌, MatchResult};
ghost use Rattle.names.specs.Names.{before, name_of};
ghost use Rattle.gather.specs.Faults.{Right, Wrong};
ghost use Rattle.gather.specs.Filling.{Fills};
ghost use Rattle.pages.specs.Trees.{bytes};
ghost use Rattle.positions.specs.Roles.{text_if};
ghost use Rattle.table.specs.Rows.{Sound};

use crate::collection::ROW_LIMIT;
use crate::gatherer::Gatherer;
use names::Name;
use numerals::is_long_number;
use options::checked_name;
use pages::Refusal;
use positions::Role;
use table::Table;
use tally::{Sum, add};

// Whether there was no room for a name, and for a text. What has no room is refused only where nothing is wrong with any
// name of the page, so the walk goes on.
#[derive(Clone, Copy, Debug, Default)]
pub(crate) struct Shortfall {
    pub(crate) names: bool,
    pub(crate) texts: bool,
}

impl Shortfall {
    pub(crate) fn is_any(self) -> bool
        ensures { result ≡ (self.names || self.texts) }
    {
        self.names || self.texts
    }
}

// Adds a value to what a name has, unless there was no room for another one. A table that is full is not searched again.
fn note<V: Sum>(table: &mut Table<Name, V>, full: &mut bool, name: Name, value: V)
    requires { Sound before table.old }
    ensures { Fills V.Sum.sum value (name ∷ []) table.old table.new full.old full.new }
{
    if !*full {
        *full = add(table, ROW_LIMIT, name, value).is_err();
    }
}

// The record of a name that is to be counted at a node, or what is wrong with it. Node and text go side by side: the
// node is only told where the text is refused.
fn name_to_count<'b>(node: usize, text: &[u8]) -> Result<Name, Refusal<'b>>
    ensures { MatchResult result (λ name. (name ≡ name_of text.now) × Right text.now) (λ refusal. Wrong node text.now refusal) }
{
    let name = checked_name(node, text)?;
    if is_long_number(text) {
        return Err(Refusal::LongNumber(node));
    }
    Ok(name)
}

impl<'p> Gatherer<'_, '_, 'p> {
    ghost use Rattle.gather.specs.Filling.{Counts, Moves, TakesIn};
    ghost use Rattle.gather.specs.Gatherers.{Kept};

    // Counts a name of a node, unless there was no room for another one.
    fn count(&mut self, node: usize, text: &[u8]) -> Result<(), Refusal<'p>>
        ensures kept { Kept self.old self.new }
        ensures counts { Counts (text.now ∷ []) node self.old.into.now self.new.into.now self.old.lacks self.new.lacks result }
    {
        let name = name_to_count(node, text)?;
        note(&mut self.into.frequencies, &mut self.lacks.names, name, 1);
        Ok(())
    }

    // Occupies a text that can be a name, unless there was no room for another one.
    fn occupy(&mut self, text: &[u8])
        ensures kept { Kept self.old self.new }
        ensures moves { Moves [] (text.now ∷ []) self.old.into.now self.new.into.now self.old.lacks self.new.lacks }
    {
        if let Some(name) = Name::new(text) {
            note(&mut self.into.occupied, &mut self.lacks.texts, name, ());
        }
    }

    // Counts and occupies a text by its role.
    pub(crate) fn take_in(
        &mut self,
        role: Role,
        node: usize,
        text: &[u8],
    ) -> Result<(), Refusal<'p>>
        ensures kept { Kept self.old self.new }
        ensures takes { TakesIn (text_if role.counted (bytes text.now)) (text_if role.occupied (bytes text.now)) node self.old.into.now self.new.into.now self.old.lacks self.new.lacks result }
    {
        if role.counted {
            self.count(node, text)?;
        }
        if role.occupied {
            self.occupy(text);
        }
        Ok(())
    }
}
