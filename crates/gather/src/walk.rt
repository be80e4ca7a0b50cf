// The two walks over a page: plain, and as a key. Each walks a node with all below it, and gives the number of the row
// after that. They differ only in a constant; the project's rules have them as two functions that call each other.
// That a tree stands at the row stays a `requires`: it speaks of one row, and no value keeps it.
ghost use Rattle.std.specs.Prelude.{◌≢◌, false, true};
ghost use Rattle.pages.specs.Trees.{astray, text_in, tree};
ghost use Rattle.positions.specs.Roles.{counted_at, occupied_at};

use crate::gatherer::Gatherer;
use pages::{Refusal, Row};
use positions::{classify, is_walked_as_key};

impl<'p> Gatherer<'_, '_, 'p> {
    ghost use Rattle.gather.specs.Filling.{TakesIn};
    ghost use Rattle.gather.specs.Gatherers.{Kept, setting_of};
    ghost use Rattle.gather.specs.Walking.{Stands, Walks, position};

    // Counts and occupies the text of a row that is walked so, if it has one.
    fn visit(&mut self, row: Row, at: usize, as_key: bool) -> Result<(), Refusal<'p>>
        requires { text_in self.old.nodes.text.now row.text ≢ astray }
        ensures kept { Kept self.old self.new }
        ensures takes { TakesIn (counted_at (setting_of self.old) (position self.old.nodes.text.now row as_key)) (occupied_at (setting_of self.old) (position self.old.nodes.text.now row as_key)) «at» self.old.into.now self.new.into.now self.old.lacks self.new.lacks result }
    {
        let Some(part) = row.text else {
            return Ok(());
        };
        let role = classify(row.kind, self.starts.has(row.start), as_key, self.options);
        let text = &self.nodes.text[part.offset..part.offset + part.length];
        self.take_in(role, at, text)
    }

    // Walks a node and all below it, where the node is walked plain.
    #[cycle(key_walk_plain_walk)]
    pub(crate) fn plain_walk(&mut self, at: usize) -> Result<usize, Refusal<'p>>
        requires { Stands self.old.nodes.rows.now self.old.nodes.text.now «at» }
        ensures kept { Kept self.old self.new }
        ensures walks { (t : Stands self.old.nodes.rows.now self.old.nodes.text.now «at») → Walks (setting_of self.old) false (tree t.label t.forest) «at» self.old.into.now self.new.into.now self.old.lacks self.new.lacks result }
    {
        let row = self.nodes.rows[at];
        self.visit(row, at, false)?;
        let mut next = at + 1;
        for position in 0..row.children {
            next = if is_walked_as_key(false, row.kind, position, row.children) {
                self.key_walk(next)
            } else {
                self.plain_walk(next)
            }?;
        }
        Ok(next)
    }

    // Walks a node and all below it, where the node is walked as a key.
    #[cycle(key_walk_plain_walk)]
    fn key_walk(&mut self, at: usize) -> Result<usize, Refusal<'p>>
        requires { Stands self.old.nodes.rows.now self.old.nodes.text.now «at» }
        ensures kept { Kept self.old self.new }
        ensures walks { (t : Stands self.old.nodes.rows.now self.old.nodes.text.now «at») → Walks (setting_of self.old) true (tree t.label t.forest) «at» self.old.into.now self.new.into.now self.old.lacks self.new.lacks result }
    {
        let row = self.nodes.rows[at];
        self.visit(row, at, true)?;
        let mut next = at + 1;
        for position in 0..row.children {
            next = if is_walked_as_key(true, row.kind, position, row.children) {
                self.key_walk(next)
            } else {
                self.plain_walk(next)
            }?;
        }
        Ok(next)
    }
}
