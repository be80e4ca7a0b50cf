// Gathering a page.
ghost use Rattle.std.specs.Prelude.{◌≡◌, ◌&&◌, length, nat_le};
ghost use Rattle.pages.specs.Trees.{shown, tree};
ghost use Rattle.gather.specs.Filling.{BothLent};
ghost use Rattle.gather.specs.Gathering.{Emptied, Finds, Gathers, WalksWhole, size};
ghost use Rattle.gather.specs.Walking.{Stands, setting};

use crate::collection::PropertyMangleCollection;
use crate::gatherer::Gatherer;
use crate::note::Shortfall;
use crate::starts::Starts;
use names::Name;
use options::PLACE_LIMIT;
use pages::{Nodes, Refusal, clear, is_within_limits};
use positions::Page;
use table::{Entry, Table};

// Whether a page is under the limits on every page, and on its places.
fn keeps_limits(page: &Page) -> bool
    ensures { result ≡ ((nat_le (length page.now.rows.now) 65536 && nat_le (length page.now.text.now) 1048576) && nat_le (length page.now.places.now) 4096) }
{
    is_within_limits(page.rows.len(), page.text.len()) && page.places.len() <= PLACE_LIMIT
}

// Takes all rows out of a table, and writes zeros over its memory.
fn empty<V: Copy + Default>(table: &mut Table<Name, V>)
    ensures { (zero : V) × V.is_default zero × Emptied zero table.old table.new }
{
    clear(table.entries, Entry::default());
    table.clear();
}

impl PropertyMangleCollection<'_> {
    // Walks a page whose rows form a lawful tree, and fills both tables from their beginning on. What has no room is told
    // last.
    fn fill<'p>(&mut self, page: &Page<'p>) -> Result<(), Refusal<'p>>
        requires { Stands page.now.rows.now page.now.text.now 0 }
        ensures { (t : Stands page.now.rows.now page.now.text.now 0) → WalksWhole page.now (tree t.label t.forest) self.old self.new result }
    {
        self.frequencies.clear();
        self.occupied.clear();
        let mut gatherer = Gatherer {
            nodes: Nodes {
                rows: page.rows,
                text: page.text,
            },
            starts: Starts::new(page.places),
            options: page.options,
            into: self,
            lacks: Shortfall::default(),
        };
        gatherer.plain_walk(0)?;
        if gatherer.lacks.is_any() || !keeps_limits(page) {
            return Err(Refusal::Overfull);
        }
        Ok(())
    }

    // Fills both tables, or tells why not; a refusal leaves anything in them.
    fn find<'p>(&mut self, page: &Page<'p>) -> Result<(), Refusal<'p>>
        ensures { Finds page.now self.old self.new result }
    {
        let nodes = Nodes {
            rows: page.rows,
            text: page.text,
        };
        nodes.check_shape()?;
        self.fill(page)
    }

    // Fills both tables with what the page counts and occupies, from their beginning on; a refusal leaves them empty.
    pub fn gather<'p>(&mut self, page: &Page<'p>) -> Result<(), Refusal<'p>>
        ensures lent { BothLent self.old self.new }
        ensures gathers { Gathers (setting page.now) (shown page.now.text.now page.now.rows.now) (size page.now self.old) self.old self.new result }
    {
        // Not by `inspect_err`: what its closure borrowed is not known again where it was not called.
        let found = self.find(page);
        if found.is_err() {
            empty(&mut self.frequencies);
            empty(&mut self.occupied);
        }
        found
    }
}
