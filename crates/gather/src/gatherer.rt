// What gathers.
ghost use Rattle.gather.specs.Filling.{Sounds};

use crate::collection::PropertyMangleCollection;
use crate::note::Shortfall;
use crate::starts::Starts;
use pages::Nodes;
use positions::PageOptions;

// Walks a page and fills both tables on its way. It is made by a literal: through a `new`, proofs lose what becomes of
// tables at a lifetime of their own.
#[derive(Drop)]
pub(crate) struct Gatherer<'w, 't, 'p> {
    pub(crate) nodes: Nodes<'p>,
    pub(crate) starts: Starts<'p>,
    pub(crate) options: PageOptions,
    pub(crate) into: &'w mut PropertyMangleCollection<'t>,
    pub(crate) lacks: Shortfall,
    ghost sounds: { Sounds into.now },
}
