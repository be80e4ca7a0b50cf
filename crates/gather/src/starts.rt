// The places of a page, as a set of starts.
ghost use Rattle.std.specs.Prelude.{◌≡◌, nat_lt, Decides};
ghost use Rattle.positions.specs.Roles.{is_place};
ghost use Rattle.table.specs.Maps.{Ascending};
ghost use Rattle.gather.specs.Walking.{AscendIf};

use table::{Entry, look_up};

// The places of a page, and whether they ascend, as those of a table do: then a start is looked up among them.
// A flag, and no enum of ascending and other places: an enum has no ghost field for what the flag says of the places.
#[derive(Clone, Copy)]
pub(crate) struct Starts<'a> {
    pub(crate) places: &'a [Entry<u32, ()>],
    sorted: bool,
    ghost ascending: { AscendIf sorted places.now },
}

// Whether the places ascend.
fn is_ascending(places: &[Entry<u32, ()>]) -> bool
    ensures { Decides result (Ascending nat_lt places.now) }
{
    places.is_sorted_by(|place, next| place.key < next.key)
}

impl<'a> Starts<'a> {
    pub(crate) fn new(places: &'a [Entry<u32, ()>]) -> Starts<'a>
        ensures { result.places.now ≡ places.now }
    {
        Starts {
            places,
            sorted: is_ascending(places),
        }
    }

    // Whether a start is a place. Places that do not ascend are gone through one by one.
    pub(crate) fn has(self, start: u32) -> bool
        ensures { result ≡ is_place self.entry.places.now start }
    {
        if self.sorted {
            look_up(self.places, &start).is_some()
        } else {
            self.places.iter().any(|place| place.key == start)
        }
    }
}
