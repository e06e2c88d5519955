// The sites of a tie: the left island's, then the right's, without the gateways.
ghost use Rattle.std.specs.Prelude.{◌≡◌, ◌-◌};
ghost use Rattle.tie_rules.specs.Reading.{border, meaning_of};
ghost use Rattle.tie.specs.Places.{PlacedAt};
ghost use Rattle.tie.specs.Reading.{tie_of};

use crate::state::Tie;
use manager::interface::Manager;

// Only so many sites are reachable.
pub(crate) const MOST_SITES: usize = 64;

// Where a site of the tie is: its island, and its number there. The islands differ in type, so a call matches on the place.
#[derive(Clone, Copy)]
pub(crate) enum Place {
    Left(usize),
    Right(usize),
}

impl<L: Manager, R: Manager, O: Manager> Tie<L, R, O> {
    // How many sites of the tie are the left island's; the right island's come after them.
    pub(crate) fn border(&self) -> usize
        ensures { result ≡ border L.Manager R.Manager O.Manager (tie_of self.now) }
    {
        self.left.gateway()
    }

    pub(crate) fn count_sites(&self) -> usize
        ensures { result ≡ (meaning_of L.Manager R.Manager O.Manager (tie_of self.now)).sites }
    {
        MOST_SITES.min(self.border() + self.right.gateway())
    }

    pub(crate) fn last_site(&self) -> usize
        ensures { result ≡ (meaning_of L.Manager R.Manager O.Manager (tie_of self.now)).sites - 1 }
    {
        self.count_sites() - 1
    }

    pub(crate) fn place(&self, site: usize) -> Place
        ensures { PlacedAt (border L.Manager R.Manager O.Manager (tie_of self.now)) site result }
    {
        let border = self.border();
        if site < border {
            Place::Left(site)
        } else {
            Place::Right(site - border)
        }
    }
}
