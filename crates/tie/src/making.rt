// How a tie is made, and how it begins anew.
ghost use Rattle.std.specs.Prelude.{◌-◌, ◌<◌};
ghost use Rattle.tie_rules.specs.Invariant.{Sound};
ghost use Rattle.tie_rules.specs.Reading.{meaning_of};
ghost use Rattle.tie_rules.specs.Rules.{Parks};
ghost use Rattle.tie.specs.Reading.{tie_of, untied};

use crate::side::{Side, park_at};
use crate::sites::Place;
use crate::state::Tie;
use gateway::Gateway;
use manager::interface::Manager;

impl<L: Manager, R: Manager, O: Manager> Tie<L, R, O> {
    // A tie of two islands and an outer manager, parked at its last site.
    pub fn new(left: L, right: R, outer: O) -> Tie<L, R, O>
        ensures parked { Parks L.Manager R.Manager O.Manager (untied left right outer) ((meaning_of L.Manager R.Manager O.Manager (untied left right outer)).sites - 1) (tie_of result) }
        ensures sound { Sound L.Manager R.Manager O.Manager (tie_of result) }
    {
        let mut tie = Tie {
            left: Side {
                island: left,
                gate: Gateway::Out,
            },
            right: Side {
                island: right,
                gate: Gateway::Out,
            },
            outer,
            age: 0,
        };
        let last = tie.last_site();
        tie.begin_at(last);
        tie
    }

    // Parks at a site: its island there, the other island at its gateway, and the outer manager at the site's side.
    pub(crate) fn begin_at(&mut self, site: usize)
        requires { site < (meaning_of L.Manager R.Manager O.Manager (tie_of self.old)).sites }
        ensures { Parks L.Manager R.Manager O.Manager (tie_of self.old) site (tie_of self.new) }
    {
        self.age = 0;
        match self.place(site) {
            Place::Left(site) => {
                self.left.park_in(site);
                self.right.park_out();
                park_at(&mut self.outer, 0);
            }
            Place::Right(site) => {
                self.left.park_out();
                self.right.park_in(site);
                park_at(&mut self.outer, 1);
            }
        }
    }
}
