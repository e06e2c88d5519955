// The things under way in a tie: those of its parts, and the due moves of its gateways.
ghost use Rattle.std.specs.Prelude.{◌≡◌, ◌<◌};
ghost use Rattle.tie_rules.specs.Reading.{meaning_of};
ghost use Rattle.tie.specs.Reading.{tie_of};
ghost use Rattle.tie.specs.Things.{Numbered};

use crate::state::Tie;
use manager::checks::LIMIT;
use manager::interface::Manager;

// A thing of a part, by its number there, or the due move of a gateway. The parts differ in type, so a step matches on the thing.
#[derive(Clone, Copy)]
pub(crate) enum Thing {
    Left(u64),
    Right(u64),
    Outer(u64),
    LeftMove,
    RightMove,
}

impl<L: Manager, R: Manager, O: Manager> Tie<L, R, O> {
    // How many things are under way, of which any past the limit are not counted.
    pub(crate) fn count_things(&self) -> u64
        ensures { result ≡ (meaning_of L.Manager R.Manager O.Manager (tie_of self.now)).underway }
    {
        let parts = self.left.island.underway()
            + self.right.island.underway()
            + self.outer.underway();
        let moves = self.left.is_due(&self.outer, 0) as u64
            + self.right.is_due(&self.outer, 1) as u64;
        LIMIT.min(parts + moves)
    }

    // Which of the things under way thing k is: those of the left island come first, then the right's, the outer
    // manager's, the left gateway's due move and the right's.
    pub(crate) fn thing(&self, k: u64) -> Thing
        ensures { k < (meaning_of L.Manager R.Manager O.Manager (tie_of self.now)).underway → Numbered L.Manager R.Manager O.Manager (tie_of self.now) k result }
    {
        let before_right = self.left.island.underway();
        let before_outer = before_right + self.right.island.underway();
        let before_moves = before_outer + self.outer.underway();
        if k < before_right {
            Thing::Left(k)
        } else if k < before_outer {
            Thing::Right(k - before_right)
        } else if k < before_moves {
            Thing::Outer(k - before_outer)
        } else if k == before_moves && self.left.is_due(&self.outer, 0) {
            Thing::LeftMove
        } else {
            Thing::RightMove
        }
    }
}
