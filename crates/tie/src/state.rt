// What a tie stores. specs/Reading.antt says which state of the rules that is.
ghost use Rattle.std.specs.Prelude.{◌≤◌};
ghost use Rattle.manager.specs.Meaning.{limit};

use crate::side::Side;

// A tie lets the sites of two islands share one resource. An island is a manager whose last site, its gateway, stands
// for the rest of the world. The gateways meet at the outer manager, the left one at its site 0, the right one at its
// site 1. The tie's sites are the left island's, then the right's, without the gateways, 64 at most.
#[derive(Drop)]
pub struct Tie<L, R, O> {
    pub(crate) left: Side<L>,
    pub(crate) right: Side<R>,
    pub(crate) outer: O,
    // The asks, frees and steps since parking.
    pub(crate) age: u64,
    ghost young: { age ≤ limit },
}
