// What an ask and a free do: a call of the site's island. That the tie is sound is a premise here, as in the interface.
ghost use Rattle.std.specs.Prelude.{◌≡◌, ◌<◌};
ghost use Rattle.manager.specs.Answers.{Call};
ghost use Rattle.manager.specs.Meaning.{limit};
ghost use Rattle.manager.specs.Refusals.{refused, ask_order, free_order};
ghost use Rattle.tie_rules.specs.Invariant.{Sound};
ghost use Rattle.tie_rules.specs.Reading.{meaning_of};
ghost use Rattle.tie_rules.specs.Rules.{Asks, Frees};
ghost use Rattle.tie.specs.Reading.{tie_of, older};

use crate::sites::Place;
use crate::state::Tie;
use manager::interface::Manager;
use manager::refusal::Refusal;
use manager::status::Status;

impl<L: Manager, R: Manager, O: Manager> Tie<L, R, O> {
    // Asks for a site in its island, and answers its status then. The age stays.
    pub(crate) fn ask_island(&mut self, site: usize) -> Result<Status, Refusal>
        ensures asks { Sound L.Manager R.Manager O.Manager (tie_of self.old) → self.old.age < limit → site < (meaning_of L.Manager R.Manager O.Manager (tie_of self.old)).sites → Call (refused ask_order (meaning_of L.Manager R.Manager O.Manager (tie_of self.old)) site) (Asks L.Manager R.Manager O.Manager (tie_of self.old) site (older (tie_of self.new))) ((meaning_of L.Manager R.Manager O.Manager (tie_of self.new)).status site) self.old self.new result }
        ensures age { self.new.age ≡ self.old.age }
    {
        match self.place(site) {
            Place::Left(site) => self.left.island.ask(site),
            Place::Right(site) => self.right.island.ask(site),
        }
    }

    // Ends a site's hold in its island. The age stays.
    pub(crate) fn free_island(&mut self, site: usize) -> Result<(), Refusal>
        ensures frees { Sound L.Manager R.Manager O.Manager (tie_of self.old) → self.old.age < limit → site < (meaning_of L.Manager R.Manager O.Manager (tie_of self.old)).sites → Call (refused free_order (meaning_of L.Manager R.Manager O.Manager (tie_of self.old)) site) (Frees L.Manager R.Manager O.Manager (tie_of self.old) site (older (tie_of self.new))) tt self.old self.new result }
        ensures age { self.new.age ≡ self.old.age }
    {
        match self.place(site) {
            Place::Left(site) => self.left.island.free(site),
            Place::Right(site) => self.right.island.free(site),
        }
    }
}
