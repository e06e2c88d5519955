// What an ask does.
ghost use Rattle.std.specs.Prelude.{◌≡◌, ◌+◌, ◌-◌, ◌^◌, ◌<◌, min};
ghost use Rattle.manager.specs.Meaning.{limit};
ghost use Rattle.manager.specs.declared.status.Status.TheVariants.{Waiting};
ghost use Rattle.ricart_rules.specs.Invariant.{Sound};
ghost use Rattle.ricart_rules.specs.Rules.{asked};
ghost use Rattle.ricart_agrawala.specs.Reading.{state_of};

use crate::state::RicartAgrawala;
use manager::status::Status;
use ricart_rules::Stage;

impl RicartAgrawala {
    // Takes a number for the site, and sends a REQUEST with it to all others.
    pub(crate) fn request(&mut self, site: usize)
        requires { (site < self.old.island.sites) × (self.old.island.age < limit) }
        ensures state { Sound (state_of self.old) → state_of self.new ≡ asked (state_of self.old) site }
        ensures waits { (state_of self.new).status site ≡ Waiting }
    {
        self.island.status[site] = Status::Waiting;
        self.clocks[site].number = self.next_number(site);
        self.stages[site] = self
            .island
            .with_others(self.stages[site], site, Stage::Requested);
        self.island.age += 1;
    }

    // The number of the site's next stamp: one more than the highest that it has received.
    fn next_number(&self, site: usize) -> u64
        ensures { result ≡ min ((state_of self.now).highest site + 1) (2 ^ 64 - 1) }
    {
        self.clock(site).highest.saturating_add(1)
    }
}
