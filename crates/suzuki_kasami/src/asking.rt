// What an ask does.
ghost use Rattle.std.specs.Prelude.{◌≡◌, ◌<◌};
ghost use Rattle.manager.specs.Meaning.{limit};
ghost use Rattle.suzuki_rules.specs.Invariant.{Sound};
ghost use Rattle.suzuki_rules.specs.Rules.{asked, held, requested};
ghost use Rattle.suzuki_kasami.specs.Reading.{state_of};

use crate::state::SuzukiKasami;
use manager::status::Status;

impl SuzukiKasami {
    // The site that has the token holds there and then. Any other sends a REQUEST to all others. Answers its status then.
    pub(crate) fn request(&mut self, site: usize) -> Status
        requires { (site < self.old.island.sites) × (self.old.island.age < limit) }
        ensures state { Sound (state_of self.old) → state_of self.new ≡ asked (state_of self.old) site }
        ensures status { Sound (state_of self.old) → result ≡ (state_of self.new).status site }
    {
        if self.has_token(site) {
            self.hold(site);
            Status::Holding
        } else {
            self.send_requests(site);
            Status::Waiting
        }
    }

    fn hold(&mut self, site: usize)
        requires { (site < self.old.island.sites) × (self.old.island.age < limit) }
        ensures { state_of self.new ≡ held (state_of self.old) site }
    {
        self.island.status[site] = Status::Holding;
        self.island.age += 1;
    }

    // Adds 1 to the site's own number, and sends a REQUEST with it to all others.
    fn send_requests(&mut self, site: usize)
        requires { (site < self.old.island.sites) × (self.old.island.age < limit) }
        ensures { Sound (state_of self.old) → state_of self.new ≡ requested (state_of self.old) site }
    {
        self.island.status[site] = Status::Waiting;
        self.known[site][site] = self.known[site][site].saturating_add(1);
        self.requests[site] = self.island.with_others([false; 16], site, true);
        self.island.age += 1;
    }
}
