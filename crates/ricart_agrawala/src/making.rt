// How a manager is made, and how it begins anew.
ghost use Rattle.std.specs.Prelude.{◌≡◌, ◌<◌, ◌≤◌};
ghost use Rattle.ricart_rules.specs.Invariant.{Sound};
ghost use Rattle.ricart_rules.specs.Rules.{fresh, made};
ghost use Rattle.ricart_agrawala.specs.Reading.{state_of};

use crate::state::{Clock, RicartAgrawala};
use manager::island::Island;
use ricart_rules::Stage;

impl RicartAgrawala {
    // A manager of as many sites as fit, parked at the last of them: fewer than 2 make 2, more than 16 make 16.
    pub fn new(sites: usize) -> RicartAgrawala
        ensures state { state_of result ≡ made sites }
        ensures sound { Sound (state_of result) }
    {
        let sites = sites.clamp(2, 16);
        RicartAgrawala::parked(sites, sites - 1)
    }

    // One site holds and has every REPLY; all numbers are 1 and nothing is under way.
    pub(crate) fn parked(sites: usize, site: usize) -> RicartAgrawala
        requires { (2 ≤ sites) × ((sites ≤ 16) × (site < sites)) }
        ensures { state_of result ≡ fresh sites site }
    {
        let island = Island::parked(sites, site);
        let mut stages = [[Stage::Unasked; 16]; 16];
        stages[site] = island.with_others(stages[site], site, Stage::Received);
        RicartAgrawala {
            island,
            clocks: [Clock::FIRST; 16],
            stages,
        }
    }
}
