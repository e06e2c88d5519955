// How a manager is made, and how it begins anew.
ghost use Rattle.std.specs.Prelude.{◌≡◌, ◌<◌, ◌≤◌};
ghost use Rattle.suzuki_rules.specs.Invariant.{Sound};
ghost use Rattle.suzuki_rules.specs.Rules.{fresh, made};
ghost use Rattle.suzuki_kasami.specs.Reading.{state_of};

use crate::state::SuzukiKasami;
use arrayvec::ArrayVec;
use manager::island::Island;
use suzuki_rules::Token;

impl SuzukiKasami {
    // A manager of as many sites as fit, parked at the last of them: fewer than 2 make 2, more than 16 make 16.
    pub fn new(sites: usize) -> SuzukiKasami
        ensures state { state_of result ≡ made sites }
        ensures sound { Sound (state_of result) }
    {
        let sites = sites.clamp(2, 16);
        SuzukiKasami::parked(sites, sites - 1)
    }

    // The token is at one site, which holds; all numbers are 0 and nothing is under way.
    pub(crate) fn parked(sites: usize, site: usize) -> SuzukiKasami
        requires { (2 ≤ sites) × ((sites ≤ 16) × (site < sites)) }
        ensures { state_of result ≡ fresh sites site }
    {
        SuzukiKasami {
            island: Island::parked(sites, site),
            known: [[0; 16]; 16],
            requests: [[false; 16]; 16],
            token: Token::At(site),
            served: [0; 16],
            queue: ArrayVec::new(),
        }
    }
}
