// A nest of ties with both kinds of island in it, 64 sites in all: every site asks once, and is served while messages are
// delivered in an order drawn from a seed. Prints each grant with its wait, then the totals and the bound that they keep.
#![tactic(auto)]

mod schedule;
mod serving;

use broker::state::Broker;
use history::Grant;
use programs::Run;
use ricart_agrawala::state::RicartAgrawala;
use roll::list::Roll;
use schedule::Schedule;
use serving::serve;
use suzuki_kasami::state::SuzukiKasami;
use tie::state::Tie;

const SEED: u64 = 2026;

type FirstPair = Tie<RicartAgrawala, SuzukiKasami, RicartAgrawala>;

type SecondPair = Tie<SuzukiKasami, RicartAgrawala, SuzukiKasami>;

type Nest = Tie<Tie<FirstPair, SecondPair, RicartAgrawala>, RicartAgrawala, SuzukiKasami>;

// Two pairs of islands of 16 sites have 30 sites each without their gateways, and tied 58; with an island of 8 sites that
// makes 64.
fn nest() -> Nest {
    let first = Tie::new(
        RicartAgrawala::new(16),
        SuzukiKasami::new(16),
        RicartAgrawala::new(2),
    );
    let second = Tie::new(
        SuzukiKasami::new(16),
        RicartAgrawala::new(16),
        SuzukiKasami::new(2),
    );
    let pairs = Tie::new(first, second, RicartAgrawala::new(2));
    Tie::new(pairs, RicartAgrawala::new(8), SuzukiKasami::new(2))
}

fn main(rt: HostRuntime) -> anyhow::Result<()> {
    let mut memory = [Grant { site: 0, waited: 0 }; 64];
    let mut run = Run {
        broker: Broker::new(nest()),
        grants: Roll::new(&mut memory),
    };
    serve(&mut run, Schedule::new(SEED));
    Ok(run.print(&rt)?)
}
