// One island of sites under a broker: every site asks, what is under way is delivered and the holder frees, until every site
// has been served twice. Prints each grant with its wait, then the totals and the bound that they keep.
#![tactic(auto)]

mod kinds;
mod serving;

use broker::state::Broker;
use history::Grant;
use kinds::Kind;
use manager::interface::Manager;
use programs::{Run, argument};
use ricart_agrawala::state::RicartAgrawala;
use roll::list::Roll;
use serving::serve;
use suzuki_kasami::state::SuzukiKasami;

const DEFAULT_SITES: usize = 4;

// How often each site is served.
const TURNS: usize = 2;

// The number of sites that the first argument gives.
fn sites_wanted(rt: &HostRuntime) -> anyhow::Result<usize> {
    match argument(rt, 1)? {
        Some(text) => Ok(text.as_str().parse::<usize>()?),
        None => Ok(DEFAULT_SITES),
    }
}

// The kind whose letter the second argument gives.
fn kind_wanted(rt: &HostRuntime) -> anyhow::Result<Kind> {
    match argument(rt, 2)? {
        Some(text) => Ok(Kind::try_from(text.as_str().parse::<char>()?)?),
        None => Ok(Kind::SuzukiKasami),
    }
}

fn serve_and_print<M: Manager + Drop>(rt: &HostRuntime, manager: M) -> anyhow::Result<()> {
    let mut memory = [Grant { site: 0, waited: 0 }; 64];
    let mut run = Run {
        broker: Broker::new(manager),
        grants: Roll::new(&mut memory),
    };
    serve(&mut run, TURNS);
    Ok(run.print(rt)?)
}

fn main(rt: HostRuntime) -> anyhow::Result<()> {
    let sites = sites_wanted(&rt)?;
    match kind_wanted(&rt)? {
        Kind::SuzukiKasami => serve_and_print(&rt, SuzukiKasami::new(sites)),
        Kind::RicartAgrawala => serve_and_print(&rt, RicartAgrawala::new(sites)),
    }
}
