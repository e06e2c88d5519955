// What came of a run, as text: each grant with its wait, then the totals and the bound that they keep.
ghost use Rattle.std.specs.Prelude.{◌≡◌, Some};
ghost use Rattle.programs.specs.Printed.{grant_in_words, most_steps, ReportOf};

use crate::report::Report;
use crate::run::Run;
use broker::state::Broker;
use history::Grant;
use manager::interface::Manager;
use roll::list::Roll;
use std::{fmt, io};

// A grant as the programs print it. A type of its own, for its `Display`: the grant's own crate, of the core, gives it no words.
#[derive(Clone, Copy)]
pub struct PrintedGrant(pub Grant);

impl fmt::Display for PrintedGrant {
    ghost output = { λ g. Some (grant_in_words g.0.site g.0.waited) };

    fn fmt<W: fmt::Write>(&self, f: &mut fmt::Formatter<W>) -> fmt::Result {
        let Grant { site, waited } = self.0;
        write!(f, "site {site} holds after {waited} steps")
    }
}

impl Report {
    pub fn of<M: Manager>(broker: &Broker<M>) -> Report
        ensures has_what_the_broker_shows { ReportOf M.Manager broker.now result }
    {
        Report {
            kind: M::KIND,
            sites: broker.sites(),
            asks: broker.asks(),
            frees: broker.frees(),
            steps: broker.steps(),
            toll: broker.toll(),
        }
    }

    // At most so many steps may have been carried out.
    pub fn most_steps(&self) -> u64
        ensures gives_the_promised_bound { result ≡ most_steps self.now }
    {
        let calls = self.asks.saturating_add(self.frees).saturating_add(1);
        self.toll.saturating_mul(calls)
    }
}

impl fmt::Display for Report {
    fn fmt<W: fmt::Write>(&self, f: &mut fmt::Formatter<W>) -> fmt::Result {
        let Report {
            kind,
            sites,
            asks,
            frees,
            steps,
            toll,
        } = *self;
        let most = self.most_steps();
        write!(
            f,
            "kind {kind}, {sites} sites: asks {asks}, frees {frees}, steps {steps}\ntoll {toll}: at most {most} steps"
        )
    }
}

impl<'a, M: Manager> Run<'a, M> {
    // Prints each grant, in order, and then the report on the broker.
    pub fn print(&self, rt: &HostRuntime) -> io::Result<()> {
        print_run(rt, &self.broker, &self.grants)
    }
}

// Prints each grant of the roll, in order, and then the report on the broker.
pub fn print_run<M: Manager>(
    rt: &HostRuntime,
    broker: &Broker<M>,
    roll: &Roll<'_, Grant>,
) -> io::Result<()> {
    for grant in roll {
        rt.println(PrintedGrant(*grant))?;
    }
    rt.println(Report::of(broker))
}
