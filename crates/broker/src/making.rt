// How a broker is made and started. The promise about every history stands here, on the calls that begin one.
ghost use Rattle.std.specs.Prelude.{◌≡◌, ◌-◌, Ok, Err};
ghost use Rattle.manager.specs.Answers.{answer};
ghost use Rattle.manager.specs.Refusals.{refused, site_order};
ghost use Rattle.history.specs.Promise.{Begun};
ghost use Rattle.broker.specs.Reading.{records_of};

use crate::state::Broker;
use crate::totals::Totals;
use manager::interface::Manager;
use manager::refusal::Refusal;

impl<M: Manager> Broker<M> {
    // A broker over the manager, started at its last site.
    pub fn new(manager: M) -> Broker<M>
        ensures begins { Begun M.Manager manager ((M.Manager.meaning manager).sites - 1) (records_of result) }
    {
        let mut manager = manager;
        let last = last_of(&manager);
        let _ = manager.park(last);
        let totals = Totals::new();
        Broker { manager, totals }
    }

    // Parks the manager at the site and begins anew.
    pub fn start(&mut self, site: usize) -> Result<(), Refusal>
        ensures answers { result ≡ answer (refused site_order (M.Manager.meaning self.old.manager) site) tt }
        ensures begins { result ≡ Ok tt → Begun M.Manager self.old.manager site (records_of self.new) }
        ensures refused_leaves_all { (e : Refusal) → result ≡ Err e → self.new ≡ self.old }
    {
        self.manager.park(site)?;
        self.totals = Totals::new();
        Ok(())
    }
}

// The last site of a manager.
fn last_of<M: Manager>(manager: &M) -> usize
    ensures { result ≡ (M.Manager.meaning manager.now).sites - 1 }
{
    manager.sites() - 1
}
