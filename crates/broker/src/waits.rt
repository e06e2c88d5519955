// How long each site has waited: nothing is counted at a step, for a wait is the steps now less the steps at the ask.
ghost use Rattle.std.specs.Prelude.{◌≡◌, [], length, Ok, Err};
ghost use Rattle.manager.specs.Answers.{answer};
ghost use Rattle.history.specs.Calls.{write_waits, waits_refusal};
ghost use Rattle.history.specs.Histories.{Performed};
ghost use Rattle.history.specs.Records.{Well, wait, wait_shown};
ghost use Rattle.broker.specs.Reading.{records_of};
ghost use Rattle.broker.specs.Waits.{Listed};

use crate::state::Broker;
use manager::interface::Manager;
use manager::refusal::Refusal;
use manager::status::Status;

impl<M: Manager> Broker<M> {
    // The steps carried out since the site's ask, or 0 where it is not waiting.
    pub fn wait(&self, site: usize) -> Result<u64, Refusal>
        ensures shows_wait { result ≡ wait_shown M.Manager (records_of self.now) site }
    {
        match self.manager.status(site)? {
            Status::Waiting => Ok(self.totals.since_ask(site)),
            Status::Idle | Status::Holding => Ok(0),
        }
    }

    // Writes the wait of each site into the list, from its first place on. Later places stay.
    pub fn write_waits(&self, list: &mut [u64]) -> Result<(), Refusal>
        ensures answers { result ≡ answer (waits_refusal (M.Manager.meaning self.now.manager) (length list.old)) tt }
        ensures writes { result ≡ Ok tt → Listed (wait M.Manager (records_of self.now)) (M.Manager.meaning self.now.manager).sites list.old list.new }
        ensures refused_leaves_all { (e : Refusal) → result ≡ Err e → list.new ≡ list.old }
        ensures is_one_call { Well M.Manager (records_of self.now) → Performed M.Manager (records_of self.now) (write_waits (length list.old)) [] (records_of self.now) }
    {
        let sites = self.manager.sites();
        if list.len() < sites {
            return Err(Refusal::ShortWaitList);
        }
        for (site, place) in list[..sites].iter_mut().enumerate() {
            *place = self.wait(site)?;
        }
        Ok(())
    }
}
