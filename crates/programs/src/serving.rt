// Serving the sites of a run. All that is done is done by calls on the broker, so it goes on with its history.
ghost use Rattle.std.specs.Prelude.{◌≡◌};
ghost use Rattle.history.specs.Histories.{GoesOn};
ghost use Rattle.broker.specs.Reading.{records_of};
ghost use Rattle.programs.specs.Serving.{AsksInOrder, AsksUnlessServed, DrainedSo, FreesHolder, Stepped};

use crate::run::Run;
use broker::state::{Broker, DrainReport};
use history::Grant;
use manager::interface::Manager;
use manager::refusal::Refusal;
use roll::list::Roll;

// Asks for a site of a broker unless the roll has so many grants of it.
#[tactic(auto, using(history::proofs::Every::goes_nowhere))]
pub fn ask_unless_served<M: Manager>(
    broker: &mut Broker<M>,
    roll: &mut Roll<'_, Grant>,
    site: usize,
    turns: usize,
)
    ensures asks_unless_served { AsksUnlessServed M.Manager site turns broker.old roll.old broker.new roll.new }
    ensures goes_on_with_its_history { GoesOn M.Manager (records_of broker.old) (records_of broker.new) }
{
    if roll.count(site) < turns {
        let _ = broker.ask(site, roll);
    }
}

#[tactic(auto, using(history::proofs::Every::goes_nowhere))]
impl<'a, M: Manager> Run<'a, M> {
    // Asks for every site that has not been served so often. One that waits or holds already refuses.
    pub fn ask_all(&mut self, turns: usize)
        ensures asks_each_site_in_order { let sites = (M.Manager.meaning self.old.broker.manager).sites in
            AsksInOrder M.Manager turns self.old.broker self.old.grants sites self.new.broker self.new.grants }
        ensures goes_on_with_its_history { GoesOn M.Manager (records_of self.old.broker) (records_of self.new.broker) }
    {
        for site in 0..self.broker.sites() {
            self.ask_unless_served(site, turns);
        }
    }

    // Asks for a site unless the roll has so many grants of it.
    pub fn ask_unless_served(&mut self, site: usize, turns: usize)
        ensures asks_unless_served { AsksUnlessServed M.Manager site turns self.old.broker self.old.grants self.new.broker self.new.grants }
        ensures goes_on_with_its_history { GoesOn M.Manager (records_of self.old.broker) (records_of self.new.broker) }
    {
        ask_unless_served(&mut self.broker, &mut self.grants, site, turns);
    }

    // Frees the holder, if there is one, and answers which site that was.
    pub fn free_holder(&mut self) -> Option<usize>
        ensures frees_the_holder { FreesHolder M.Manager self.old.broker self.new.broker result }
        ensures leaves_the_grants { self.new.grants ≡ self.old.grants }
        ensures goes_on_with_its_history { GoesOn M.Manager (records_of self.old.broker) (records_of self.new.broker) }
    {
        let holder = self.broker.holder();
        if let Some(site) = holder {
            let _ = self.broker.free(site);
        }
        holder
    }

    // Carries out thing number `thing` of those under way, and answers the site that came to hold, if one did.
    pub fn step(&mut self, thing: u64) -> Result<Option<usize>, Refusal>
        ensures is_one_call { Stepped M.Manager self.old.broker self.new.broker self.old.grants self.new.grants thing result }
        ensures goes_on_with_its_history { GoesOn M.Manager (records_of self.old.broker) (records_of self.new.broker) }
    {
        self.broker.step(thing, &mut self.grants)
    }

    // Carries out step 0 while something is under way, at most `bound` times.
    pub fn drain(&mut self, bound: u64) -> DrainReport
        ensures is_one_call { DrainedSo M.Manager self.old.broker self.new.broker self.old.grants self.new.grants bound result }
        ensures goes_on_with_its_history { GoesOn M.Manager (records_of self.old.broker) (records_of self.new.broker) }
    {
        self.broker.drain(bound, &mut self.grants)
    }
}
