// The calls that carry out one thing: ask, free and step.
ghost use Rattle.std.specs.Prelude.{◌≡◌, ℕ, ◌<◌, List, [], Ok, Option, ◌==◌};
ghost use Rattle.manager.specs.Answers.{answer, refuse_if};
ghost use Rattle.manager.specs.Meaning.{limit};
ghost use Rattle.manager.specs.Refusals.{refused, free_order};
ghost use Rattle.manager.specs.declared.refusal.Refusal.TheVariants.{RollFull};
ghost use Rattle.roll.specs.Contents.{room_of};
ghost use Rattle.history.specs.Calls.{ask as ask_call, free as free_call, step as step_call, ask_refusal, step_refusal};
ghost use Rattle.history.specs.Records.{Well, grants_by_step};
ghost use Rattle.history.specs.declared.Grant.{Grant};
ghost use Rattle.broker.specs.Counting.{age_of};
ghost use Rattle.broker.specs.Outcome.{Outcome};
ghost use Rattle.broker.specs.Reading.{records_of};
ghost use Rattle.broker.specs.Rolling.{Rolled};

use crate::state::Broker;
use history::Grant;
use manager::checks::{check_age, check_holding, check_idle, check_thing};
use manager::interface::Manager;
use manager::refusal::Refusal;
use manager::status::Status;
use roll::list::Roll;

impl<M: Manager> Broker<M> {
    // Asks for a site, and answers its status then. A site served there and then is a grant.
    pub fn ask(&mut self, site: usize, roll: &mut Roll<'_, Grant>) -> Result<Status, Refusal>
        ensures is_one_call { Well M.Manager (records_of self.old) → (grants : List Grant) × Outcome M.Manager self.old (ask_call site (room_of roll.old)) grants self.new ((M.Manager.meaning self.new.manager).status site) result × Rolled roll.old roll.new grants }
    {
        self.may_ask(site, roll)?;
        let status = self.manager.ask(site)?;
        self.totals.count_ask(site);
        if status.is_holding() {
            let _ = roll.push(Grant { site, waited: 0 });
        }
        Ok(status)
    }

    // Ends a site's hold.
    pub fn free(&mut self, site: usize) -> Result<(), Refusal>
        ensures is_one_call { Well M.Manager (records_of self.old) → Outcome M.Manager self.old (free_call site) [] self.new tt result }
    {
        self.may_free(site)?;
        self.manager.free(site)?;
        self.totals.count_free();
        Ok(())
    }

    // Carries out thing number k of those under way, and answers the site that came to hold, if one did: that is a grant.
    pub fn step(&mut self, k: u64, roll: &mut Roll<'_, Grant>) -> Result<Option<usize>, Refusal>
        ensures is_one_call { Well M.Manager (records_of self.old) → (site : Option ℕ) × (grants : List Grant) × Outcome M.Manager self.old (step_call k (room_of roll.old)) grants self.new site result × Rolled roll.old roll.new grants × (result ≡ Ok site → grants ≡ grants_by_step M.Manager (records_of self.old) site) }
    {
        self.may_step(k, roll)?;
        let granted = self.manager.step(k)?;
        self.totals.count_step();
        if let Some(site) = granted {
            let waited = self.totals.since_ask(site);
            let _ = roll.push(Grant { site, waited });
        }
        Ok(granted)
    }

    // What refuses an ask: the full roll is tried last, whether or not a grant would come.
    fn may_ask(&self, site: usize, roll: &Roll<'_, Grant>) -> Result<(), Refusal>
        ensures site { result ≡ Ok tt → site < (M.Manager.meaning self.now.manager).sites }
        ensures not_worn { result ≡ Ok tt → age_of self.now.totals < limit }
        ensures answers { Well M.Manager (records_of self.now) → result ≡ answer (ask_refusal (M.Manager.meaning self.now.manager) site (room_of roll.now)) tt }
    {
        let status = self.manager.status(site)?;
        check_age(self.totals.age())?;
        check_idle(status)?;
        check_room(roll.room())
    }

    // What refuses a free: tried before the manager is called, so that a worn-out broker counts no more.
    fn may_free(&self, site: usize) -> Result<(), Refusal>
        ensures not_worn { result ≡ Ok tt → age_of self.now.totals < limit }
        ensures answers { Well M.Manager (records_of self.now) → result ≡ answer (refused free_order (M.Manager.meaning self.now.manager) site) tt }
    {
        let status = self.manager.status(site)?;
        check_age(self.totals.age())?;
        check_holding(status)
    }

    // What refuses a step, the full roll last.
    fn may_step(&self, thing: u64, roll: &Roll<'_, Grant>) -> Result<(), Refusal>
        ensures not_worn { result ≡ Ok tt → age_of self.now.totals < limit }
        ensures answers { Well M.Manager (records_of self.now)
            → result ≡ answer (step_refusal (M.Manager.meaning self.now.manager) thing (room_of roll.now)) tt }
    {
        check_age(self.totals.age())?;
        check_thing(thing, self.manager.underway())?;
        let places = roll.room();
        check_room(places)
    }
}

// A roll with no place free takes no grant.
fn check_room(places: usize) -> Result<(), Refusal>
    ensures refuses_a_full_roll { result ≡ refuse_if (places == 0) RollFull }
{
    if places == 0 {
        return Err(Refusal::RollFull);
    }
    Ok(())
}
