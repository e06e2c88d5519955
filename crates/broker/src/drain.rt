// A drain: steps in a row until nothing is under way, or until it is stopped.
ghost use Rattle.std.specs.Prelude.{◌≡◌, List, ◌==◌};
ghost use Rattle.roll.specs.Contents.{room_of};
ghost use Rattle.history.specs.Calls.{Drained, drain as drain_call};
ghost use Rattle.history.specs.Histories.{Performed};
ghost use Rattle.history.specs.Records.{Well};
ghost use Rattle.history.specs.declared.Grant.{Grant};
ghost use Rattle.broker.specs.Reading.{records_of};
ghost use Rattle.broker.specs.Rolling.{Rolled};

use crate::state::{Broker, DrainReport};
use history::Grant;
use manager::interface::Manager;
use manager::refusal::Refusal;
use roll::list::Roll;

impl<M: Manager> Broker<M> {
    // Carries out step 0 while something is under way, at most `bound` times.
    pub fn drain(&mut self, bound: u64, roll: &mut Roll<'_, Grant>) -> DrainReport
        ensures is_one_call { Well M.Manager (records_of self.old) → (grants : List Grant) × Drained M.Manager (records_of self.old) bound (room_of roll.old) result.steps grants result.stopped (records_of self.new) × Performed M.Manager (records_of self.old) (drain_call bound (room_of roll.old)) grants (records_of self.new) × Rolled roll.old roll.new grants }
    {
        for steps in 0..bound {
            if self.is_quiet() {
                return report(steps, None);
            }
            if let Err(refusal) = self.step(0, roll) {
                return report(steps, Some(refusal));
            }
        }
        let busy = !self.is_quiet();
        report(bound, busy.then_some(Refusal::LimitReached))
    }

    // Is nothing under way?
    fn is_quiet(&self) -> bool
        ensures tells_whether_nothing_is_under_way { result ≡ ((M.Manager.meaning self.now.manager).underway == 0) }
    {
        self.manager.underway() == 0
    }
}

// So many steps, stopped for this reason, if for any.
fn report(steps: u64, stopped: Option<Refusal>) -> DrainReport
    ensures has_the_steps { result.steps ≡ steps }
    ensures has_the_reason { result.stopped ≡ stopped }
{
    DrainReport { steps, stopped }
}
