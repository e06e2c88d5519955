// What a broker keeps. How it is made and started stands in making.rt, its calls in calls.rt and drain.rt, what it answers in
// questions.rt and waits.rt.
use crate::totals::Totals;
use manager::interface::Manager;
use manager::refusal::Refusal;

// A broker keeps its manager, and the totals of what was carried out since it was started.
// `Well` is a premise of the calls and no ghost field: nothing proves `IsProp (M.sound manager)`, and `∥ Well .. ∥₁` yields no `Outcome`.
#[derive(Drop)]
pub struct Broker<M: Manager> {
    pub(crate) manager: M,
    pub(crate) totals: Totals,
}

// What a drain did: the steps that it carried out, and why it stopped, unless it went on until nothing was under way.
#[derive(Clone, Copy, PartialEq, Eq, Debug)]
pub struct DrainReport {
    pub steps: u64,
    pub stopped: Option<Refusal>,
}
