// A run: a broker, and the roll that its grants go to. What a run does stands in serving.rt, how it is printed in printing.rt.
use broker::state::Broker;
use history::Grant;
use manager::interface::Manager;
use roll::list::Roll;

#[derive(Drop)]
pub struct Run<'a, M: Manager> {
    pub broker: Broker<M>,
    pub grants: Roll<'a, Grant>,
}
