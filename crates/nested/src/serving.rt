// Serving every site of a run once, with things delivered in a drawn order. All that is done is done by calls on the broker, so it
// goes on with its history.
ghost use Rattle.history.specs.Histories.{GoesOn};
ghost use Rattle.broker.specs.Reading.{records_of};

use crate::schedule::Schedule;
use manager::interface::Manager;
use programs::Run;

// How often each site is served.
const TURNS: usize = 1;

// More turns than serving 64 sites takes.
const MOST_TURNS: usize = 200_000;

// A holder frees while things are still under way at one turn in so many.
const HOLD: u64 = 16;

// Goes on until the roll has a grant for each site.
#[tactic(auto, using(history::proofs::Every::goes_onward))]
pub(crate) fn serve<M: Manager>(run: &mut Run<'_, M>, schedule: Schedule)
    ensures goes_on { GoesOn M.Manager (records_of run.old.broker) (records_of run.new.broker) }
{
    run.ask_all(TURNS);
    for drawn in schedule.take(MOST_TURNS) {
        if run.grants.room() == 0 {
            return;
        }
        take_turn(run, drawn);
    }
}

// Frees the holder, or delivers one of the things under way. A holder that has not been served yet, for it held from the start, asks
// in its turn.
#[tactic(auto, using(history::proofs::Every::goes_onward))]
fn take_turn<M: Manager>(run: &mut Run<'_, M>, drawn: u64)
    ensures goes_on { GoesOn M.Manager (records_of run.old.broker) (records_of run.new.broker) }
{
    let underway = run.broker.underway();
    if underway > 0 && drawn % HOLD != 0 {
        let _ = run.step(drawn % underway);
    } else if let Some(site) = run.free_holder() {
        run.ask_unless_served(site, TURNS);
    }
}
