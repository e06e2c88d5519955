// Serving every site of a run in rounds. All that is done is done by calls on the broker, so it goes on with its history.
ghost use Rattle.std.specs.Prelude.{◌≡◌, nat_le};
ghost use Rattle.std.specs.List.{list_all, range_with_len};
ghost use Rattle.history.specs.Histories.{GoesOn};
ghost use Rattle.broker.specs.Reading.{records_of};
ghost use Rattle.programs.specs.Serving.{times_served};

use manager::interface::Manager;
use programs::Run;

// More rounds than serving takes: each serves at least one site.
const MOST_ROUNDS: usize = 200;

// More steps than a drain takes.
const MOST_STEPS: u64 = 10_000;

// Goes on in rounds until every site has been served so often, for a bounded number of rounds.
#[tactic(auto, using(history::proofs::Every::goes_nowhere))]
pub(crate) fn serve<M: Manager>(run: &mut Run<'_, M>, turns: usize)
    ensures goes_on { GoesOn M.Manager (records_of run.old.broker) (records_of run.new.broker) }
{
    for _ in 0..MOST_ROUNDS {
        if all_served(run, turns) {
            return;
        }
        run.ask_all(turns);
        let _ = run.drain(MOST_STEPS);
        let _ = run.free_holder();
    }
}

// Has every site been served so often?
fn all_served<M: Manager>(run: &Run<'_, M>, turns: usize) -> bool
    ensures tells_whether_each_was { let sites = (M.Manager.meaning run.now.broker.manager).sites in
        result ≡ list_all (λ site. nat_le turns (times_served run.now.grants site)) (range_with_len 0 sites) }
{
    (0..run.broker.sites()).all(|site| turns <= run.grants.count(site))
}
