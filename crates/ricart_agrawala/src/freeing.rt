// What a free does.
ghost use Rattle.std.specs.Prelude.{◌≡◌, ◌<◌, if◌then◌else◌};
ghost use Rattle.manager.specs.Meaning.{limit};
ghost use Rattle.ricart_rules.specs.Rules.{freed};
ghost use Rattle.ricart_rules.specs.State.{is_deferred};
ghost use Rattle.ricart_rules.specs.declared.Stage.TheVariants.{Replied};
ghost use Rattle.ricart_agrawala.specs.Answered.{answered_below};
ghost use Rattle.ricart_agrawala.specs.Reading.{state_of};

use crate::state::RicartAgrawala;
use manager::status::Status;
use ricart_rules::Stage;

// A deferred answer is given.
fn answered(stage: Stage) -> Stage
    ensures { result ≡ (if is_deferred stage then Replied else stage) }
{
    match stage {
        Stage::Deferred => Stage::Replied,
        other => other,
    }
}

impl RicartAgrawala {
    // Sends a REPLY to each site that the site deferred, and ends its own request.
    pub(crate) fn release(&mut self, site: usize)
        requires { (site < 16) × (self.old.island.age < limit) }
        ensures { state_of self.new ≡ freed (state_of self.old) site }
    {
        self.answer_deferred(site);
        self.stages[site] = [Stage::Unasked; 16];
        self.island.status[site] = Status::Idle;
        self.island.age += 1;
    }

    // Sends the REPLYs that the site owes. Past the last site nobody is deferred, so that all 16 rows may be gone through.
    fn answer_deferred(&mut self, site: usize)
        requires { site < 16 }
        ensures { state_of self.new ≡ answered_below (state_of self.old) site 16 }
    {
        for row in &mut self.stages {
            row[site] = answered(row[site]);
        }
    }
}
