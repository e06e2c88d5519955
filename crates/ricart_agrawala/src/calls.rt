// The manager as the interface has it: what an island answers of its sites is asked of it, and each call is tested there first.
ghost use Rattle.std.specs.Prelude.{◌≡◌};
ghost use Rattle.ricart_rules.specs.Invariant.{Sound};
ghost use Rattle.ricart_rules.specs.Reading.{meaning_of};
ghost use Rattle.ricart_rules.specs.Rules.{parked, asked, freed, Delivered};
ghost use Rattle.ricart_agrawala.specs.Reading.{state_of};
ghost use Rattle.manager.proofs.KindLaws.{kind_laws};
ghost use Rattle.ricart_rules.proofs.Ask.{ask_lawful};
ghost use Rattle.ricart_rules.proofs.Free.{free_lawful};
ghost use Rattle.ricart_rules.proofs.Lawful.{lawful, bounded};
ghost use Rattle.ricart_rules.proofs.Park.{park_lawful};
ghost use Rattle.ricart_rules.proofs.Step.{step_lawful};

use crate::state::RicartAgrawala;
use counting::table::Table;
use manager::interface::Manager;
use manager::refusal::Refusal;
use manager::status::Status;

impl Manager for RicartAgrawala {
    const KIND: char = 'R';

    ghost meaning = { λ m. meaning_of (state_of m) };

    ghost sound = { λ m. Sound (state_of m) };

    ghost parks = { λ m g n. state_of n ≡ parked (state_of m) g };

    ghost asks = { λ m i n. state_of n ≡ asked (state_of m) i };

    ghost frees = { λ m i n. state_of n ≡ freed (state_of m) i };

    ghost steps = { λ m k g n. Delivered (state_of m) k g (state_of n) };

    ghost laws = { kind_laws state_of meaning_of Sound parked asked freed Delivered
        (λ m. bounded (state_of m) m.island.fewest m.island.most m.island.young) lawful
        (λ m g. park_lawful (state_of m) g m.island.fewest m.island.most) ask_lawful free_lawful step_lawful };

    fn sites(&self) -> usize {
        self.island.sites
    }

    fn status(&self, site: usize) -> Result<Status, Refusal> {
        self.island.status(site)
    }

    fn called(&self, site: usize) -> Result<bool, Refusal> {
        self.island.names(site)?;
        Ok(self.is_called(site))
    }

    fn holder(&self) -> Option<usize> {
        self.island.holder()
    }

    fn underway(&self) -> u64 {
        self.total()
    }

    fn toll(&self) -> u64 {
        self.island.toll()
    }

    fn park(&mut self, site: usize) -> Result<(), Refusal> {
        self.island.names(site)?;
        *self = RicartAgrawala::parked(self.island.sites, site);
        Ok(())
    }

    fn ask(&mut self, site: usize) -> Result<Status, Refusal> {
        self.island.may_ask(site)?;
        self.request(site);
        Ok(Status::Waiting)
    }

    fn free(&mut self, site: usize) -> Result<(), Refusal> {
        self.island.may_free(site)?;
        self.release(site);
        Ok(())
    }

    fn step(&mut self, k: u64) -> Result<Option<usize>, Refusal> {
        self.island.may_step(k, self.total())?;
        Ok(self.deliver(k))
    }
}
