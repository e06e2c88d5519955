// The tie as the interface has it: again a manager, whatever its parts are.
ghost use Rattle.tie_rules.specs.Invariant.{Sound};
ghost use Rattle.tie_rules.specs.Reading.{meaning_of};
ghost use Rattle.tie_rules.specs.Rules.{Parks, Asks, Frees, Steps};
ghost use Rattle.tie_rules.proofs.Laws.{tie_laws};
ghost use Rattle.tie.specs.Reading.{tie_of};

use crate::sites::Place;
use crate::state::Tie;
use manager::checks::LIMIT;
use manager::interface::Manager;
use manager::refusal::Refusal;
use manager::status::Status;

impl<L: Manager, R: Manager, O: Manager> Manager for Tie<L, R, O> {
    const KIND: char = 'T';

    ghost meaning = { λ m. meaning_of L.Manager R.Manager O.Manager (tie_of m) };

    ghost sound = { λ m. Sound L.Manager R.Manager O.Manager (tie_of m) };

    ghost parks = { λ m g n. Parks L.Manager R.Manager O.Manager (tie_of m) g (tie_of n) };

    ghost asks = { λ m i n. Asks L.Manager R.Manager O.Manager (tie_of m) i (tie_of n) };

    ghost frees = { λ m i n. Frees L.Manager R.Manager O.Manager (tie_of m) i (tie_of n) };

    ghost steps = { λ m k g n. Steps L.Manager R.Manager O.Manager (tie_of m) k g (tie_of n) };

    ghost laws = { tie_laws
        (record { meaning = L.meaning; sound = L.sound; parks = L.parks; asks = L.asks; frees = L.frees; steps = L.steps })
        (record { meaning = R.meaning; sound = R.sound; parks = R.parks; asks = R.asks; frees = R.frees; steps = R.steps })
        (record { meaning = O.meaning; sound = O.sound; parks = O.parks; asks = O.asks; frees = O.frees; steps = O.steps })
        L.laws R.laws O.laws tie_of (λ m. m.young) };

    fn sites(&self) -> usize {
        self.count_sites()
    }

    fn status(&self, site: usize) -> Result<Status, Refusal> {
        self.named(site)?;
        match self.place(site) {
            Place::Left(site) => self.left.island.status(site),
            Place::Right(site) => self.right.island.status(site),
        }
    }

    fn called(&self, site: usize) -> Result<bool, Refusal> {
        self.named(site)?;
        match self.place(site) {
            Place::Left(site) => self.left.island.called(site),
            Place::Right(site) => self.right.island.called(site),
        }
    }

    fn holder(&self) -> Option<usize> {
        self.left
            .own_holder(0)
            .or_else(|| self.right.own_holder(self.border()))
    }

    fn underway(&self) -> u64 {
        self.count_things()
    }

    // Each move of a gateway costs a call of a part, so it is worth one more than the largest toll of a part.
    fn toll(&self) -> u64 {
        let largest = self
            .left
            .island
            .toll()
            .max(self.right.island.toll())
            .max(self.outer.toll());
        LIMIT.min(9 * (largest + 1))
    }

    fn park(&mut self, site: usize) -> Result<(), Refusal> {
        self.named(site)?;
        self.begin_at(site);
        Ok(())
    }

    fn ask(&mut self, site: usize) -> Result<Status, Refusal> {
        self.may_name(site)?;
        let status = self.ask_island(site)?;
        self.age += 1;
        Ok(status)
    }

    fn free(&mut self, site: usize) -> Result<(), Refusal> {
        self.may_name(site)?;
        self.free_island(site)?;
        self.age += 1;
        Ok(())
    }

    fn step(&mut self, k: u64) -> Result<Option<usize>, Refusal> {
        self.may_step(k)?;
        let granted = self.carry_out(k)?;
        self.age += 1;
        Ok(granted)
    }
}
