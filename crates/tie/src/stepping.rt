// What a step does.
ghost use Rattle.std.specs.Prelude.{◌≡◌, ℕ, ◌<◌, Ok, Option};
ghost use Rattle.manager.specs.Meaning.{limit};
ghost use Rattle.tie_rules.specs.Invariant.{Sound};
ghost use Rattle.tie_rules.specs.Reading.{meaning_of};
ghost use Rattle.tie_rules.specs.Rules.{Steps};
ghost use Rattle.tie.specs.Reading.{tie_of, older};
ghost use Rattle.tie.specs.Stepping.{StepsOuter};

use crate::state::Tie;
use crate::things::Thing;
use manager::interface::Manager;
use manager::refusal::Refusal;

impl<L: Manager, R: Manager, O: Manager> Tie<L, R, O> {
    // Carries out thing k of those under way, and answers the site that came to hold, if one did. The age stays.
    pub(crate) fn carry_out(&mut self, k: u64) -> Result<Option<usize>, Refusal>
        ensures steps { Sound L.Manager R.Manager O.Manager (tie_of self.old) → self.old.age < limit → k < (meaning_of L.Manager R.Manager O.Manager (tie_of self.old)).underway → (grant : Option ℕ) × (result ≡ Ok grant) × Steps L.Manager R.Manager O.Manager (tie_of self.old) k grant (older (tie_of self.new)) }
        ensures age { self.new.age ≡ self.old.age }
    {
        let border = self.border();
        match self.thing(k) {
            Thing::Left(k) => self.left.step(0, k),
            Thing::Right(k) => self.right.step(border, k),
            Thing::Outer(k) => step_outer(&mut self.outer, k),
            Thing::LeftMove => self.left.advance(&mut self.outer, 0),
            Thing::RightMove => self.right.advance(&mut self.outer, 1),
        }
    }
}

// Carries out thing k of the outer manager. Whoever holds there then is a gateway, so no site of the tie is granted.
fn step_outer<O: Manager>(outer: &mut O, k: u64) -> Result<Option<usize>, Refusal>
    ensures steps_the_outer_manager { StepsOuter O.Manager outer.old k outer.new result }
{
    outer.step(k)?;
    Ok(None)
}
