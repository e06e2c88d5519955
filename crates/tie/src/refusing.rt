// When a call is refused.
ghost use Rattle.std.specs.Prelude.{◌≡◌, [], ◌∷◌};
ghost use Rattle.manager.specs.Answers.{answer};
ghost use Rattle.manager.specs.Refusals.{refused, site_order, step_order};
ghost use Rattle.manager.specs.declared.refusal.Refusal.TheVariants.{NoSite, Worn};
ghost use Rattle.tie_rules.specs.Reading.{meaning_of};
ghost use Rattle.tie.specs.Reading.{tie_of};

use crate::state::Tie;
use manager::checks::{check_age, check_site, check_thing};
use manager::interface::Manager;
use manager::refusal::Refusal;

impl<L: Manager, R: Manager, O: Manager> Tie<L, R, O> {
    pub(crate) fn named(&self, site: usize) -> Result<(), Refusal>
        ensures { result ≡ answer (refused site_order (meaning_of L.Manager R.Manager O.Manager (tie_of self.now)) site) tt }
    {
        check_site(site, self.count_sites())
    }

    // What refuses a call that names a site, whatever the site's status.
    pub(crate) fn may_name(&self, site: usize) -> Result<(), Refusal>
        ensures { result ≡ answer (refused (NoSite ∷ (Worn ∷ [])) (meaning_of L.Manager R.Manager O.Manager (tie_of self.now)) site) tt }
    {
        self.named(site)?;
        check_age(self.age)
    }

    pub(crate) fn may_step(&self, k: u64) -> Result<(), Refusal>
        ensures { result ≡ answer (refused step_order (meaning_of L.Manager R.Manager O.Manager (tie_of self.now)) k) tt }
    {
        check_age(self.age)?;
        check_thing(k, self.count_things())
    }
}
