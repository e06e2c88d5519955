// A manager shares one indivisible resource among its sites. What it means, and what each call does to it, is said by
// ghost members; code over a manager is proved once, from the laws below, and holds for every kind.
ghost use Rattle.std.specs.Prelude.{◌≡◌, ℕ, Option};
ghost use Rattle.manager.specs.Answers.{Call, status_shown, called_shown, holder_shown, toll_shown};
ghost use Rattle.manager.specs.Laws.{Laws};
ghost use Rattle.manager.specs.Meaning.{Meaning};
ghost use Rattle.manager.specs.Refusals.{refused, site_order, ask_order, free_order, step_order};

use crate::refusal::Refusal;
use crate::status::Status;

pub trait Manager {
    // The kind letter.
    const KIND: char;

    ghost meaning: { Self → Meaning };

    // The mark of soundness: parking sets it whatever stood before, and every call keeps it. A mark and no fact of each type, so
    // that a manager that is to be parked may stand in any state, and a tie may speak of its parts' marks.
    ghost sound: { Self → Type 0 };

    // What a carried-out call of this kind does, by the kind's own rules: the manager before, the site or thing
    // named, for a step the site that it grants the resource to, and the manager after.
    ghost parks: { Self → ℕ → Self → Type 0 };

    ghost asks: { Self → ℕ → Self → Type 0 };

    ghost frees: { Self → ℕ → Self → Type 0 };

    ghost steps: { Self → ℕ → Option ℕ → Self → Type 0 };

    // How many sites there are.
    fn sites(&self) -> usize
        ensures { result ≡ (meaning self.now).sites };

    // The status of a site.
    fn status(&self, site: usize) -> Result<Status, Refusal>
        ensures { result ≡ status_shown (meaning self.now) site };

    // Does the site hold while somebody is known to want the resource?
    fn called(&self, site: usize) -> Result<bool, Refusal>
        ensures { result ≡ called_shown (meaning self.now) site };

    // The site that holds, if one does.
    fn holder(&self) -> Option<usize>
        ensures { result ≡ holder_shown (meaning self.now) };

    // How many things are under way.
    fn underway(&self) -> u64
        ensures { result ≡ (meaning self.now).underway };

    // How much work an ask or a free may add, or 10^15 where it is more.
    fn toll(&self) -> u64
        ensures { result ≡ toll_shown (meaning self.now) };

    // Begins anew with one site holding.
    fn park(&mut self, site: usize) -> Result<(), Refusal>
        ensures { Call (refused site_order (meaning self.old) site) (parks self.old site self.new) tt self.old self.new result };

    // Asks for a site, and answers its status then.
    fn ask(&mut self, site: usize) -> Result<Status, Refusal>
        ensures { sound self.old → Call (refused ask_order (meaning self.old) site) (asks self.old site self.new) ((meaning self.new).status site) self.old self.new result };

    // Ends a site's hold.
    fn free(&mut self, site: usize) -> Result<(), Refusal>
        ensures { sound self.old → Call (refused free_order (meaning self.old) site) (frees self.old site self.new) tt self.old self.new result };

    // Carries out thing number k of those under way, and answers the site that came to hold, if one did.
    fn step(&mut self, k: u64) -> Result<Option<usize>, Refusal>
        ensures { sound self.old → (grant : Option ℕ) × Call (refused step_order (meaning self.old) k) (steps self.old k grant self.new) grant self.old self.new result };

    // What each kind owes: specs/Laws.antt has the laws one by one.
    ghost laws: { Laws meaning sound parks asks frees steps };
}
