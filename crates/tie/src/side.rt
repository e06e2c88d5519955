// One side of a tie, whichever it is: an island with its gateway.
ghost use Rattle.std.specs.Prelude.{◌≡◌, ◌<◌};
ghost use Rattle.gateway.specs.Automaton.{last, link, due_at};
ghost use Rattle.gateway.specs.declared.state.Gateway.TheVariants.{Out, In};
ghost use Rattle.tie.specs.Places.{own, own_holder_of};
ghost use Rattle.tie.specs.Stepping.{StepsIsland, MovesGateway};

use crate::sites::MOST_SITES;
use gateway::{Gateway, last_site};
use manager::interface::Manager;
use manager::refusal::Refusal;

// Two more numbers belong to a side, and the tie has them: the site of the outer manager at which the gateway acts, its
// post, and the offset, by which the tie raises the numbers of the island's sites: 0, or the number of the other island's
// sites. That it is below 64 stays a `requires` of the functions that add it: a type for it is no plainer.
#[derive(Drop)]
pub(crate) struct Side<I> {
    pub(crate) island: I,
    // What the gateway is about.
    pub(crate) gate: Gateway,
}

impl<I: Manager> Side<I> {
    // The gateway's number in the island. The island's other sites come before it.
    pub(crate) fn gateway(&self) -> usize
        ensures gives_the_last_site { result ≡ last (I.Manager.meaning self.now.island) }
    {
        last_site(&self.island)
    }

    // Is a move of the gateway due?
    pub(crate) fn is_due<O: Manager>(&self, outer: &O, post: usize) -> bool
        ensures tells_whether_a_move_is_due { result ≡ due_at I.Manager O.Manager post (link self.now.gate self.now.island outer.now) }
    {
        self.gate.is_due(&self.island, outer, post)
    }

    // The site that holds in the island, by the tie's number, if it is a site of the tie.
    pub(crate) fn own_holder(&self, offset: usize) -> Option<usize>
        requires { offset < 64 }
        ensures gives_the_holder_in_the_tie { result ≡ own_holder_of (I.Manager.meaning self.now.island) offset }
    {
        own_site(self.gateway(), offset, self.island.holder()).filter(|site| *site < MOST_SITES)
    }

    // Parks the island at a site, with the gateway in.
    pub(crate) fn park_in(&mut self, site: usize)
        requires { site < (I.Manager.meaning self.old.island).sites }
        ensures parks_at_that_site { I.Manager.parks self.old.island site self.new.island }
        ensures sets_the_gateway_in { self.new.gate ≡ In }
    {
        park_at(&mut self.island, site);
        self.gate = Gateway::In;
    }

    // Parks the island at its gateway, which is out.
    pub(crate) fn park_out(&mut self)
        ensures parks_at_the_gateway { I.Manager.parks self.old.island (last (I.Manager.meaning self.old.island)) self.new.island }
        ensures sets_the_gateway_out { self.new.gate ≡ Out }
    {
        let gateway = self.gateway();
        park_at(&mut self.island, gateway);
        self.gate = Gateway::Out;
    }

    // Carries out thing k of the island, and answers the site of the tie that came to hold, if one did.
    pub(crate) fn step(&mut self, offset: usize, k: u64) -> Result<Option<usize>, Refusal>
        requires { offset < 64 }
        ensures steps_the_island { StepsIsland I.Manager offset self.old.island k self.new.island result }
        ensures keeps_the_gateway { self.new.gate ≡ self.old.gate }
    {
        let gateway = self.gateway();
        let granted = self.island.step(k)?;
        Ok(own_site(gateway, offset, granted))
    }

    // Makes the gateway's due move. It grants no site.
    pub(crate) fn advance<O: Manager>(
        &mut self,
        outer: &mut O,
        post: usize,
    ) -> Result<Option<usize>, Refusal>
        ensures moves_the_gateway { MovesGateway I.Manager O.Manager post
            (link self.old.gate self.old.island outer.old)
            (link self.new.gate self.new.island outer.new) result }
    {
        self.gate.advance(&mut self.island, outer, post)?;
        Ok(None)
    }
}

// Parks a manager at one of its sites, which is never refused.
pub(crate) fn park_at<M: Manager>(part: &mut M, site: usize)
    requires { site < (M.Manager.meaning part.old).sites }
    ensures parks_at_that_site { M.Manager.parks part.old site part.new }
{
    let _ = part.park(site);
}

// The tie's number of a site of an island. The gateway has none. Both numbers are small, so the sum is in range.
fn own_site(gateway: usize, offset: usize, site: Option<usize>) -> Option<usize>
    requires { (gateway < 64) × (offset < 64) }
    ensures gives_the_number_in_the_tie { result ≡ own gateway offset site }
{
    site.filter(|site| *site < gateway)
        .map(|site| site + offset)
}
