// A gateway goes round through its states, one due move at a time. Its island, the outer manager and its post come as they are: a struct
// of two `&mut` would be made for each call and taken apart in it.
ghost use Rattle.std.specs.Prelude.{◌≡◌};
ghost use Rattle.gateway.specs.Automaton.{link, due_at};
ghost use Rattle.gateway.specs.Moves.{GoesOrRefuses, AdvancesOrRefuses};

use crate::questions::{has_site, is_called, is_holding, last_site};
use crate::state::Gateway;
use manager::interface::Manager;
use manager::refusal::Refusal;

impl Gateway {
    // Is a move due? The gateway acts at the outer manager's site `post`; if there is no such site, none ever is.
    pub fn is_due<I: Manager, O: Manager>(&self, island: &I, outer: &O, post: usize) -> bool
        ensures tells_whether_a_move_is_due { result ≡ due_at I.Manager O.Manager post (link self.now island.now outer.now) }
    {
        let own = last_site(island);
        match self {
            Gateway::Out => is_called(island, own) && has_site(outer, post),
            Gateway::Coming => is_holding(outer, post),
            Gateway::In => is_called(outer, post),
            Gateway::Leaving => is_holding(island, own) && has_site(outer, post),
        }
    }

    // Makes the move that is due: one call in the island or at the outer manager, and the next state.
    pub fn advance<I: Manager, O: Manager>(
        &mut self,
        island: &mut I,
        outer: &mut O,
        post: usize,
    ) -> Result<(), Refusal>
        ensures advances_or_refuses { AdvancesOrRefuses I.Manager O.Manager post
            (link self.old island.old outer.old)
            (link self.new island.new outer.new) result }
    {
        if !self.is_due(island, outer, post) {
            return Err(Refusal::NoThing);
        }
        self.go_on(island, outer, post)
    }

    // Makes the move of its state, due or not.
    fn go_on<I: Manager, O: Manager>(
        &mut self,
        island: &mut I,
        outer: &mut O,
        post: usize,
    ) -> Result<(), Refusal>
        ensures goes_or_refuses { GoesOrRefuses I.Manager O.Manager post
            (link self.old island.old outer.old)
            (link self.new island.new outer.new) result }
    {
        let own = last_site(island);
        match *self {
            Gateway::Out => {
                outer.ask(post)?;
                *self = Gateway::Coming;
            }
            Gateway::Coming => {
                island.free(own)?;
                *self = Gateway::In;
            }
            Gateway::In => {
                island.ask(own)?;
                *self = Gateway::Leaving;
            }
            Gateway::Leaving => {
                outer.free(post)?;
                *self = Gateway::Out;
            }
        }
        Ok(())
    }
}
