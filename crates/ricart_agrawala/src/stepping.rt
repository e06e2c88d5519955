// What a step does: one of the messages under way comes to where it goes. Sender and receiver stay two numbers: each function
// asks what the one knows of the other, and would only take a struct of both apart. What writes requires that its sites are
// among the 16: past them there is nothing to write, and a test would have no other answer to give.
ghost use Rattle.std.specs.Prelude.{◌≡◌, ◌<◌, max, if◌then◌else◌};
ghost use Rattle.manager.specs.Meaning.{limit};
ghost use Rattle.ricart_rules.specs.Reading.{meaning_of};
ghost use Rattle.ricart_rules.specs.Rules.{defers, received, replied, served, Delivered};
ghost use Rattle.ricart_rules.specs.declared.Stage.TheVariants.{Deferred, Replied};
ghost use Rattle.ricart_agrawala.specs.Reading.{state_of};
ghost use Rattle.ricart_agrawala.specs.Receiving.{noted, is_served, holding};

use crate::state::RicartAgrawala;
use counting::table::{Spot, Table};
use manager::status::Status;
use ricart_rules::Stage;

impl RicartAgrawala {
    // Carries out message number k of those under way, and answers the site that came to hold, if one did.
    pub(crate) fn deliver(&mut self, k: u64) -> Option<usize>
        requires { (k < (meaning_of (state_of self.old)).underway) × (self.old.island.age < limit) }
        ensures { Delivered (state_of self.old) k result (state_of self.new) }
    {
        let Spot {
            row: sender,
            column: receiver,
            earlier,
        } = self.find(k)?;
        if self.is_request(earlier, sender, receiver) {
            self.receive_request(sender, receiver);
            None
        } else {
            self.receive_reply(sender, receiver)
        }
    }

    // A REQUEST comes to its receiver, which raises its highest number, and defers the answer or sends a REPLY.
    fn receive_request(&mut self, sender: usize, receiver: usize)
        requires { (sender < 16) × ((receiver < 16) × (self.old.island.age < limit)) }
        ensures { state_of self.new ≡ received (state_of self.old) sender receiver }
    {
        self.stages[sender][receiver] = self.answer_to(sender, receiver);
        self.clocks[receiver].highest = self.raised(sender, receiver);
        self.island.age += 1;
    }

    // What becomes of the sender's request when it has come to the receiver.
    fn answer_to(&self, sender: usize, receiver: usize) -> Stage
        ensures { result ≡ (if defers (state_of self.now) receiver sender then Deferred else Replied) }
    {
        if self.defers(receiver, sender) {
            Stage::Deferred
        } else {
            Stage::Replied
        }
    }

    // The highest number that the receiver knows when the sender's REQUEST has come.
    fn raised(&self, sender: usize, receiver: usize) -> u64
        ensures { result ≡ max ((state_of self.now).highest receiver) ((state_of self.now).number sender) }
    {
        self.clock(receiver).highest.max(self.clock(sender).number)
    }

    // A REPLY comes to its receiver, which holds if it was the last. Answers the receiver then.
    fn receive_reply(&mut self, sender: usize, receiver: usize) -> Option<usize>
        requires { (sender < 16) × ((receiver < 16) × (self.old.island.age < limit)) }
        ensures state { state_of self.new ≡ replied (state_of self.old) sender receiver }
        ensures grant { result ≡ served (state_of self.old) sender receiver }
    {
        self.note_reply(sender, receiver);
        if self.is_served(receiver) {
            self.hold(receiver);
            Some(receiver)
        } else {
            None
        }
    }

    fn note_reply(&mut self, sender: usize, receiver: usize)
        requires { (sender < 16) × ((receiver < 16) × (self.old.island.age < limit)) }
        ensures { state_of self.new ≡ noted (state_of self.old) sender receiver }
    {
        self.stages[receiver][sender] = Stage::Received;
        self.island.age += 1;
    }

    // Does the site wait, and has it every REPLY?
    fn is_served(&self, site: usize) -> bool
        ensures { result ≡ is_served (state_of self.now) site }
    {
        self.island.status_of(site).is_waiting() && !self.lacks_reply(site)
    }

    fn hold(&mut self, site: usize)
        requires { site < 16 }
        ensures { state_of self.new ≡ holding (state_of self.old) site }
    {
        self.island.status[site] = Status::Holding;
    }
}
