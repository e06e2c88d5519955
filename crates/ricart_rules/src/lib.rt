// Ricart and Agrawala's algorithm as mathematics: specs/ has its rules and its invariant, proofs/ that the rules are lawful.
#![tactic(auto)]

// How far one site's request has come with another site.
#[derive(Clone, Copy, PartialEq, Eq, Debug)]
pub enum Stage {
    // The site has asked for nothing.
    Unasked,
    // Its REQUEST is on its way to the other.
    Requested,
    // The other has the REQUEST and defers the answer.
    Deferred,
    // The other's REPLY is on its way back.
    Replied,
    // The REPLY has come.
    Received,
}
