// Suzuki and Kasami's algorithm as mathematics: specs/ has its rules and its invariant, proofs/ that the rules are lawful.
#![tactic(auto)]

// Where the token is: at a site, or on its way to one.
#[derive(Clone, Copy, PartialEq, Eq, Debug)]
pub enum Token {
    At(usize),
    Sent(usize),
}
