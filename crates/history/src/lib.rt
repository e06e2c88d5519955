// The calls on a broker as mathematics: specs/ says what each call does and what is promised of every history of them,
// proofs/ that the promise follows from the laws of a manager.
#![tactic(auto)]

use roll::telling::TellsSite;

// The resource was given to a site, which had waited for so many steps.
#[derive(Clone, Copy, PartialEq, Eq, Debug)]
pub struct Grant {
    pub site: usize,
    pub waited: u64,
}

impl TellsSite for Grant {
    ghost told = { λ g. g.site };

    fn site(&self) -> usize {
        self.site
    }
}
