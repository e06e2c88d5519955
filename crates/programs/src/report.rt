// What a broker shows at the end of a run.

#[derive(Clone, Copy)]
pub struct Report {
    // The manager's own letter, `Manager::KIND`: kinds are open, so there is no enum of them.
    pub kind: char,
    pub sites: usize,
    pub asks: u64,
    pub frees: u64,
    pub steps: u64,
    pub toll: u64,
}
