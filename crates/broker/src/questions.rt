// What a broker answers: the questions of its manager, and the totals.
ghost use Rattle.std.specs.Prelude.{◌≡◌};
ghost use Rattle.manager.specs.Answers.{status_shown, called_shown, holder_shown, toll_shown};

use crate::state::Broker;
use manager::interface::Manager;
use manager::refusal::Refusal;
use manager::status::Status;

impl<M: Manager> Broker<M> {
    pub fn sites(&self) -> usize
        ensures shows_sites { result ≡ (M.Manager.meaning self.now.manager).sites }
    {
        self.manager.sites()
    }

    pub fn status(&self, site: usize) -> Result<Status, Refusal>
        ensures shows_status { result ≡ status_shown (M.Manager.meaning self.now.manager) site }
    {
        self.manager.status(site)
    }

    pub fn called(&self, site: usize) -> Result<bool, Refusal>
        ensures shows_called { result ≡ called_shown (M.Manager.meaning self.now.manager) site }
    {
        self.manager.called(site)
    }

    pub fn holder(&self) -> Option<usize>
        ensures shows_holder { result ≡ holder_shown (M.Manager.meaning self.now.manager) }
    {
        self.manager.holder()
    }

    pub fn underway(&self) -> u64
        ensures shows_underway { result ≡ (M.Manager.meaning self.now.manager).underway }
    {
        self.manager.underway()
    }

    pub fn toll(&self) -> u64
        ensures shows_toll { result ≡ toll_shown (M.Manager.meaning self.now.manager) }
    {
        self.manager.toll()
    }

    // The asks carried out since start.
    pub fn asks(&self) -> u64
        ensures shows_asks { result ≡ self.now.totals.asks }
    {
        self.totals.asks
    }

    // The frees carried out since start.
    pub fn frees(&self) -> u64
        ensures shows_frees { result ≡ self.now.totals.frees }
    {
        self.totals.frees
    }

    // The steps carried out since start, those of drains included.
    pub fn steps(&self) -> u64
        ensures shows_steps { result ≡ self.now.totals.steps }
    {
        self.totals.steps
    }
}
