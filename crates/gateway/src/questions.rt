// What a gateway asks of its island and of the outer manager.
ghost use Rattle.std.specs.Prelude.{◌≡◌, ◌&&◌, nat_lt};
ghost use Rattle.manager.specs.Meaning.{is_holding};
ghost use Rattle.gateway.specs.Automaton.{last};

use manager::interface::Manager;
use manager::status::Status;

// The last site of an island, which is its gateway.
pub fn last_site<I: Manager>(island: &I) -> usize
    ensures gives_last_site { result ≡ last (I.Manager.meaning island.now) }
{
    island.sites() - 1
}

// Has the manager a site of this number?
pub(crate) fn has_site<M: Manager>(part: &M, site: usize) -> bool
    ensures tells_whether_it_has_the_site { result ≡ nat_lt site (M.Manager.meaning part.now).sites }
{
    site < part.sites()
}

// Is the site called in this manager? One that it has not is not.
pub(crate) fn is_called<M: Manager>(part: &M, site: usize) -> bool
    ensures tells_whether_called { result ≡ ((M.Manager.meaning part.now).called site && nat_lt site (M.Manager.meaning part.now).sites) }
{
    part.called(site).unwrap_or(false)
}

// Does the site hold in this manager? One that it has not does not.
pub(crate) fn is_holding<M: Manager>(part: &M, site: usize) -> bool
    ensures tells_whether_holding { result ≡ (is_holding ((M.Manager.meaning part.now).status site) && nat_lt site (M.Manager.meaning part.now).sites) }
{
    part.status(site) == Ok(Status::Holding)
}
