// Who holds, by the statuses of the sites.
ghost use Rattle.std.specs.Prelude.{◌≡◌, take, slice_index_or};
ghost use Rattle.std.specs.List.{position};
ghost use Rattle.manager.specs.Answers.{first};
ghost use Rattle.manager.specs.Meaning.{is_holding};
ghost use Rattle.manager.specs.declared.status.Status.TheVariants.{Idle};

use crate::status::Status;

// The first of as many sites as there are that holds, if one does.
pub fn first_holding(status: &[Status], sites: usize) -> Option<usize>
    ensures { result ≡ first (λ i. is_holding (slice_index_or status.now i Idle)) sites }
{
    position_holding(status, sites)
}

fn position_holding(status: &[Status], sites: usize) -> Option<usize>
    ensures is_the_position { result ≡ position is_holding (take sites status.now) }
{
    status.iter().take(sites).position(|site| site.is_holding())
}
