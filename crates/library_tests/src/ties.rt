// Ties of islands, and ties of ties.
use broker::state::{Broker, DrainReport};
use history::Grant;
use manager::interface::Manager;
use manager::refusal::Refusal;
use manager::status::Status;
use ricart_agrawala::state::RicartAgrawala;
use roll::list::Roll;
use suzuki_kasami::state::SuzukiKasami;
use tie::state::Tie;

const NONE: Grant = Grant { site: 0, waited: 0 };

// Two islands of one site each, besides their gateways. The right one holds, so the left gateway has to fetch the resource
// from the outer manager: its REQUEST, its move and the right gateway's come before anybody can be served.
#[test]
fn the_resource_comes_from_one_island_to_the_other(rt: HostRuntime) {
    let mut memory = [NONE; 4];
    let mut roll = Roll::new(&mut memory);
    let mut broker = Broker::new(Tie::new(
        SuzukiKasami::new(2),
        SuzukiKasami::new(2),
        SuzukiKasami::new(2),
    ));
    assert_eq!(rt; broker.toll(), 27);
    assert_eq!(rt; broker.holder(), Some(1));
    assert_eq!(rt; broker.ask(0, &mut roll), Ok(Status::Waiting));
    assert_eq!(rt;
        broker.drain(9999, &mut roll),
        DrainReport {
            steps: 5,
            stopped: None,
        }
    );
    assert_eq!(rt; broker.called(1), Ok(true));
    assert_eq!(rt; broker.free(1), Ok(()));
    assert_eq!(rt;
        broker.drain(9999, &mut roll),
        DrainReport {
            steps: 5,
            stopped: None,
        }
    );
    assert_eq!(rt; broker.holder(), Some(0));
    assert_eq!(rt;
        roll.get(0),
        Some(Grant {
            site: 0,
            waited: 10,
        })
    );
}

// The left island's sites come first, without its gateway, then the right island's.
#[test]
fn sites_are_counted_across_the_border(rt: HostRuntime) {
    let mut memory = [NONE; 4];
    let mut roll = Roll::new(&mut memory);
    let mut broker = Broker::new(Tie::new(
        SuzukiKasami::new(3),
        RicartAgrawala::new(4),
        RicartAgrawala::new(2),
    ));
    assert_eq!(rt; broker.sites(), 5);
    assert_eq!(rt; broker.start(1), Ok(()));
    assert_eq!(rt; broker.holder(), Some(1));
    assert_eq!(rt; broker.start(2), Ok(()));
    assert_eq!(rt; broker.holder(), Some(2));
    assert_eq!(rt; broker.ask(5, &mut roll), Err(Refusal::NoSite));
    assert_eq!(rt; broker.ask(4, &mut roll), Ok(Status::Waiting));
    assert_eq!(rt; broker.status(4), Ok(Status::Waiting));
    assert_eq!(rt; broker.toll(), 63);
}

// Three pairs of islands of 16 sites have more than 64 sites, of which the first 64 are reachable.
#[test]
fn sixty_four_sites_are_reachable(rt: HostRuntime) {
    let mut memory = [NONE; 1];
    let mut roll = Roll::new(&mut memory);
    let two = Tie::new(pair(), pair(), RicartAgrawala::new(2));
    let mut broker = Broker::new(Tie::new(two, pair(), RicartAgrawala::new(2)));
    assert_eq!(rt; broker.sites(), 64);
    assert_eq!(rt; broker.holder(), Some(63));
    assert_eq!(rt; broker.ask(64, &mut roll), Err(Refusal::NoSite));
    assert_eq!(rt; broker.status(64), Err(Refusal::NoSite));
    assert_eq!(rt; broker.ask(62, &mut roll), Ok(Status::Waiting));
}

fn pair() -> Tie<RicartAgrawala, RicartAgrawala, RicartAgrawala> {
    Tie::new(
        RicartAgrawala::new(16),
        RicartAgrawala::new(16),
        RicartAgrawala::new(2),
    )
}
