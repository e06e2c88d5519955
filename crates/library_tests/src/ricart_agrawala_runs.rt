// Runs of a broker over Ricart and Agrawala's manager.
use broker::state::{Broker, DrainReport};
use history::Grant;
use manager::interface::Manager;
use manager::status::Status;
use ricart_agrawala::state::RicartAgrawala;
use roll::list::Roll;

const NONE: Grant = Grant { site: 0, waited: 0 };

// Three sites, the last of them holding. Site 0 asks: site 1 replies, and site 2 defers until it frees.
#[test]
fn a_holder_replies_when_it_frees(rt: HostRuntime) {
    let mut memory = [NONE; 4];
    let mut roll = Roll::new(&mut memory);
    let mut broker = Broker::new(RicartAgrawala::new(3));
    assert_eq!(rt; broker.ask(0, &mut roll), Ok(Status::Waiting));
    assert_eq!(rt;
        broker.drain(9, &mut roll),
        DrainReport {
            steps: 3,
            stopped: None,
        }
    );
    assert_eq!(rt; broker.called(2), Ok(true));
    assert_eq!(rt; broker.wait(0), Ok(3));
    assert_eq!(rt; broker.free(2), Ok(()));
    assert_eq!(rt;
        broker.drain(9, &mut roll),
        DrainReport {
            steps: 1,
            stopped: None,
        }
    );
    assert_eq!(rt; broker.holder(), Some(0));
    assert_eq!(rt; roll.get(0), Some(Grant { site: 0, waited: 4 }));
}

// Sites 1 and 0 ask before either hears of the other, so both numbers are 2 and the smaller site goes first.
#[test]
fn equal_numbers_go_by_site(rt: HostRuntime) {
    let mut memory = [NONE; 4];
    let mut roll = Roll::new(&mut memory);
    let mut broker = Broker::new(RicartAgrawala::new(3));
    assert_eq!(rt; broker.ask(1, &mut roll), Ok(Status::Waiting));
    assert_eq!(rt; broker.ask(0, &mut roll), Ok(Status::Waiting));
    assert_eq!(rt; broker.free(2), Ok(()));
    assert_eq!(rt; broker.drain(99, &mut roll).stopped, None);
    assert_eq!(rt; broker.holder(), Some(0));
    assert_eq!(rt; broker.status(1), Ok(Status::Waiting));
    assert_eq!(rt; roll.len(), 1);
}

#[test]
fn sites_are_two_to_sixteen(rt: HostRuntime) {
    assert_eq!(rt; Broker::new(RicartAgrawala::new(0)).sites(), 2);
    assert_eq!(rt; Broker::new(RicartAgrawala::new(99)).sites(), 16);
    assert_eq!(rt; Broker::new(RicartAgrawala::new(16)).toll(), 30);
    assert_eq!(rt; Broker::new(RicartAgrawala::new(16)).holder(), Some(15));
}
