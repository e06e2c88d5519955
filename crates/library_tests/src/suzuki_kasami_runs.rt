// Runs of a broker over Suzuki and Kasami's manager.
use broker::state::{Broker, DrainReport};
use history::Grant;
use manager::interface::Manager;
use manager::refusal::Refusal;
use manager::status::Status;
use roll::list::Roll;
use suzuki_kasami::state::SuzukiKasami;

const NONE: Grant = Grant { site: 0, waited: 0 };

// Three sites, the last of them holding. Site 0 asks; its REQUESTs go to 1 and 2, and come in the other order. Site 2
// frees and sends the token, which comes to site 0 as the third step.
#[test]
fn the_token_goes_to_the_site_that_asked(rt: HostRuntime) {
    let mut memory = [NONE; 4];
    let mut roll = Roll::new(&mut memory);
    let mut broker = Broker::new(SuzukiKasami::new(3));
    assert_eq!(rt; broker.holder(), Some(2));
    assert_eq!(rt; broker.ask(0, &mut roll), Ok(Status::Waiting));
    assert_eq!(rt; broker.underway(), 2);
    assert_eq!(rt; broker.step(1, &mut roll), Ok(None));
    assert_eq!(rt; broker.called(2), Ok(true));
    assert_eq!(rt; broker.step(0, &mut roll), Ok(None));
    assert_eq!(rt; broker.wait(0), Ok(2));
    assert_eq!(rt; broker.free(2), Ok(()));
    assert_eq!(rt; broker.step(0, &mut roll), Ok(Some(0)));
    assert_eq!(rt; broker.holder(), Some(0));
    assert_eq!(rt; roll.get(0), Some(Grant { site: 0, waited: 3 }));
    assert_eq!(rt; roll.len(), 1);
}

#[test]
fn the_site_that_has_the_token_holds_at_once(rt: HostRuntime) {
    let mut memory = [NONE; 4];
    let mut roll = Roll::new(&mut memory);
    let mut broker = Broker::new(SuzukiKasami::new(3));
    assert_eq!(rt; broker.free(2), Ok(()));
    assert_eq!(rt; broker.holder(), None);
    assert_eq!(rt; broker.ask(2, &mut roll), Ok(Status::Holding));
    assert_eq!(rt; broker.underway(), 0);
    assert_eq!(rt; roll.get(0), Some(Grant { site: 2, waited: 0 }));
}

#[test]
fn a_drain_stops_at_its_bound_and_says_how_far_it_came(rt: HostRuntime) {
    let mut memory = [NONE; 4];
    let mut roll = Roll::new(&mut memory);
    let mut broker = Broker::new(SuzukiKasami::new(4));
    assert_eq!(rt; broker.ask(0, &mut roll), Ok(Status::Waiting));
    assert_eq!(rt;
        broker.drain(2, &mut roll),
        DrainReport {
            steps: 2,
            stopped: Some(Refusal::LimitReached),
        }
    );
    assert_eq!(rt;
        broker.drain(1, &mut roll),
        DrainReport {
            steps: 1,
            stopped: None,
        }
    );
    assert_eq!(rt;
        broker.drain(0, &mut roll),
        DrainReport {
            steps: 0,
            stopped: None,
        }
    );
    assert_eq!(rt; broker.steps(), 3);
}

#[test]
fn a_drain_stops_at_a_full_roll(rt: HostRuntime) {
    let mut memory = [NONE; 1];
    let mut roll = Roll::new(&mut memory);
    let mut broker = Broker::new(SuzukiKasami::new(2));
    assert_eq!(rt; broker.ask(0, &mut roll), Ok(Status::Waiting));
    assert_eq!(rt;
        broker.drain(9, &mut roll),
        DrainReport {
            steps: 1,
            stopped: None,
        }
    );
    assert_eq!(rt; broker.free(1), Ok(()));
    assert_eq!(rt;
        broker.drain(9, &mut roll),
        DrainReport {
            steps: 1,
            stopped: None,
        }
    );
    assert_eq!(rt; roll.get(0), Some(Grant { site: 0, waited: 2 }));
    assert_eq!(rt; broker.free(0), Ok(()));
    assert_eq!(rt; broker.ask(1, &mut roll), Err(Refusal::RollFull));
    let mut more = [NONE; 1];
    let mut empty = Roll::new(&mut more);
    assert_eq!(rt; broker.ask(1, &mut empty), Ok(Status::Waiting));
    assert_eq!(rt;
        broker.drain(9, &mut roll),
        DrainReport {
            steps: 0,
            stopped: Some(Refusal::RollFull),
        }
    );
    assert_eq!(rt; broker.asks(), 2);
}

#[test]
fn a_start_forgets_what_was_carried_out(rt: HostRuntime) {
    let mut memory = [NONE; 4];
    let mut roll = Roll::new(&mut memory);
    let mut broker = Broker::new(SuzukiKasami::new(3));
    assert_eq!(rt; broker.ask(0, &mut roll), Ok(Status::Waiting));
    assert_eq!(rt; broker.step(0, &mut roll), Ok(None));
    assert_eq!(rt; broker.start(0), Ok(()));
    assert_eq!(rt; broker.asks() + broker.frees() + broker.steps(), 0);
    assert_eq!(rt; broker.holder(), Some(0));
    assert_eq!(rt; broker.underway(), 0);
    assert_eq!(rt; broker.ask(2, &mut roll), Ok(Status::Waiting));
}

#[test]
fn sites_are_two_to_sixteen(rt: HostRuntime) {
    assert_eq!(rt; Broker::new(SuzukiKasami::new(0)).sites(), 2);
    assert_eq!(rt; Broker::new(SuzukiKasami::new(5)).sites(), 5);
    assert_eq!(rt; Broker::new(SuzukiKasami::new(99)).sites(), 16);
    assert_eq!(rt; Broker::new(SuzukiKasami::new(16)).toll(), 30);
}
