// The refusals of each call, in the order in which they are tried.
use broker::state::Broker;
use history::Grant;
use manager::interface::Manager;
use manager::refusal::Refusal;
use manager::status::Status;
use roll::list::Roll;
use suzuki_kasami::state::SuzukiKasami;

const NONE: Grant = Grant { site: 0, waited: 0 };

#[test]
fn an_ask_tries_the_site_then_its_status_then_the_roll(rt: HostRuntime) {
    let mut none: [Grant; 0] = [];
    let mut full = Roll::new(&mut none);
    let mut memory = [NONE; 2];
    let mut roll = Roll::new(&mut memory);
    let mut broker = Broker::new(SuzukiKasami::new(3));
    assert_eq!(rt; broker.ask(3, &mut full), Err(Refusal::NoSite));
    assert_eq!(rt; broker.ask(2, &mut full), Err(Refusal::NotIdle));
    assert_eq!(rt; broker.ask(0, &mut full), Err(Refusal::RollFull));
    assert_eq!(rt; broker.ask(0, &mut roll), Ok(Status::Waiting));
    assert_eq!(rt; broker.ask(0, &mut roll), Err(Refusal::NotIdle));
    assert_eq!(rt; broker.asks(), 1);
}

#[test]
fn a_free_tries_the_site_then_its_status(rt: HostRuntime) {
    let mut broker = Broker::new(SuzukiKasami::new(3));
    assert_eq!(rt; broker.free(3), Err(Refusal::NoSite));
    assert_eq!(rt; broker.free(0), Err(Refusal::NotHolding));
    assert_eq!(rt; broker.free(2), Ok(()));
    assert_eq!(rt; broker.free(2), Err(Refusal::NotHolding));
    assert_eq!(rt; broker.frees(), 1);
}

#[test]
fn a_step_tries_the_thing_then_the_roll(rt: HostRuntime) {
    let mut none: [Grant; 0] = [];
    let mut full = Roll::new(&mut none);
    let mut memory = [NONE; 2];
    let mut roll = Roll::new(&mut memory);
    let mut broker = Broker::new(SuzukiKasami::new(3));
    assert_eq!(rt; broker.step(0, &mut full), Err(Refusal::NoThing));
    assert_eq!(rt; broker.ask(0, &mut roll), Ok(Status::Waiting));
    assert_eq!(rt; broker.step(2, &mut full), Err(Refusal::NoThing));
    assert_eq!(rt; broker.step(0, &mut full), Err(Refusal::RollFull));
    assert_eq!(rt; broker.underway(), 2);
    assert_eq!(rt; broker.steps(), 0);
}

#[test]
fn a_start_and_the_questions_try_the_site(rt: HostRuntime) {
    let mut broker = Broker::new(SuzukiKasami::new(3));
    assert_eq!(rt; broker.start(3), Err(Refusal::NoSite));
    assert_eq!(rt; broker.status(3), Err(Refusal::NoSite));
    assert_eq!(rt; broker.called(3), Err(Refusal::NoSite));
    assert_eq!(rt; broker.wait(3), Err(Refusal::NoSite));
    assert_eq!(rt; broker.holder(), Some(2));
}

#[test]
fn refusals_have_their_numbers(rt: HostRuntime) {
    assert_eq!(rt; Refusal::NoSite.number(), 1);
    assert_eq!(rt; Refusal::Worn.number(), 2);
    assert_eq!(rt; Refusal::NotIdle.number(), 3);
    assert_eq!(rt; Refusal::NotHolding.number(), 4);
    assert_eq!(rt; Refusal::NoThing.number(), 5);
    assert_eq!(rt; Refusal::RollFull.number(), 6);
    assert_eq!(rt; Refusal::ShortWaitList.number(), 7);
    assert_eq!(rt; Refusal::LimitReached.number(), 11);
}
