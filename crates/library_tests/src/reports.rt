// What the programs share: a number of their arguments, what a run does, and its report.
use broker::state::Broker;
use history::Grant;
use manager::refusal::Refusal;
use programs::{PrintedGrant, Report, Run, argument, number_within};
use roll::list::Roll;
use std::test::Fail;
use suzuki_kasami::state::SuzukiKasami;

#[test]
fn a_number_of_an_argument_is_within_its_bounds(rt: HostRuntime) -> Result<(), Fail> {
    assert_eq!(rt; number_within("2", 2, 16), Some(2));
    assert_eq!(rt; number_within("16", 2, 16), Some(16));
    assert_eq!(rt; number_within("1", 2, 16), None);
    assert_eq!(rt; number_within("17", 2, 16), None);
    assert_eq!(rt; number_within("many", 2, 16), None);
    assert!(rt; argument(&rt, 1000)?.is_none());
    Ok(())
}

#[test]
fn a_site_is_asked_for_until_it_has_been_served(rt: HostRuntime) {
    let mut memory = [Grant { site: 0, waited: 0 }; 4];
    let mut run = run_of_three_sites(&mut memory);
    run.ask_unless_served(0, 0);
    assert_eq!(rt; run.broker.asks(), 0);
    run.ask_unless_served(0, 1);
    assert_eq!(rt; run.broker.asks(), 1);
    assert_eq!(rt; run.grants.push(Grant { site: 1, waited: 2 }), Ok(()));
    run.ask_unless_served(1, 1);
    assert_eq!(rt; run.broker.asks(), 1);
}

// Sites 0 and 1 wait until site 2 frees; the token then goes to the one that is known to have asked.
#[test]
fn a_run_asks_steps_frees_and_drains(rt: HostRuntime) {
    let mut memory = [Grant { site: 0, waited: 0 }; 4];
    let mut run = run_of_three_sites(&mut memory);
    run.ask_all(1);
    assert_eq!(rt; run.broker.asks(), 2);
    assert_eq!(rt; run.step(0), Ok(None));
    assert_eq!(rt; run.step(9), Err(Refusal::NoThing));
    assert_eq!(rt; run.free_holder(), Some(2));
    assert_eq!(rt; run.free_holder(), None);
    assert_eq!(rt; run.drain(9).stopped, None);
    assert_eq!(rt; run.broker.frees(), 1);
    assert_eq!(rt; run.grants.len(), 1);
}

#[test]
fn a_run_is_reported(rt: HostRuntime) -> Result<(), Fail> {
    let heap = rt.alloc();
    let mut memory = [Grant { site: 0, waited: 0 }; 4];
    let mut roll = Roll::new(&mut memory);
    let mut broker = Broker::new(SuzukiKasami::new(3));
    assert!(rt; broker.ask(0, &mut roll).is_ok());
    let report = Report::of(&broker);
    assert_eq!(rt; report.most_steps(), 8);
    assert_eq!(rt;
        format!(in heap; "{report}")?.as_str(),
        "kind S, 3 sites: asks 1, frees 0, steps 0\ntoll 4: at most 8 steps"
    );
    let printed = PrintedGrant(Grant { site: 2, waited: 7 });
    assert_eq!(rt;
        format!(in heap; "{printed}")?.as_str(),
        "site 2 holds after 7 steps"
    );
    Run {
        broker,
        grants: roll,
    }
    .print(&rt)?;
    Ok(())
}

// A run of three sites, the last of them holding.
fn run_of_three_sites(memory: &mut [Grant]) -> Run<'_, SuzukiKasami> {
    Run {
        broker: Broker::new(SuzukiKasami::new(3)),
        grants: Roll::new(memory),
    }
}
