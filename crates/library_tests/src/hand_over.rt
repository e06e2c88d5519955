// A resource is asked for, handed over and recorded.
use broker::state::Broker;
use history::Grant;
use roll::list::Roll;
use std::test::Fail;
use suzuki_kasami::state::SuzukiKasami;

fn hand_over() -> anyhow::Result<Option<Grant>> {
    let mut memory = [Grant { site: 0, waited: 0 }; 8];
    let mut roll = Roll::new(&mut memory);
    let mut broker = Broker::new(SuzukiKasami::new(3));
    broker.ask(0, &mut roll)?;
    broker.step(1, &mut roll)?;
    broker.step(0, &mut roll)?;
    broker.free(2)?;
    broker.step(0, &mut roll)?;
    Ok(roll.get(0))
}

#[test]
fn a_refusal_and_a_grant_reach_the_caller(rt: HostRuntime) -> Result<(), Fail> {
    let mut broker = Broker::new(SuzukiKasami::new(3));
    assert!(rt; start_all(&mut broker).is_err());
    assert_eq!(rt; hand_over()?, Some(Grant { site: 0, waited: 3 }));
    Ok(())
}

// Starts at each site in turn, until one is refused.
fn start_all(broker: &mut Broker<SuzukiKasami>) -> anyhow::Result<()> {
    for site in 0..9 {
        broker.start(site)?;
    }
    Ok(())
}
