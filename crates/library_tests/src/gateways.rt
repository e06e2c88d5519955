// A gateway goes round: the resource comes into its island, and leaves again.
use gateway::{Gateway, last_site};
use manager::interface::Manager;
use manager::refusal::Refusal;
use suzuki_kasami::state::SuzukiKasami;

// The gateway is site 1 of its island, and acts at site 0 of the outer manager, where site 1 holds at first.
#[test]
fn a_gateway_brings_the_resource_in_and_out(rt: HostRuntime) {
    let mut island = SuzukiKasami::new(2);
    let mut outer = SuzukiKasami::new(2);
    let mut gate = Gateway::Out;
    assert_eq!(rt; last_site(&island), 1);
    assert!(rt; !gate.is_due(&island, &outer, 0));
    assert_eq!(rt;
        gate.advance(&mut island, &mut outer, 0),
        Err(Refusal::NoThing)
    );

    assert!(rt; island.ask(0).is_ok() && island.step(0).is_ok());
    assert!(rt; gate.is_due(&island, &outer, 0));
    assert_eq!(rt; gate.advance(&mut island, &mut outer, 0), Ok(()));
    assert_eq!(rt; gate, Gateway::Coming);

    assert!(rt; outer.step(0).is_ok() && outer.free(1).is_ok());
    assert_eq!(rt; outer.step(0), Ok(Some(0)));
    assert_eq!(rt; gate.advance(&mut island, &mut outer, 0), Ok(()));
    assert_eq!(rt; gate, Gateway::In);
    assert_eq!(rt; island.step(0), Ok(Some(0)));

    assert!(rt; outer.ask(1).is_ok() && outer.step(0).is_ok());
    assert_eq!(rt; gate.advance(&mut island, &mut outer, 0), Ok(()));
    assert_eq!(rt; gate, Gateway::Leaving);

    assert!(rt; island.step(0).is_ok() && island.free(0).is_ok());
    assert_eq!(rt; island.step(0), Ok(Some(1)));
    assert_eq!(rt; gate.advance(&mut island, &mut outer, 0), Ok(()));
    assert_eq!(rt; gate, Gateway::Out);
    assert_eq!(rt; outer.step(0), Ok(Some(1)));
}
