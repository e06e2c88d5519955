// The writing of the wait list, into lists one place too short, as long as the sites, and one place longer.
use broker::state::Broker;
use history::Grant;
use manager::interface::Manager;
use manager::refusal::Refusal;
use manager::status::Status;
use roll::list::Roll;
use suzuki_kasami::state::SuzukiKasami;

#[test]
fn a_wait_list_wants_a_place_for_each_site(rt: HostRuntime) {
    let mut memory = [Grant { site: 0, waited: 0 }; 2];
    let mut roll = Roll::new(&mut memory);
    let mut broker = Broker::new(SuzukiKasami::new(3));
    assert_eq!(rt; broker.ask(1, &mut roll), Ok(Status::Waiting));
    assert_eq!(rt; broker.step(0, &mut roll), Ok(None));
    assert_eq!(rt; broker.ask(0, &mut roll), Ok(Status::Waiting));
    assert_eq!(rt; broker.step(0, &mut roll), Ok(None));
    let mut short = [9; 2];
    assert_eq!(rt; broker.write_waits(&mut short), Err(Refusal::ShortWaitList));
    assert_eq!(rt; short, [9, 9]);
    let mut just = [9; 3];
    assert_eq!(rt; broker.write_waits(&mut just), Ok(()));
    assert_eq!(rt; just, [1, 2, 0]);
    let mut long = [9; 4];
    assert_eq!(rt; broker.write_waits(&mut long), Ok(()));
    assert_eq!(rt; long, [1, 2, 0, 9]);
}
