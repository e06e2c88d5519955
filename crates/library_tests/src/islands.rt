// What an island answers of its sites, and when it refuses a call.
use manager::island::Island;
use manager::refusal::Refusal;
use manager::status::Status;

#[test]
fn an_island_has_two_to_sixteen_sites_of_which_one_holds(rt: HostRuntime) {
    let island = Island::parked(3, 1);
    assert_eq!(rt; island.sites, 3);
    assert_eq!(rt; island.age, 0);
    assert_eq!(rt; island.holder(), Some(1));
    assert_eq!(rt; island.status_of(1), Status::Holding);
    assert_eq!(rt; island.status_of(2), Status::Idle);
    assert_eq!(rt; island.status_of(99), Status::Idle);
    assert_eq!(rt; island.toll(), 4);
    assert_eq!(rt; Island::parked(1, 0).sites, 2);
    assert_eq!(rt; Island::parked(17, 0).sites, 16);
    assert_eq!(rt; Island::parked(2, 99).holder(), None);
}

#[test]
fn an_island_writes_a_row_for_all_sites_but_one(rt: HostRuntime) {
    let island = Island::parked(3, 1);
    let row = island.with_others([0; 16], 1, 7);
    assert!(rt; row[..4] == [7, 0, 7, 0]);
}

#[test]
fn an_island_refuses_by_site_then_by_status(rt: HostRuntime) {
    let island = Island::parked(3, 1);
    assert_eq!(rt; island.names(2), Ok(()));
    assert_eq!(rt; island.names(3), Err(Refusal::NoSite));
    assert_eq!(rt; island.status(1), Ok(Status::Holding));
    assert_eq!(rt; island.status(3), Err(Refusal::NoSite));
    assert_eq!(rt; island.may_ask(0), Ok(()));
    assert_eq!(rt; island.may_ask(1), Err(Refusal::NotIdle));
    assert_eq!(rt; island.may_free(1), Ok(()));
    assert_eq!(rt; island.may_free(0), Err(Refusal::NotHolding));
    assert_eq!(rt; island.may_step(4, 5), Ok(()));
    assert_eq!(rt; island.may_step(5, 5), Err(Refusal::NoThing));
}

#[test]
fn a_worn_out_island_takes_no_call(rt: HostRuntime) {
    let mut island = Island::parked(2, 0);
    island.age = 1_000_000_000_000_000;
    assert_eq!(rt; island.may_ask(1), Err(Refusal::Worn));
    assert_eq!(rt; island.may_free(0), Err(Refusal::Worn));
    assert_eq!(rt; island.may_step(0, 1), Err(Refusal::Worn));
    assert_eq!(rt; island.may_ask(2), Err(Refusal::NoSite));
}
