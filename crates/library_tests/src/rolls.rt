// A roll over lent memory.
use history::Grant;
use manager::refusal::Refusal;
use roll::list::Roll;

const FIRST: Grant = Grant { site: 3, waited: 7 };

const SECOND: Grant = Grant { site: 0, waited: 2 };

#[test]
fn a_roll_of_no_place_takes_nothing(rt: HostRuntime) {
    let mut memory: [Grant; 0] = [];
    let mut roll = Roll::new(&mut memory);
    assert_eq!(rt; roll.room(), 0);
    assert_eq!(rt; roll.push(FIRST), Err(Refusal::RollFull));
    assert_eq!(rt; roll.len(), 0);
    assert_eq!(rt; roll.get(0), None);
    assert_eq!(rt; roll.count(3), 0);
}

#[test]
fn a_roll_of_one_place_takes_one(rt: HostRuntime) {
    let mut memory = [SECOND; 1];
    let mut roll = Roll::new(&mut memory);
    assert_eq!(rt; roll.get(0), None);
    assert_eq!(rt; roll.push(FIRST), Ok(()));
    assert_eq!(rt; roll.push(SECOND), Err(Refusal::RollFull));
    assert_eq!(rt; roll.get(0), Some(FIRST));
    assert_eq!(rt; roll.get(1), None);
    assert_eq!(rt; roll.room(), 0);
    roll.clear();
    assert_eq!(rt; roll.len(), 0);
    assert_eq!(rt; roll.room(), 1);
    assert_eq!(rt; memory[0], FIRST);
}

#[test]
fn elements_are_counted_by_the_site_that_they_tell(rt: HostRuntime) {
    let mut memory = [SECOND; 4];
    let mut roll = Roll::new(&mut memory);
    assert_eq!(rt; roll.push(FIRST), Ok(()));
    assert_eq!(rt; roll.push(SECOND), Ok(()));
    assert_eq!(rt; roll.push(FIRST), Ok(()));
    assert_eq!(rt; roll.count(3), 2);
    assert_eq!(rt; roll.count(0), 1);
    assert_eq!(rt; roll.count(1), 0);
    assert_eq!(rt; roll.len(), 3);
}

#[test]
fn a_roll_tells_whether_it_is_empty(rt: HostRuntime) {
    let mut memory = [FIRST];
    let mut roll = Roll::new(&mut memory);
    assert!(rt; roll.is_empty());
    assert_eq!(rt; roll.push(SECOND), Ok(()));
    assert!(rt; !roll.is_empty());
}

#[test]
fn a_roll_shows_its_elements_in_order_and_no_free_place(rt: HostRuntime) {
    let mut memory = [SECOND; 4];
    let mut roll = Roll::new(&mut memory);
    assert!(rt; roll.as_slice().is_empty());
    assert_eq!(rt; roll.push(FIRST), Ok(()));
    assert_eq!(rt; roll.push(SECOND), Ok(()));
    assert_eq!(rt; roll.as_slice(), [FIRST, SECOND].as_slice());
    assert_eq!(rt; roll.iter().next(), Some(&FIRST));
    assert_eq!(rt; roll.iter().count(), 2);
    let mut last = None;
    for grant in &roll {
        last = Some(*grant);
    }
    assert_eq!(rt; last, Some(SECOND));
}
