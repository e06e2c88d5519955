// Messages under way as a table, by sender and receiver: how many there are, and which has so many before it.
use counting::stored::cell_or;
use counting::table::{Coordinate, Spot, Table};
use manager::interface::Manager;
use manager::status::Status;
use ricart_agrawala::state::RicartAgrawala;
use suzuki_kasami::state::SuzukiKasami;

#[test]
fn requests_are_counted_and_found_by_sender_and_receiver(rt: HostRuntime) {
    let mut manager = SuzukiKasami::new(3);
    assert_eq!(rt; manager.find(0), None);
    assert_eq!(rt; manager.ask(1), Ok(Status::Waiting));
    assert_eq!(rt; manager.side(), 3);
    assert_eq!(rt; manager.cell(1, 2), 1);
    assert_eq!(rt; manager.cell(1, 1), 0);
    let one = Coordinate { number: 1 };
    let two = Coordinate { number: 2 };
    assert_eq!(rt; manager.cell_at(one, two), 1);
    assert_eq!(rt; manager.cell_at(one, one), 0);
    assert_eq!(rt; manager.row_total(1), 2);
    assert_eq!(rt; manager.row_total(0), 0);
    assert_eq!(rt; manager.total(), 2);
    let last = Spot {
        row: 1,
        column: 2,
        earlier: 0,
    };
    assert_eq!(rt; manager.find(1), Some(last));
    assert_eq!(rt; manager.find(2), None);
}

// Site 0 has a REPLY under way to site 1, and a REQUEST of its own, which comes before it.
#[test]
fn a_request_and_a_reply_may_be_under_way_between_two_sites(rt: HostRuntime) {
    let mut manager = RicartAgrawala::new(3);
    assert_eq!(rt; manager.ask(1), Ok(Status::Waiting));
    assert_eq!(rt; manager.step(0), Ok(None));
    assert_eq!(rt; manager.ask(0), Ok(Status::Waiting));
    assert_eq!(rt; manager.cell(0, 1), 2);
    let zero = Coordinate { number: 0 };
    let one = Coordinate { number: 1 };
    assert_eq!(rt; manager.cell_at(zero, one), 2);
    assert_eq!(rt; manager.cell_at(one, zero), 0);
    assert_eq!(rt; manager.row_total(0), 3);
    assert_eq!(rt; manager.total(), 4);
    let reply = Spot {
        row: 0,
        column: 1,
        earlier: 1,
    };
    assert_eq!(rt; manager.find(1), Some(reply));
    assert_eq!(rt; manager.find(4), None);
}

#[test]
fn a_cell_that_is_not_stored_reads_as_the_default(rt: HostRuntime) {
    let mut rows = [[0; 16]; 16];
    rows[15][3] = 7;
    assert_eq!(rt; cell_or(&rows, 15, 3, 9), 7);
    assert_eq!(rt; cell_or(&rows, 3, 15, 9), 0);
    assert_eq!(rt; cell_or(&rows, 16, 3, 9), 9);
    assert_eq!(rt; cell_or(&rows, 15, 16, 9), 9);
}
