// The lines of a replay, written at the front of output that the caller lends.
use lines::refusal::Refusal;
use lines::{write_fault, write_grant, write_refusal, write_totals};
use std::test::Fail;

#[test]
fn each_line_stands_at_the_front_and_later_bytes_stay(rt: HostRuntime) {
    let mut out = [b'.'; 14];
    assert_eq!(rt; write_totals(&mut out, 'T', 0, 2, 1, 0, 5), Ok(12));
    assert!(rt; out == *b"T 0 2 1 0 5\n..");
    assert_eq!(rt; write_grant(&mut out, 0, 10), Ok(7));
    assert!(rt; out == *b"G 0 10\n 0 5\n..");
    assert_eq!(rt; write_refusal(&mut out, 3, 5), Ok(6));
    assert!(rt; out == *b"N 3 5\n\n 0 5\n..");
    assert_eq!(rt; write_fault(&mut out, 8, 0, 0, 0), Ok(10));
    assert!(rt; out == *b"X 8 0 0 0\n5\n..");
}

#[test]
fn an_output_one_byte_short_is_refused_and_left(rt: HostRuntime) {
    let mut out = [b'.'; 6];
    assert_eq!(rt; write_grant(&mut out, 0, 10), Err(Refusal::ShortOutput));
    assert!(rt; out == *b"......");
}

#[test]
fn the_longest_line_is_written(rt: HostRuntime) {
    let mut out = [b'.'; 107];
    let most = 18_446_744_073_709_551_615;
    assert_eq!(rt; write_totals(&mut out, 'T', 0, 0, most, most, most), Ok(69));
    assert!(rt; out[67] == b'5' && out[68] == b'\n' && out[69] == b'.');
}

#[test]
fn a_refusal_is_shown_in_words(rt: HostRuntime) -> Result<(), Fail> {
    let heap = rt.alloc();
    let refusal = Refusal::ShortOutput;
    assert_eq!(rt;
        format!(in heap; "{refusal}")?.as_str(),
        "the output is shorter than the line"
    );
    assert_eq!(rt; format!(in heap; "{refusal:?}")?.as_str(), "ShortOutput");
    Ok(())
}
