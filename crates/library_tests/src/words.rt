// What a person reads of a status and of a refusal.
use manager::refusal::Refusal;
use manager::status::Status;
use std::test::Fail;

#[test]
fn refusals_and_statuses_are_shown_in_words(rt: HostRuntime) -> Result<(), Fail> {
    let heap = rt.alloc();
    let refusal = Refusal::NotIdle;
    let status = Status::Waiting;
    assert_eq!(rt;
        format!(in heap; "{refusal}")?.as_str(),
        "the site is not idle"
    );
    assert_eq!(rt; format!(in heap; "{refusal:?}")?.as_str(), "NotIdle");
    assert_eq!(rt; format!(in heap; "{status}")?.as_str(), "waiting");
    assert_eq!(rt;
        Refusal::ShortWaitList.words(),
        "the wait list has fewer places than there are sites"
    );
    Ok(())
}
