// How much memory the library takes: a controller has 64 KB in all.
use broker::state::Broker;
use history::Grant;
use ricart_agrawala::state::RicartAgrawala;
use std::mem::size_of;
use suzuki_kasami::state::SuzukiKasami;
use tie::state::Tie;

type Pair = Tie<SuzukiKasami, SuzukiKasami, SuzukiKasami>;

// Five islands with 64 sites in all, each of them and each outer manager of the larger kind.
type Nest = Tie<Tie<Pair, Pair, SuzukiKasami>, SuzukiKasami, SuzukiKasami>;

#[test]
fn a_manager_of_sixteen_sites_is_small(rt: HostRuntime) {
    assert!(rt; size_of::<RicartAgrawala>() <= 1024);
    assert!(rt; size_of::<SuzukiKasami>() <= 3072);
}

#[test]
fn the_largest_nest_with_its_broker_rolls_and_wait_list_takes_half_the_memory(rt: HostRuntime) {
    let nest = size_of::<Broker<Nest>>();
    let rolls = 2 * size_of::<[Grant; 64]>();
    let waits = size_of::<[u64; 64]>();
    assert!(rt; nest + rolls + waits <= 32 * 1024);
}
