// What a gateway, the last site of its island, is about.
#[derive(Clone, Copy, PartialEq, Eq, Debug)]
pub enum Gateway {
    // It holds in its island, and the resource is elsewhere.
    Out,
    // It holds in its island still, and has asked for the resource at the outer manager.
    Coming,
    // It holds at the outer manager, and the resource is in its island.
    In,
    // It holds at the outer manager still, and has asked in its island to bring the resource out.
    Leaving,
}
