// A node's id and a rerouter's number, each of a type of its own, so that a feeder can't be given a brick's id.

// The id of a node.
#[derive(Clone, Copy)]
pub struct NodeId(pub u32);

// The number of a rerouter.
#[derive(Clone, Copy)]
pub struct RerouterId(pub u32);
