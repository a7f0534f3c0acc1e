// What the build sees of each node in turn, in the row of the last pass.
#![tactic(auto)]

use bankdef::Bankdef;
use iter::{Pos, Walk};
use nodes::Node;
use prelude::Refusal;

// A node, the bank that it stands in, the position that it sees, where that is in the output, and the walk after it.
#[derive(Clone, Copy)]
pub struct Visit {
    pub node: Node,
    pub bank: u64,
    pub def: Bankdef,
    pub seen: Result<Pos, Refusal>,
    pub out: Option<u64>,
    pub walk: Walk,
}
