// What a linker's map is to a linker: the bank, the position and the place in the output of each node, in the row of the last pass, as far as the layout
// goes, and the node at which it is refused.
#![tactic(auto)]

mod entries;
mod maps;
mod rows;
mod tracing;

use iter::Lost;
pub use maps::map_nodes;
use prelude::Refusal;

// How far a map goes: the layout's verdict, how many nodes have entries, from node 0 on, and the node at fault.
#[derive(Clone, Copy)]
pub struct Reach {
    pub verdict: Result<(), Refusal>,
    pub nodes: u64,
    pub fault: Option<u64>,
}

// What a map answers: that, the passes run, and what the nodes that have entries lost to alignment in each bank, banks 0 to 15.
#[derive(Clone, Copy)]
pub struct Map {
    pub verdict: Result<(), Refusal>,
    pub passes: u64,
    pub nodes: u64,
    pub fault: Option<u64>,
    pub padding: [Lost; 16],
}
