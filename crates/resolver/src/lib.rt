// From the list of nodes and the rows of sizes to the pass that settles: a pass over a row, and the passes.
#![tactic(auto)]

mod once;
mod passes;

use iter::Pos;
pub use once::bank_record;
pub use passes::resolve;
use prelude::Refusal;

// What a caller chooses, by value: the pass limit; the fill, 0 inherited and 1 full; and whether bank 0 is closed even where it is alone, which no pass reads.
#[derive(Clone, Copy)]
pub struct Choices {
    pub limit: u8,
    pub fill: u8,
    pub closed: bool,
}

// The state of a pass's walk, handed in and back by value: "bank positions, an array of 16 in the walk's state", and those of the walk of the pass before.
// What a bank loses to alignment no pass asks for.
#[derive(Clone, Copy)]
pub struct TwoWalks {
    pub at: [Pos; 16],
    pub old: [Pos; 16],
}

// A pass, and what its walk comes to.
#[derive(Clone, Copy)]
pub struct Passed {
    pub pass: Result<u8, Refusal>,
    pub walks: TwoWalks,
}

#[derive(Clone, Copy)]
pub struct Resolution {
    pub settled: Result<u64, Refusal>,
    pub passes: u64,
}
