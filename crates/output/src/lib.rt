// The build: from the lists and the pass that settled to the image and its spans.
#![tactic(auto)]

mod builds;

pub use builds::{build_output, row_start};
use iter::Lost;
use prelude::Refusal;

// A build that is done: pass K, the image's length in bits and the number of spans.
#[derive(Clone, Copy)]
pub struct Built {
    pub k: u64,
    pub length: u64,
    pub spans: u64,
}

// What a build answers: what it comes to, or why it is refused; and the passes run. And each bank's padding, banks 0 to 15: the bits and the whole address
// units that it lost to `align` and to label alignment in the last pass. Refused, zeros.
#[derive(Clone, Copy)]
pub struct Output {
    pub build: Result<Built, Refusal>,
    pub passes: u64,
    pub padding: [Lost; 16],
}
