// Where each node of the list stands: the distance to an alignment, the address, the output position, and the walk that goes
// from node to node with a position for each bank.
#![tactic(auto)]

mod alignment;
mod paces;
mod places;
mod steps;

pub use alignment::bits_until_alignment;
pub use paces::{MADE, is_bad_state, pace, pace_of_parts, sight_of, stays_known, why_refused};
pub use places::{get_address, get_output_position, on_boundary};
use prelude::Refusal;
pub use steps::{bank_after, lost_after, start};

// A bank's position in bits, and whether it is known: the Rust's `BankData`.
// stays: a position that is not known is read too, so the two are no option
#[derive(Clone, Copy)]
pub struct Pos {
    pub position: u32,
    pub known: bool,
}

// What a bank has lost to alignment so far: the bits, and the whole address units, each skip's rounded down by itself.
#[repr(C)]
#[derive(Clone, Copy)]
pub struct Lost {
    pub bits: u64,
    pub units: u64,
}

// The walk's state, handed in and back by value: "bank positions, an array of 16 in the walk's state", what each bank has lost to
// alignment so far, and the bank that the walk stands in.
#[derive(Clone, Copy)]
pub struct Walk {
    pub at: [Pos; 16],
    pub lost: [Lost; 16],
    pub bank: u64,
}

// What a distance skips: its bits, and "the count of whole address units" in them.
#[derive(Clone, Copy)]
pub struct Skipped {
    pub bits: u32,
    pub units: u32,
}

// A position that a node sees or moves to, and what is skipped on the way. Refused, nothing is.
#[derive(Clone, Copy)]
pub struct Motion {
    pub to: Result<Pos, Refusal>,
    pub skipped: Skipped,
}

// A node crossed in the bank that it stands in: the position that it sees, what its alignment skips, and the bank's position after it.
// Refused, nothing is skipped and the position is the one given.
#[derive(Clone, Copy)]
pub struct Crossing {
    pub seen: Result<Pos, Refusal>,
    pub skipped: Skipped,
    pub after: Pos,
}

// A step in numbers, which a loop stores into its own walk: 0, or the number of what the node is refused for, 4 or 5; the position that it sees, its
// bank's position after it, and what its alignment skips. Refused, nothing is skipped and the position is the one given.
#[derive(Clone, Copy)]
pub struct Paced {
    pub fault: u8,
    pub seen: Pos,
    pub after: Pos,
    pub skipped: Skipped,
}

// A step of the walk: the position that the node sees, what its alignment skips, and the walk after it. Refused, nothing is
// skipped and the walk is the walk given.
#[derive(Clone, Copy)]
pub struct Stepped {
    pub seen: Result<Pos, Refusal>,
    pub skipped: Skipped,
    pub walk: Walk,
}
