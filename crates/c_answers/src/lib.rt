// Answers as plain numbers, for callers in other languages: structs of numbers, which the exported functions return, and for each answer of the
// library a function that makes one of it.
#![tactic(auto)]

mod counts;
mod layouts;
mod maps;
mod offers;
mod parts;

ghost use Rattle.std.specs.Prelude.{◌≡◌};
ghost use Rattle.c_answers.specs.Told.{first_of, second_of};

pub use counts::{tell_blocks, tell_conversion, tell_hex, tell_listed, tell_refusal, tell_written};
use iter::Lost;
pub use layouts::{tell_layout, tell_paged};
pub use maps::tell_map;
pub use offers::{tell_offer, tell_offers};
pub use parts::{tell_extent, tell_fault, tell_part, tell_reason, tell_source};
use prelude::Place;

// The answer of a layout. `refusal` is 0 where the layout was built, else document 01's number; then `place` and `second` are its
// place, 0 where it has none. `passes` is how many passes ran. `k`, `length` and `spans` are 0 where it was refused. `padding` has the bits
// of each bank that were lost to alignment in the last pass, and the whole address units, zeros where it was refused.
#[repr(C)]
#[derive(Clone, Copy)]
pub struct DkLayout {
    pub refusal: u64,
    pub place: u64,
    pub second: u64,
    pub passes: u64,
    pub k: u64,
    pub length: u64,
    pub spans: u64,
    pub padding: [Lost; 16],
}

// The answer of a map. `refusal` is 1 to 4 where the call is refused, with `place` and `second`, and then nothing is shown. `stopped` is 5 to 13 where the
// layout is refused and the map is not, with the refusal's `place` and `second`. `node` is the node at fault, the largest number for none. `passes` is how many
// passes ran, `nodes` how many nodes are shown, from node 0 on, and `padding` the bits and the whole units that these lost to alignment in each bank.
#[repr(C)]
#[derive(Clone, Copy)]
pub struct DkMap {
    pub refusal: u64,
    pub stopped: u64,
    pub place: u64,
    pub second: u64,
    pub node: u64,
    pub passes: u64,
    pub nodes: u64,
    pub padding: [Lost; 16],
}

// What the profile says of a layout. `refusal` is 0 where it is kept, and then `pages` has the pages of each bank, the largest number for none;
// else the refusal's number, with its place, and zeros.
#[repr(C)]
#[derive(Clone, Copy)]
pub struct DkProfile {
    pub refusal: u64,
    pub place: u64,
    pub second: u64,
    pub pages: [u64; 16],
}

// The answer to an offer. `refusal` is 0 where it was accepted, else document 01's number; then `place` and `second` are its place, 0 where
// it has none. `count` and `marks` are how many intervals and marks are stored afterwards; refused, the counts given.
#[repr(C)]
#[derive(Clone, Copy)]
pub struct DkOffer {
    pub refusal: u64,
    pub place: u64,
    pub second: u64,
    pub count: u64,
    pub marks: u64,
}

// The answer to a list of offers: that of the offer that was refused, and its number, from 0; where all were accepted, how many there are. `count` and `marks`
// are as an offer's answer has them.
#[repr(C)]
#[derive(Clone, Copy)]
pub struct DkOffered {
    pub refusal: u64,
    pub place: u64,
    pub second: u64,
    pub count: u64,
    pub marks: u64,
    pub offer: u64,
}

// The answer of a call that writes a list: how many things it wrote, or its refusal.
#[repr(C)]
#[derive(Clone, Copy)]
pub struct DkCount {
    pub refusal: u64,
    pub place: u64,
    pub count: u64,
}

// A part of an image: where it starts and how long it is, in bytes, or its refusal.
#[repr(C)]
#[derive(Clone, Copy)]
pub struct DkPart {
    pub refusal: u64,
    pub start: u64,
    pub length: u64,
}

// Where a range comes from: `image` is 1 for the overlay, 2 for the released image; where it starts and how long it is, in bytes; or
// its refusal, and then all else is 0.
#[repr(C)]
#[derive(Clone, Copy)]
pub struct DkOverlay {
    pub refusal: u64,
    pub image: u64,
    pub start: u64,
    pub length: u64,
}

// Where the bytes of a file stand: the lowest address that it gives a byte to and the first behind the highest, both 0 where it gives none; or
// its refusal, and then both are 0 too.
#[repr(C)]
#[derive(Clone, Copy)]
pub struct DkExtent {
    pub refusal: u64,
    pub lowest: u64,
    pub end: u64,
}

// Where a file is at fault: `fault` is 1 and `line` the first line at which no good file can go on, from 0; or both are 0.
#[repr(C)]
#[derive(Clone, Copy)]
pub struct DkFault {
    pub fault: u64,
    pub line: u64,
}

// The line at fault of a file of records, from 0, and why: a reason, 0 where the file is good, and the two numbers that go with it.
#[repr(C)]
#[derive(Clone, Copy)]
pub struct DkReason {
    pub reason: u64,
    pub line: u64,
    pub first: u64,
    pub second: u64,
}

pub fn first_of(p: Place) -> u64
    ensures { result ≡ first_of p }
{
    match p {
        Place::One(a) => a,
        Place::Two(a, _) => a,
    }
}

pub fn second_of(p: Place) -> u64
    ensures { result ≡ second_of p }
{
    match p {
        Place::One(_) => 0,
        Place::Two(_, b) => b,
    }
}
