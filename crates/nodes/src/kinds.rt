// What a kind does, told once: beside it only the two quick tests of the step (crates/iter/src/paces.rt) have ranges of kinds, for speed. "Kinds: 0 nothing,
// 1 bank switch, 2 label, 3 constant, 4 instruction, 5 data of declared size, 6 data of open size, 7 reserve, 8 align, 9 addr, 10 assert." "Any other kind
// number is refused."
ghost use Rattle.std.specs.Prelude.{◌≡◌};
ghost use Rattle.nodes.specs.Kinds.{does_of, is_unknown, reads_state, is_item, is_span_kind, is_placed_kind, size_of};

use crate::Node;
use prelude::{
    ADDR, ALIGN, ASSERT, CONSTANT, INSTRUCTION, LABEL, NOTHING, OPEN_DATA, RESERVE, SWITCH,
};

// What a kind does with its bank's position: a symbol may be "aligned first", "4 to 7 add their number, 8 adds the distance to alignment, 9 sets the position".
#[derive(Clone, Copy)]
pub enum Doing {
    Stays,
    Switches,
    Symbol,
    Adds,
    Aligns,
    Sets,
    Unknown,
}

pub fn does(kind: u8) -> Doing
    ensures { result ≡ does_of kind }
{
    match kind {
        NOTHING | ASSERT => Doing::Stays,
        SWITCH => Doing::Switches,
        LABEL..=CONSTANT => Doing::Symbol,
        INSTRUCTION..=RESERVE => Doing::Adds,
        ALIGN => Doing::Aligns,
        ADDR => Doing::Sets,
        _ => Doing::Unknown,
    }
}

// "Any other kind number is refused."
pub fn is_unknown(kind: u8) -> bool
    ensures { result ≡ is_unknown kind }
{
    ASSERT < kind
}

// "0, 1 and 2 don't read the state"
pub fn reads_state(kind: u8) -> bool
    ensures { result ≡ reads_state kind }
{
    CONSTANT <= kind
}

// "written items (4, 5, 6)"
pub fn is_written(kind: u8) -> bool
    ensures { result ≡ is_item kind }
{
    matches!(kind, INSTRUCTION..=OPEN_DATA)
}

// "Spans are labels (size 0) and written items"
pub fn is_span(kind: u8) -> bool
    ensures { result ≡ is_span_kind kind }
{
    kind == LABEL || is_written(kind)
}

// "labels (size 0), written items (4, 5, 6) and reserves"
pub fn is_placed(kind: u8) -> bool
    ensures { result ≡ is_placed_kind kind }
{
    kind == LABEL || is_written(kind) || kind == RESERVE
}

// The bits of a written item or a reserve; any other node has none: "labels (size 0)".
pub fn size_of(node: Node) -> u32
    ensures { result ≡ size_of node }
{
    match node.kind {
        INSTRUCTION..=RESERVE => node.number,
        _ => 0,
    }
}
