// One node's step, in numbers: what it sees, where it leads and what its alignment skips, kind by kind.
ghost use Rattle.std.specs.Prelude.{◌≡◌, true, false, ◌≤◌};
ghost use Rattle.iter.specs.Distance.{no_skip};
ghost use Rattle.iter.specs.Known.{stays_known};
ghost use Rattle.iter.specs.Pace.{Paces, Still, bank_read, node_with, made_by, halted_by, added_by, aligned_by, seen_by, why_by};
ghost use Rattle.iter.specs.Step.{bad_state};

use crate::alignment::{distance_in_bits, in_units, is_tellable};
use crate::{Paced, Pos, Skipped};
use bankdef::Bankdef;
use nodes::{Doing, Node, does, reads_state};
use prelude::{
    ASSERT, CONSTANT, DATA, INSTRUCTION, LABEL, NOTHING, RESERVE, RESOLVED, Refusal, SWITCH,
    UNRESOLVED,
};

// A step is made, or is refused for one of two of document 01's numbers.
pub const MADE: u8 = 0;

const MALFORMED: u8 = 4;

const POSITION_PAST: u8 = 5;

const NO_SKIP: Skipped = Skipped { bits: 0, units: 0 };

// A step that is made.
fn made(seen: Pos, after: Pos, skipped: Skipped) -> Paced
    ensures { result ≡ made_by seen after skipped }
{
    Paced {
        fault: MADE,
        seen,
        after,
        skipped,
    }
}

// A step that moves nothing and skips nothing.
fn stood(at: Pos) -> Paced
    ensures { result ≡ made_by at at no_skip }
{
    made(at, at, NO_SKIP)
}

// A step that is refused: nothing is skipped, and the position is the one given.
fn halted(at: Pos, fault: u8) -> Paced
    ensures { result ≡ halted_by at fault }
{
    Paced {
        fault,
        seen: Pos {
            position: 0,
            known: true,
        },
        after: at,
        skipped: NO_SKIP,
    }
}

// A position moved on, where the sum stays within the limit: "a position would pass 4,294,967,295". The node sees it as it was.
fn added(at: Pos, bits: u32, known: bool, lost: Skipped) -> Paced
    ensures { result ≡ added_by at bits known lost }
{
    let Some(position) = at.position.checked_add(bits) else {
        return halted(at, POSITION_PAST);
    };
    made(at, Pos { position, known }, lost)
}

// The same where the node is "aligned first", and sees the position moved on.
fn aligned_first(at: Pos, skipped: Skipped) -> Paced
    ensures { result ≡ aligned_by at skipped }
{
    let Some(position) = at.position.checked_add(skipped.bits) else {
        return halted(at, POSITION_PAST);
    };
    let seen = Pos {
        position,
        known: at.known,
    };
    made(seen, seen, skipped)
}

// Whether a position stays known over an item or an alignment: "4, 6, 7, 8 keep it only if state is 0; 5 .. leave it".
pub fn stays_known(known: bool, node: Node) -> bool
    ensures { result ≡ stays_known known node }
{
    if node.kind == DATA {
        return known;
    }
    known && node.state == RESOLVED
}

// Whether a node's state is read and is none of "0 resolved, 1 stable, 2 unresolved": "0, 1 and 2 don't read the state".
pub fn is_bad_state(node: Node) -> bool
    ensures { result ≡ bad_state node }
{
    reads_state(node.kind) && node.state > UNRESOLVED
}

// "A node sees its bank's position before its own advance, except that a symbol (label or constant) of depth 0 in a bank with label alignment is aligned
// first.", and is where it is afterwards.
// stays: here and below `def`, `at` and `node` by themselves, since a struct of them would be stored at each node of a walk
fn pace_symbol(def: Bankdef, at: Pos, node: Node) -> Paced
    requires node_value { bad_state node ≡ false }
    requires le_kind { (2 ≤ node.kind) × (node.kind ≤ 3) }
    ensures { Paces def at node result }
{
    if node.operand != 0 {
        return stood(at);
    }
    match def.align {
        None => stood(at),
        Some(a) => {
            if !is_tellable(def) {
                return halted(at, MALFORMED);
            }
            aligned_first(at, in_units(def, distance_in_bits(def, at.position, a)))
        }
    }
}

// "8 adds the distance to alignment"
fn pace_align(def: Bankdef, at: Pos, node: Node) -> Paced
    requires node_value { bad_state node ≡ false }
    requires kind_value { node.kind ≡ 8 }
    ensures { Paces def at node result }
{
    if !is_tellable(def) {
        return halted(at, MALFORMED);
    }
    let bits = distance_in_bits(def, at.position, node.number);
    added(at, bits, stays_known(at.known, node), in_units(def, bits))
}

// The step over one node, kind by kind, in the bank that it stands in, whose record is `def` and whose position is `at`. "Afterwards 4 to 7 add their
// number, 8 adds the distance to alignment, 9 sets the position."
fn pace_by_kind(def: Bankdef, at: Pos, node: Node) -> Paced
    ensures { Paces def at node result }
{
    if is_bad_state(node) {
        return halted(at, MALFORMED);
    }
    match does(node.kind) {
        Doing::Stays | Doing::Switches => stood(at),
        Doing::Symbol => pace_symbol(def, at, node),
        Doing::Adds => added(at, node.number, stays_known(at.known, node), NO_SKIP),
        Doing::Aligns => pace_align(def, at, node),
        // "An `addr` that moves the position is not padding."
        Doing::Sets => made(
            at,
            Pos {
                position: node.number,
                known: node.state == RESOLVED,
            },
            NO_SKIP,
        ),
        // "Any other kind number is refused."
        Doing::Unknown => halted(at, MALFORMED),
    }
}

// The same of what it reads of a bank's record and of a node, each part by itself. A struct that is handed to a function is stored first, and what only the
// rare step reads need not be stored at each node.
pub fn pace_of_parts(
    unit: u16,
    start: i64,
    align: Option<u32>,
    at: Pos,
    index: u64,
    kind: u8,
    operand: u32,
    number: u32,
    state: u8,
) -> Paced
    ensures { Paces (bank_read unit start align) at (node_with index kind operand number state) result }
{
    let def = Bankdef {
        unit,
        start,
        size: None,
        offset: None,
        align,
        fill: false,
        fill_bit: 0,
    };
    let node = Node {
        index,
        kind,
        operand,
        number,
        state,
    };
    pace_by_kind(def, at, node)
}

// Whether a bank has no label alignment.
fn aligns_no_label(def: Bankdef) -> bool
    ensures { result ≡ true → def.align ≡ None }
{
    matches!(def.align, None)
}

// Whether a node leaves its bank's position as it finds it, and skips nothing, which most do: kinds 0, 1 and 10, and a symbol that is not "aligned first". This
// and the next have ranges of kinds of their own: by `does`, `pace` is no longer put into its loops, and dk_build takes 1.76 times the instructions for labels.
fn stands_still(def: Bankdef, node: Node) -> bool
    ensures { result ≡ true → Still def node }
{
    if is_bad_state(node) {
        return false;
    }
    match node.kind {
        NOTHING..=SWITCH | ASSERT => true,
        LABEL..=CONSTANT => node.operand != 0 || aligns_no_label(def),
        _ => false,
    }
}

// Whether a node is an item or a reserve: "4 to 7 add their number".
fn adds_number(node: Node) -> bool
    ensures { result ≡ true → (bad_state node ≡ false) × (4 ≤ node.kind) × (node.kind ≤ 7) }
{
    !is_bad_state(node) && matches!(node.kind, INSTRUCTION..=RESERVE)
}

// The step over one node, as the walks make it. No other bank is read, and the answer is numbers alone, so that a loop need not hand its walk about. A node
// that stands still, and an item or a reserve, which nearly all are, are told first: that much is put into each loop, and the step kind by kind stays behind.
pub fn pace(def: Bankdef, at: Pos, node: Node) -> Paced
    ensures { Paces def at node result }
{
    if stands_still(def, node) {
        return stood(at);
    }
    if adds_number(node) {
        return added(at, node.number, stays_known(at.known, node), NO_SKIP);
    }
    pace_of_parts(
        def.unit,
        def.start,
        def.align,
        at,
        node.index,
        node.kind,
        node.operand,
        node.number,
        node.state,
    )
}

// What a step is refused for, by its number.
pub fn why_refused(fault: u8, node: u64) -> Refusal
    ensures { result ≡ why_by fault node }
{
    if fault == MALFORMED {
        Refusal::Malformed(node)
    } else {
        Refusal::PositionPast(node)
    }
}

// The position that a node sees, by its step.
pub fn sight_of(p: Paced, node: u64) -> Result<Pos, Refusal>
    ensures { result ≡ seen_by p node }
{
    if p.fault == MADE {
        Ok(p.seen)
    } else {
        Err(why_refused(p.fault, node))
    }
}
