// A pass over a row.
ghost use Rattle.std.specs.Prelude.{◌≡◌, true, ℕ, max, length, ◌/◌};
ghost use Rattle.iter.specs.Pace.{seen_by};
ghost use Rattle.bankdef.specs.Check.{no_bank};
ghost use Rattle.nodes.specs.Lists.{row_with, node_at};
ghost use Rattle.resolver.specs.Once.{program_with, bank_record, label_state, state_of, off_boundary, pass_of, walk_to};
ghost use Rattle.resolver.specs.Passes.{HasRow, row_against, pass_over};
ghost use Rattle.resolver.specs.Stands.{both_start};
ghost use Rattle.resolver.specs.Switches.{Switches};

use crate::{Passed, TwoWalks};
use bankdef::{Bankdef, Bankdefs};
use iter::{MADE, Paced, Pos, bank_after, on_boundary, pace, why_refused};
use nodes::{Node, node_at, reads_state};
use prelude::{LABEL, MAX_BANKS, RESOLVED, Refusal, STABLE, UNRESOLVED};

// The record of a bank that the table does not list: its unit is 0, and no address of it can be told.
fn no_record() -> Bankdef
    ensures { result ≡ no_bank }
{
    Bankdef {
        unit: 0,
        start: 0,
        size: None,
        offset: None,
        align: None,
        fill: false,
        fill_bit: 0,
    }
}

// The record of a bank; one of unit 0 for every bank number that the table does not list, from its count on.
pub fn bank_record(banks: Bankdefs, bank: u64) -> Bankdef
    ensures { result ≡ bank_record banks bank }
{
    if banks.len <= bank || MAX_BANKS <= bank {
        return no_record();
    }
    banks.defs[bank as usize]
}

// The whole units in a position; a unit of 0 holds none.
fn whole_units(def: Bankdef, position: u32) -> u32
    ensures { result ≡ position / def.unit }
{
    position.checked_div(u32::from(def.unit)).unwrap_or(0)
}

// "a label is resolved when its position is known and on a boundary, stable when its address equals that of the pass before (never
// in pass 1), unresolved otherwise"
fn label_state(def: Bankdef, now: Pos, before: Paced, is_first: bool) -> u8
    ensures { result ≡ label_state def now (seen_by before 0) is_first }
{
    if now.known && on_boundary(def, now.position) {
        return RESOLVED;
    }
    if is_first || before.fault != MADE {
        return UNRESOLVED;
    }
    if whole_units(def, now.position) == whole_units(def, before.seen.position) {
        STABLE
    } else {
        UNRESOLVED
    }
}

// A node's state in a pass: "0, 1 and 2 don't read the state", a label's is found.
fn node_state(def: Bankdef, node: Node, now: Pos, before: Paced, is_first: bool) -> u8
    ensures { result ≡ state_of node (label_state def now (seen_by before 0) is_first) }
{
    if node.kind == LABEL {
        label_state(def, now, before, is_first)
    } else if reads_state(node.kind) {
        node.state
    } else {
        RESOLVED
    }
}

// "7: a label in the last pass is off an address boundary"
fn off_boundary(def: Bankdef, node: Node, now: Pos, is_last: bool) -> bool
    ensures { result ≡ off_boundary def node now is_last }
{
    is_last && node.kind == LABEL && !on_boundary(def, now.position)
}

// Both walks at their start: "Each bank's position starts at 0, known".
fn both_start() -> TwoWalks
    ensures { result ≡ both_start }
{
    let origin = Pos {
        position: 0,
        known: true,
    };
    TwoWalks {
        at: [origin; 16],
        old: [origin; 16],
    }
}

// A pass that is refused, and the walks that it has come to.
fn refused_pass(why: Refusal, walks: TwoWalks) -> Passed
    ensures { result.pass ≡ Err why }
{
    Passed {
        pass: Err(why),
        walks,
    }
}

// What stays the same of the nodes from row to row: their kinds and operands, and the first row's numbers.
#[derive(Clone, Copy)]
struct Nodes<'a> {
    kinds: &'a [u8],
    operands: &'a [u32],
    first: &'a [u32],
}

// "A row gives each node a number and a state"
#[derive(Clone, Copy)]
struct OneRow<'a> {
    numbers: &'a [u32],
    states: &'a [u8],
}

impl<'a> Nodes<'a> {
    fn node(self, row: OneRow<'a>, i: usize) -> Node
        ensures { result ≡ node_at self.entry.kinds.now self.entry.operands.now self.entry.first.now
            (row_with row.entry.numbers.now row.entry.states.now)
            i }
    {
        node_at(
            self.kinds,
            self.operands,
            self.first,
            row.numbers,
            row.states,
            i,
        )
    }
}

// The walk of a pass over its row and, beside it, that of the pass before over the row that it read; both stand in one bank, since no row tells it. Held
// against its own row (`alone`) each label has the address of the pass before, and the other walk is not made. "bank positions, an array of 16 in the walk's
// state": the state comes by value, each step is stored into it, and it goes back as the rows leave it.
fn walk_rows(
    banks: Bankdefs,
    nodes: Nodes<'_>,
    row: OneRow<'_>,
    row_before: OneRow<'_>,
    begun: TwoWalks,
    alone: bool,
    is_first: bool,
    is_last: bool,
) -> Passed
    requires switches { Switches banks.len nodes.kinds.now nodes.operands.now }
    requires begun_value { begun ≡ both_start }
    requires before_states_value { alone ≡ true
        → row_with row_before.numbers.now row_before.states.now ≡ row_with row.numbers.now row.states.now }
    ensures pass { result.pass ≡ pass_of (program_with banks nodes.entry.kinds.now nodes.entry.operands.now nodes.entry.first.now)
        (row_with row.entry.numbers.now row.entry.states.now)
        (row_with row_before.entry.numbers.now row_before.entry.states.now)
        is_first is_last }
    ensures walk { (merged : ℕ) → result.pass ≡ Ok merged
        → (walk_to (program_with banks nodes.entry.kinds.now nodes.entry.operands.now nodes.entry.first.now)
        (row_with row.entry.numbers.now row.entry.states.now) (length nodes.entry.kinds.now)).at ≡ result.walks.at }
{
    let mut walks = begun;
    let mut bank: u64 = 0;
    // "A pass is unresolved if any state is 2, stable if any is 1, otherwise resolved": the largest state
    let mut merged: u8 = RESOLVED;
    // stays: node_at reads five lists at i, and a zip of five is no plainer
    for i in 0..nodes.kinds.len() {
        let node = nodes.node(row, i);
        bank = bank_after(bank, node);
        let def = banks.defs[bank as usize];
        let step = pace(def, walks.at[bank as usize], node);
        if step.fault != MADE {
            return refused_pass(why_refused(step.fault, node.index), walks);
        }
        let now = step.seen;
        if off_boundary(def, node, now, is_last) {
            return refused_pass(Refusal::LabelOffBoundary(node.index), walks);
        }
        walks.at[bank as usize] = step.after;
        if alone {
            merged = merged.max(node_state(def, node, now, step, is_first));
            continue;
        }
        let node_before = nodes.node(row_before, i);
        let before = pace(def, walks.old[bank as usize], node_before);
        merged = merged.max(node_state(def, node, now, before, is_first));
        walks.old[bank as usize] = before.after;
    }
    Passed {
        pass: Ok(merged),
        walks,
    }
}

// The row that a pass is held against: its own, or the one ahead of it.
fn row_against(row: u64, alone: bool) -> u64
    ensures { result ≡ row_against row alone }
{
    if alone { row } else { row.saturating_sub(1) }
}

// A pass over row `row`, held against the row that the pass before read: its own (`alone`), as pass 1 is, which has none before it; or the one ahead of it.
// What the loop reads is cut to the number of nodes, so that it need not be asked at each of them whether it ends there.
pub(crate) fn resolve_once(
    banks: Bankdefs,
    kinds: &[u8],
    operands: &[u32],
    numbers: &[u32],
    states: &[u8],
    row: u64,
    alone: bool,
    is_first: bool,
    is_last: bool,
) -> Result<u8, Refusal>
    requires switches { Switches banks.len kinds.now operands.now }
    requires has_row { HasRow kinds.now operands.now numbers.now states.now row }
    ensures { result ≡ pass_over banks kinds.now operands.now numbers.now states.now
        row (row_against row alone) is_first is_last }
{
    let count = kinds.len();
    let nodes = Nodes {
        kinds,
        operands: &operands[0..count],
        first: &numbers[0..count],
    };
    let against = row_against(row, alone);
    let a = (row as usize) * count;
    let e = a + count;
    let b = (against as usize) * count;
    let f = b + count;
    let own = OneRow {
        numbers: &numbers[a..e],
        states: &states[a..e],
    };
    let other = OneRow {
        numbers: &numbers[b..f],
        states: &states[b..f],
    };
    walk_rows(
        banks,
        nodes,
        own,
        other,
        both_start(),
        alone,
        is_first,
        is_last,
    )
    .pass
}
