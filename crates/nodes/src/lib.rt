// The lent lists: a node as a row shows it, and the list check.
#![tactic(auto)]

mod kinds;

ghost use Rattle.std.specs.Prelude.{◌≡◌, ◌&&◌, ◌||◌, ◌<◌, ltb, get_or, length};
ghost use Rattle.nodes.specs.Sound.{ListFigures};
ghost use Rattle.nodes.specs.Kinds.{is_item};
ghost use Rattle.nodes.specs.Lists.{Lists, lists, row_with, node_at, past_end, any_row_fault, node_fault, nodes_to, lists_of, Rows};
ghost use Rattle.nodes.specs.FaultExactly.{shown_in};

pub use kinds::{Doing, does, is_placed, is_span, is_unknown, is_written, reads_state, size_of};
use prelude::{DATA, MAX_NODES, MAX_ROWS, Refusal, SWITCH, UNRESOLVED};
use std::marker::Model;

// A node as a row shows it: its number in the list, kind, operand, and the row's number and state for it.
#[derive(Clone, Copy)]
pub struct Node {
    pub index: u64,
    pub kind: u8,
    pub operand: u32,
    pub number: u32,
    pub state: u8,
}

// Node `i` as a row shows it. `first` is the first row's numbers, `numbers` and `states` are the row. Past a list's end stands 0.
pub fn node_at(
    kinds: &[u8],
    operands: &[u32],
    first: &[u32],
    numbers: &[u32],
    states: &[u8],
    i: usize,
) -> Node
    ensures { result ≡ node_at kinds.now operands.now first.now
        (row_with numbers.now states.now)
        i }
{
    let kind = kinds.get(i).copied().unwrap_or(0);
    let numbered = if kind == DATA { first } else { numbers };
    Node {
        index: i as u64,
        kind,
        operand: operands.get(i).copied().unwrap_or(0),
        number: numbered.get(i).copied().unwrap_or(0),
        state: states.get(i).copied().unwrap_or(0),
    }
}

// Whether the bits of an item pass the end of `bytes` value bytes: whole bytes are compared, so that no product can wrap.
fn past_end(bytes: usize, node: Node) -> bool
    ensures { result ≡ past_end bytes node }
{
    let end = u64::from(node.operand) + u64::from(node.number);
    (bytes as u64) < end.div_ceil(8)
}

// What a row can have wrong at a node whose state is read: the state, and the value range where it is an item's.
fn row_fault(item: bool, bytes: usize, node: Node) -> bool
    ensures { result ≡ ltb 2 node.state || (item && past_end bytes node) }
{
    UNRESOLVED < node.state || (item && past_end(bytes, node))
}

// The lent lists, whose rows are whole: what the list check has shown of them before it looks at a node.
#[derive(Drop)]
struct Lent<'a> {
    kinds: &'a [u8],
    operands: &'a [u32],
    numbers: &'a [u32],
    states: &'a [u8],
    rows: u64,
    values: &'a [u8],
}

impl<'a> Model for Lent<'a> {
    ghost Value = { Lists };

    ghost view = { λ l. lists l.kinds.now l.operands.now l.numbers.now l.states.now l.rows l.values.now };

    ghost invariant = { λ l. Rows (length l.kinds.now) l.rows l.numbers.now l.states.now };
}

impl<'a> Lent<'a> {
    // Node `i` as row `r` shows it.
    fn node(&self, r: u64, i: usize) -> Node
        requires { r < self.now.rows }
        ensures { result ≡ shown_in self.now r i }
    {
        let n = self.kinds.len();
        let a = (r as usize) * n;
        let e = a + n;
        node_at(
            self.kinds,
            self.operands,
            &self.numbers[0..n],
            &self.numbers[a..e],
            &self.states[a..e],
            i,
        )
    }

    // Whether some row is at fault at node `i`, whose state is read; `item` says that its value range is too.
    fn any_row_fault(&self, item: bool, i: usize) -> bool
        requires { (2 < get_or self.now.kinds i 0) × (is_item (get_or self.now.kinds i 0) ≡ item) }
        ensures { result ≡ any_row_fault self.now i self.now.rows }
    {
        (0..self.rows).any(|r| row_fault(item, self.values.len(), self.node(r, i)))
    }

    // What can be wrong at node `i`. "Any other kind number is refused"; a bank switch names a bank; a state is read, and a value range where it is an item's.
    fn node_fault(&self, banks: u64, i: usize) -> bool
        ensures { result ≡ node_fault banks self.now i }
    {
        let kind = self.kinds.get(i).copied().unwrap_or(0);
        if is_unknown(kind) {
            return true;
        }
        if kind == SWITCH {
            return banks <= u64::from(self.operands.get(i).copied().unwrap_or(0));
        }
        if !reads_state(kind) {
            return false;
        }
        self.any_row_fault(is_written(kind), i)
    }

    // The lowest node that is at fault.
    fn check_nodes(&self, banks: u64) -> Result<(), Refusal>
        ensures { result ≡ nodes_to banks self.now (length self.now.kinds) }
    {
        match (0..self.kinds.len()).find(|&i| self.node_fault(banks, i)) {
            Some(i) => malformed(i as u64),
            None => Ok(()),
        }
    }
}

fn malformed(place: u64) -> Result<(), Refusal>
    ensures { result ≡ Err (Refusal.Malformed place) }
{
    Err(Refusal::Malformed(place))
}

// The list check: the counts, with the lengths of the lists that they stand for, the choice of the fill, then each node. The limit is a
// byte, so that every limit is sound.
pub fn check_lists(
    banks: u64,
    kinds: &[u8],
    operands: &[u32],
    numbers: &[u32],
    states: &[u8],
    rows: u64,
    values: &[u8],
    fill: u8,
) -> Result<(), Refusal>
    ensures value { result ≡ lists_of banks
        (lists kinds.now operands.now numbers.now states.now rows values.now)
        fill }
    ensures told { ListFigures banks
        (lists kinds.now operands.now numbers.now states.now rows values.now)
        fill result }
{
    let n = kinds.len();
    if MAX_NODES < n as u64 {
        return malformed(0);
    }
    if operands.len() != n {
        return malformed(0);
    }
    if rows < 1 {
        return malformed(1);
    }
    if MAX_ROWS < rows {
        return malformed(1);
    }
    let cells = (rows as usize) * n;
    if numbers.len() != cells {
        return malformed(1);
    }
    if states.len() != cells {
        return malformed(1);
    }
    if 1 < fill {
        return malformed(3);
    }
    let lent = Lent {
        kinds,
        operands,
        numbers,
        states,
        rows,
        values,
    };
    lent.check_nodes(banks)
}
