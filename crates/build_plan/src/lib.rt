// The first walk over a row, which decides everything and writes nothing: refusals 9 to 13, the image's length, the spans and the padding.
#![tactic(auto)]

mod checks;

ghost use Rattle.std.specs.Prelude.{◌≡◌, true, ℕ, ◌+◌, ◌≤◌, length};
ghost use Rattle.prelude.specs.Limits.{max_offer, max_nodes};
ghost use Rattle.prelude.specs.Pick.{pick};
ghost use Rattle.prelude.specs.Verdict.{Accepted};
ghost use Rattle.iter.specs.Pace.{seen_by};
ghost use Rattle.iter.specs.Step.{start_of};
ghost use Rattle.resolver.specs.Once.{walk_to, program_with};
ghost use Rattle.resolver.specs.Switches.{Switches};
ghost use Rattle.overlap_checker.specs.Lent.{lent as store, state_in, Sound};
ghost use Rattle.nodes.specs.Lists.{row_with};
ghost use Rattle.build_visits.specs.Items.{item_at, length_of};
ghost use Rattle.build_visits.specs.Spans.{is_span};
ghost use Rattle.build_visits.specs.Visits.{visits};
ghost use Rattle.build_plan.specs.Placing.{is_placed, offer_at, answered, verdict_seen, walked_all};
ghost use Rattle.build_plan.specs.Plan.{max_end, plan_refused, plan_accepted, plan_of};
ghost use Rattle.build_plan.specs.Steps.{Goes};

use crate::checks::check_place;
use bankdef::{Bankdef, Bankdefs};
pub use checks::closes_default;
use iter::{
    Lost, Paced, Pos, Walk, bank_after, get_output_position, lost_after, pace, sight_of, start,
};
use nodes::{Node, is_placed, is_span, is_written, node_at};
use prelude::{LABEL, Refusal};

// What is placed so far: intervals, each by its position and size, and marks, and how many there are of each.
#[derive(Drop)]
struct Store {
    positions: [u64; 512],
    sizes: [u64; 512],
    count: usize,
    marks: [u64; 512],
    mark_count: usize,
}

impl Store {
    // The offer of a node that is placed: a label makes none, and neither does what stands nowhere in the output.
    fn offer(&mut self, node: Node, out: Option<u64>) -> Result<(), Refusal>
        requires sound { Sound (store self.old.positions self.old.sizes self.old.count self.old.marks self.old.mark_count) }
        requires node_value { is_placed node ≡ true }
        requires by_index { (o : ℕ) → out ≡ Some o → o ≤ max_offer }
        ensures verdict_value { result ≡ answered
            (state_in (store self.old.positions self.old.sizes self.old.count self.old.marks self.old.mark_count)) node.index (offer_at node out) }
        ensures goes { Goes (store self.old.positions self.old.sizes self.old.count self.old.marks self.old.mark_count) (offer_at node out) result
            (store self.new.positions self.new.sizes self.new.count self.new.marks self.new.mark_count) }
    {
        let Some(o) = out else {
            return Ok(());
        };
        if node.kind == LABEL {
            return Ok(());
        }
        let offered = overlap_checker::offer(
            &mut self.positions,
            &mut self.sizes,
            self.count,
            &mut self.marks,
            self.mark_count,
            o,
            u64::from(node.number),
            node.index,
        );
        self.count = offered.count;
        self.mark_count = offered.marks;
        offered.verdict
    }

    // The verdict on a node by its step, whose numbers tell the position that it sees: 5 where the walk stops there, then 9 to 13.
    fn place(
        &mut self,
        closed: bool,
        bank: u64,
        def: Bankdef,
        node: Node,
        step: Paced,
        out: Option<u64>,
    ) -> Result<(), Refusal>
        requires sound { Sound (store self.old.positions self.old.sizes self.old.count self.old.marks self.old.mark_count) }
        requires by_index { (o : ℕ) → out ≡ Some o → o ≤ max_offer }
        ensures verdict_value { result ≡ verdict_seen closed bank def
            (state_in (store self.old.positions self.old.sizes self.old.count self.old.marks self.old.mark_count)) node out
            (seen_by step node.index) }
        ensures goes { Goes (store self.old.positions self.old.sizes self.old.count self.old.marks self.old.mark_count) (offer_at node out) result
            (store self.new.positions self.new.sizes self.new.count self.new.marks self.new.mark_count) }
    {
        let at = match sight_of(step, node.index) {
            Err(why) => return Err(why),
            Ok(at) => at,
        };
        if !is_placed(node.kind) {
            return Ok(());
        }
        if let Err(why) = check_place(closed, bank, def, node, at, out) {
            return Err(why);
        }
        self.offer(node, out)
    }
}

// "Image length is the larger of the fill's and the furthest end of a written item": the length after a node.
fn length_after(node: Node, out: Option<u64>, length: u64) -> u64
    requires by_index { (o : ℕ) → out ≡ Some o → o ≤ max_offer }
    requires length_le_max_end { length ≤ max_end }
    ensures value { result ≡ length_of length (item_at node out) }
    ensures upper_bound { result ≤ max_end }
{
    if !is_written(node.kind) {
        return length;
    }
    match out {
        None => length,
        Some(o) => length.max(o + u64::from(node.number)),
    }
}

fn spans_after(node: Node, spans: u64) -> u64
    requires { spans ≤ max_nodes }
    ensures { result ≡ pick (is_span node) (spans + 1) spans }
{
    if is_span(node.kind) { spans + 1 } else { spans }
}

// The image's length and the number of spans, so far.
#[derive(Clone, Copy)]
pub struct Sums {
    pub length: u64,
    pub spans: u64,
}

fn sums_after(node: Node, out: Option<u64>, sums: Sums) -> Sums
    requires by_index { (o : ℕ) → out ≡ Some o → o ≤ max_offer }
    requires length_le_max_end { (sums.length ≤ max_end) × (sums.spans ≤ max_nodes) }
    ensures length_value { result.length ≡ length_of sums.length (item_at node out) }
    ensures length_le_max_end_2 { result.length ≤ max_end }
    ensures spans_value { result.spans ≡ pick (is_span node) (sums.spans + 1) sums.spans }
{
    Sums {
        length: length_after(node, out, sums.length),
        spans: spans_after(node, sums.spans),
    }
}

// What the first walk finds: the verdict on all nodes, and the image's length, the number of spans and each bank's padding. Refused, zeros.
#[derive(Clone, Copy)]
pub struct Plan {
    pub verdict: Result<(), Refusal>,
    pub length: u64,
    pub spans: u64,
    pub padding: [Lost; 16],
}

fn refused_plan(why: Refusal) -> Plan
    ensures { result ≡ plan_refused why }
{
    let none = Lost { bits: 0, units: 0 };
    Plan {
        verdict: Err(why),
        length: 0,
        spans: 0,
        padding: [none; 16],
    }
}

// The first walk over a row, how many nodes it met, one that is refused among them, and what it leaves, handed back by value.
#[derive(Clone, Copy)]
struct Planned {
    plan: Plan,
    met: u64,
    walk: Walk,
}

// A node is refused, behind so many.
fn stopped(why: Refusal, before: usize, walk: Walk) -> Planned
    requires { before ≤ max_nodes }
    ensures plan_value { result.plan ≡ plan_refused why }
    ensures met_value { result.met ≡ before + 1 }
{
    Planned {
        plan: refused_plan(why),
        met: (before as u64) + 1,
        walk,
    }
}

// All nodes are placed, so many.
fn reached(sums: Sums, nodes: usize, walk: Walk) -> Planned
    ensures plan_value { result.plan ≡ plan_accepted sums.length sums.spans walk.lost }
    ensures met_value { result.met ≡ nodes }
    ensures walk_value { result.walk ≡ walk }
{
    let padding = walk.lost;
    let plan = Plan {
        verdict: Ok(()),
        length: sums.length,
        spans: sums.spans,
        padding,
    };
    Planned {
        plan,
        met: nodes as u64,
        walk,
    }
}

// The first walk over the row of the last pass. It decides everything and writes nothing that is lent. "bank positions, an array of 16 in the walk's state":
// the walk comes by value, each step is stored into it, and it goes back as the row leaves it, with what each bank has lost.
fn plan_walk(
    banks: Bankdefs,
    kinds: &[u8],
    operands: &[u32],
    first: &[u32],
    numbers: &[u32],
    states: &[u8],
    begun: Walk,
    closed: bool,
    fill: u64,
) -> Planned
    requires fill_le_max_offer { (fill ≤ max_offer) × (length kinds.now ≤ max_nodes) }
    requires switches { Switches banks.len kinds.now operands.now }
    requires begun_value { begun ≡ start_of }
    ensures plan_value { result.plan ≡ plan_of (program_with banks kinds.now operands.now first.now)
        (row_with numbers.now states.now) closed fill }
    ensures length_le_max_end { result.plan.length ≤ max_end }
    ensures met_value { result.met ≡ walked_all closed (visits (program_with banks kinds.now operands.now first.now)
        (row_with numbers.now states.now)) }
    ensures walk_value { result.plan.verdict ≡ Accepted
        → result.walk ≡ walk_to (program_with banks kinds.now operands.now first.now)
        (row_with numbers.now states.now) (length kinds.now) }
{
    let mut stored = Store {
        positions: [0; 512],
        sizes: [0; 512],
        count: 0,
        marks: [0; 512],
        mark_count: 0,
    };
    let mut walk = begun;
    // "Image length is the larger of the fill's and ..": before the first node.
    let mut sums = Sums {
        length: fill,
        spans: 0,
    };
    // stays: node i is read from five lists at once; a zip of five is no plainer
    for i in 0..kinds.len() {
        let node = node_at(kinds, operands, first, numbers, states, i);
        let bank = bank_after(walk.bank, node);
        let def = banks.defs[bank as usize];
        let step = pace(def, walk.at[bank as usize], node);
        let out = get_output_position(def, step.seen.position);
        if let Err(why) = stored.place(closed, bank, def, node, step, out) {
            return stopped(why, i, walk);
        }
        sums = sums_after(node, out, sums);
        let after = step.after;
        walk.at[bank as usize] = after;
        walk.bank = bank;
        if step.skipped.bits == 0 {
            continue;
        }
        let lost = lost_after(walk.lost[bank as usize], step.skipped);
        walk.lost[bank as usize] = lost;
    }
    reached(sums, kinds.len(), walk)
}

// The plan of a row, whose walk begins at the start: "Each bank's position starts at 0, known .. The walk begins in bank 0."
pub fn plan_row(
    banks: Bankdefs,
    kinds: &[u8],
    operands: &[u32],
    first: &[u32],
    numbers: &[u32],
    states: &[u8],
    closed: bool,
    fill: u64,
) -> Plan
    requires fill_le_max_offer { (fill ≤ max_offer) × (length kinds.now ≤ max_nodes) }
    requires switches { Switches banks.len kinds.now operands.now }
    ensures value { result ≡ plan_of (program_with banks kinds.now operands.now first.now)
        (row_with numbers.now states.now) closed fill }
    ensures length_le_max_end { result.length ≤ max_end }
{
    let planned = plan_walk(
        banks,
        kinds,
        operands,
        first,
        numbers,
        states,
        start(),
        closed,
        fill,
    );
    planned.plan
}

// What the first walk comes to alone: the verdict on all nodes, and how many it met, one that is refused among them.
#[derive(Clone, Copy)]
pub struct Met {
    pub verdict: Result<(), Refusal>,
    pub nodes: u64,
}

// How far the nodes of a row can be placed one after another, for the map. "The build walks the nodes and tries 9, 10, 11, 12, 13 at each."
pub fn meet_row(
    banks: Bankdefs,
    kinds: &[u8],
    operands: &[u32],
    first: &[u32],
    numbers: &[u32],
    states: &[u8],
    closed: bool,
) -> Met
    requires kinds_len_bound { length kinds.now ≤ max_nodes }
    requires switches { Switches banks.len kinds.now operands.now }
    ensures verdict_value { result.verdict ≡ (plan_of (program_with banks kinds.now operands.now first.now)
        (row_with numbers.now states.now) closed 0).verdict }
    ensures nodes_value { result.nodes ≡ walked_all closed (visits (program_with banks kinds.now operands.now first.now)
        (row_with numbers.now states.now)) }
{
    let planned = plan_walk(
        banks,
        kinds,
        operands,
        first,
        numbers,
        states,
        start(),
        closed,
        0,
    );
    let plan = planned.plan;
    let verdict = plan.verdict;
    Met {
        verdict,
        nodes: planned.met,
    }
}
