// The map: the passes, then how far the row of the last one goes, then the entries.
ghost use Rattle.std.specs.Prelude.{◌≡◌, ◌≤◌, ◌<◌, length};
ghost use Rattle.resolver.specs.Switches.{Switches};
ghost use Rattle.prelude.specs.Limits.{max_nodes};
ghost use Rattle.prelude.specs.Refusals.{number_of};
ghost use Rattle.nodes.specs.Lists.{lists};
ghost use Rattle.output.specs.Output.{input};
ghost use Rattle.build_map.specs.Map.{node_of, met_reach, lent, Maps};
ghost use Rattle.build_map.specs.Steps.{program_of, row_of, Few, row_reach, RowMapped, verdict_of, mapless};

use crate::rows::LastRow;
use crate::{Map, Reach};
use bankdef::Bankdefs;
use iter::Lost;
use prelude::Refusal;
use resolver::Choices;

fn reach(why: Refusal, nodes: u64, fault: Option<u64>) -> Reach
    ensures { result ≡ record { verdict = Err why; nodes = nodes; fault = fault } }
{
    Reach {
        verdict: Err(why),
        nodes,
        fault,
    }
}

// How far n nodes go where the passes are refused.
fn met(why: Refusal, n: u64) -> Reach
    requires { number_of why ≡ 7 → node_of why < max_nodes }
    ensures { result ≡ met_reach n why }
{
    match why {
        Refusal::PositionPast(node) => reach(why, node, Some(node)),
        Refusal::LabelOffBoundary(node) => reach(why, node + 1, Some(node)),
        Refusal::Unresolved => reach(why, n, None),
        _ => reach(why, 0, None),
    }
}

impl LastRow<'_> {
    // How far the nodes of the last row go.
    fn reach(self, closed: bool, settled: Result<u64, Refusal>) -> Reach
        requires kinds_len_bound { (length self.kinds.now ≤ max_nodes) × Switches self.banks.len self.kinds.now self.operands.now }
        requires few { Few settled }
        ensures { result ≡ row_reach (program_of self.entry) (row_of self.entry) closed settled }
    {
        match settled {
            Err(why) => met(why, self.kinds.len() as u64),
            Ok(_) => self.trace(closed),
        }
    }

    // The map over the row of the last pass.
    fn map(
        self,
        closed: bool,
        settled: Result<u64, Refusal>,
        passes: u64,
        banks_of: &mut [u64],
        positions: &mut [u32],
        outputs: &mut [u64],
        sizes: &mut [u32],
    ) -> Map
        requires kinds_len_bound { (length self.kinds.now ≤ max_nodes) × Switches self.banks.len self.kinds.now self.operands.now }
        requires few { Few settled }
        requires banks_of_len { (length banks_of.old ≡ max_nodes) × (length positions.old ≡ max_nodes) × (length outputs.old ≡ max_nodes)
            × (length sizes.old ≡ max_nodes) }
        requires settled_bound { (row_reach (program_of self) (row_of self) closed settled).nodes ≤ max_nodes }
        ensures { RowMapped (program_of self.entry) (row_of self.entry) closed settled passes
            (lent banks_of.old positions.old outputs.old sizes.old) result
            (lent banks_of.new positions.new outputs.new sizes.new) }
    {
        let reach = self.reach(closed, settled);
        let padding = self.write_entries(reach.nodes as usize, banks_of, positions, outputs, sizes);
        Map {
            verdict: reach.verdict,
            passes,
            nodes: reach.nodes,
            fault: reach.fault,
            padding,
        }
    }
}

fn verdict_of(settled: Result<u64, Refusal>) -> Result<(), Refusal>
    ensures { result ≡ verdict_of settled }
{
    match settled {
        Err(why) => Err(why),
        Ok(_) => Ok(()),
    }
}

// Where no pass was run: nothing is shown.
fn unmapped(settled: Result<u64, Refusal>) -> Map
    ensures { result ≡ mapless settled }
{
    let none = Lost { bits: 0, units: 0 };
    Map {
        verdict: verdict_of(settled),
        passes: 0,
        nodes: 0,
        fault: None,
        padding: [none; 16],
    }
}

// The map of a layout. The lists have a place for each node that a layout can have. What is refused before any pass, 1 to 4, changes nothing that is lent;
// for any other refusal the map is the answer, and the verdict a part of it.
pub fn map_nodes(
    banks: Bankdefs,
    kinds: &[u8],
    operands: &[u32],
    numbers: &[u32],
    states: &[u8],
    rows: u64,
    values: &[u8],
    choices: Choices,
    banks_of: &mut [u64; 4096],
    positions: &mut [u32; 4096],
    outputs: &mut [u64; 4096],
    sizes: &mut [u32; 4096],
) -> Map
    ensures { Maps
        (input banks
        (lists kinds.now operands.now numbers.now states.now rows values.now)
        choices)
        (lent banks_of.old positions.old outputs.old sizes.old) result
        (lent banks_of.new positions.new outputs.new sizes.new) }
{
    let resolution = resolver::resolve(
        banks, kinds, operands, numbers, states, rows, values, choices,
    );
    let settled = resolution.settled;
    let passes = resolution.passes;
    if passes == 0 {
        return unmapped(settled);
    }
    let n = kinds.len();
    let a = output::row_start(rows, passes, n);
    let e = a + n;
    let closed = build_plan::closes_default(banks.len, choices.closed);
    let row = LastRow {
        banks,
        kinds,
        operands,
        first: &numbers[0..n],
        numbers: &numbers[a..e],
        states: &states[a..e],
    };
    row.map(closed, settled, passes, banks_of, positions, outputs, sizes)
}
