// The entries of nodes: bank, position, place in the output and size, each in a lent list.
ghost use Rattle.std.specs.Prelude.{◌≡◌, ◌≤◌, length};
ghost use Rattle.prelude.specs.Limits.{max_nodes};
ghost use Rattle.iter.specs.Pace.{Paces};
ghost use Rattle.resolver.specs.Once.{walk_to};
ghost use Rattle.resolver.specs.Switches.{Switches};
ghost use Rattle.build_map.specs.Steps.{program_of, row_of};
ghost use Rattle.build_map.specs.Map.{shown, bank_shown, position_shown, output_shown, size_shown};

use crate::rows::LastRow;
use bankdef::Bankdef;
use iter::{Lost, Paced, Pos, bank_after, get_output_position, lost_after, pace_of_parts, start};
use nodes::{Node, node_at, size_of};

// The step over one node, by its parts. It is the build's own (`iter::pace`), kind by kind; this second caller keeps that function out of the build's loops,
// which are faster so (docs/PROVING.md).
fn step_of(def: Bankdef, at: Pos, node: Node) -> Paced
    ensures { Paces def at node result }
{
    let align = def.align;
    pace_of_parts(
        def.unit,
        def.start,
        align,
        at,
        node.index,
        node.kind,
        node.operand,
        node.number,
        node.state,
    )
}

impl LastRow<'_> {
    // The entries of the first `nodes` nodes of a row, by the step that the build makes; the lists keep their old contents past them. Answers what the walk
    // lost in each bank.
    pub(crate) fn write_entries(
        self,
        nodes: usize,
        banks_of: &mut [u64],
        positions: &mut [u32],
        outputs: &mut [u64],
        sizes: &mut [u32],
    ) -> [Lost; 16]
        requires nodes_le_max_nodes { (nodes ≤ max_nodes) × Switches self.banks.len self.kinds.now self.operands.now }
        requires nodes_in_bounds { (nodes ≤ length banks_of.old) × (nodes ≤ length positions.old) × (nodes ≤ length outputs.old)
            × (nodes ≤ length sizes.old) }
        ensures value { result ≡ (walk_to (program_of self.entry) (row_of self.entry) nodes).lost }
        ensures banks_of_after { banks_of.new ≡ shown nodes
            (bank_shown (program_of self.entry) (row_of self.entry)) banks_of.old }
        ensures positions_after { positions.new ≡ shown nodes
            (position_shown (program_of self.entry) (row_of self.entry)) positions.old }
        ensures outputs_after { outputs.new ≡ shown nodes
            (output_shown (program_of self.entry) (row_of self.entry)) outputs.old }
        ensures sizes_after { sizes.new ≡ shown nodes
            (size_shown (program_of self.entry) (row_of self.entry)) sizes.old }
    {
        let mut walk = start();
        // stays: an index into five lists that are read and four that are written; a zip of nine is no plainer
        for i in 0..nodes {
            let node = node_at(
                self.kinds,
                self.operands,
                self.first,
                self.numbers,
                self.states,
                i,
            );
            let bank = bank_after(walk.bank, node);
            let def = self.banks.defs[bank as usize];
            let step = step_of(def, walk.at[bank as usize], node);
            let now = step.seen;
            let out = get_output_position(def, now.position);
            banks_of[i] = bank;
            positions[i] = now.position;
            outputs[i] = blocks::word_of(out);
            sizes[i] = size_of(node);
            let after = step.after;
            walk.at[bank as usize] = after;
            walk.bank = bank;
            if step.skipped.bits == 0 {
                continue;
            }
            let lost = lost_after(walk.lost[bank as usize], step.skipped);
            walk.lost[bank as usize] = lost;
        }
        walk.lost
    }
}
