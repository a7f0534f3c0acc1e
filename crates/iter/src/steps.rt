// What the walk from node to node begins with, and the bank and the sums that it carries.
ghost use Rattle.std.specs.Prelude.{◌≡◌};
ghost use Rattle.iter.specs.Step.{start_of, bank_after, lost_after};

use crate::{Lost, Pos, Skipped, Walk};
use nodes::Node;
use prelude::SWITCH;

// "Each bank's position starts at 0, known .. The walk begins in bank 0."
pub fn start() -> Walk
    ensures { result ≡ start_of }
{
    let origin = Pos {
        position: 0,
        known: true,
    };
    let none = Lost { bits: 0, units: 0 };
    Walk {
        at: [origin; 16],
        lost: [none; 16],
        bank: 0,
    }
}

// The bank that a node stands in: a switch stands in the bank that it switches to.
pub fn bank_after(bank: u64, node: Node) -> u64
    ensures { result ≡ bank_after bank node }
{
    if node.kind == SWITCH {
        u64::from(node.operand)
    } else {
        bank
    }
}

// "the sum of bits lost", and that of whole units, with what one node more skips. A sum stops at the largest number of 64 bits.
pub fn lost_after(lost: Lost, skipped: Skipped) -> Lost
    ensures { result ≡ lost_after lost skipped }
{
    Lost {
        bits: lost.bits.saturating_add(u64::from(skipped.bits)),
        units: lost.units.saturating_add(u64::from(skipped.units)),
    }
}
