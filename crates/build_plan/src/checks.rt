// Refusals 9, 10 and 11 at a node.
ghost use Rattle.std.specs.Prelude.{◌≡◌, ◌&&◌};
ghost use Rattle.build_visits.specs.Items.{is_written};
ghost use Rattle.build_plan.specs.Placing.{ends_past, lacks_output, closes_default, uses_default, checked};

use bankdef::Bankdef;
use iter::Pos;
use nodes::{Node, is_written, size_of};
use prelude::Refusal;

fn ends_past(size: Option<u32>, end: u64) -> bool
    ensures { result ≡ ends_past size end }
{
    match size {
        None => false,
        Some(s) => u64::from(s) < end,
    }
}

// "9: bank 0 is used while other banks exist", and "even when it is alone" where the caller closes it.
pub fn closes_default(banks: u64, closed: bool) -> bool
    ensures { result ≡ closes_default banks closed }
{
    closed || 1 < banks
}

fn check_bank_usage(closed: bool, bank: u64) -> bool
    ensures { result ≡ uses_default closed bank }
{
    bank == 0 && closed
}

// "11: an item is written in a bank without output offset"
fn written_nowhere(node: Node, out: Option<u64>) -> bool
    ensures { result ≡ is_written node && lacks_output out }
{
    is_written(node.kind) && matches!(out, None)
}

// 9, 10 and 11, in this order.
#[tactic(auto, unfolding(crate::specs::Placing::checked))]
pub fn check_place(
    closed: bool,
    bank: u64,
    def: Bankdef,
    node: Node,
    at: Pos,
    out: Option<u64>,
) -> Result<(), Refusal>
    ensures { result ≡ checked closed bank def node at out }
{
    let size = def.size;
    let end = u64::from(at.position) + u64::from(size_of(node));
    if check_bank_usage(closed, bank) {
        return Err(Refusal::DefaultBank(node.index));
    }
    if ends_past(size, end) {
        return Err(Refusal::PastBank(node.index));
    }
    if written_nowhere(node, out) {
        return Err(Refusal::NoOutput(node.index));
    }
    Ok(())
}
