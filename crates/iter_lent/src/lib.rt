// The advance over a lent record: "A bank's position record is lent to the advance and updated there".
#![tactic(auto)]

ghost use Rattle.std.specs.Prelude.{◌≡◌};
ghost use Rattle.iter_lent.specs.Lent.{left_by, Advanced};

use bankdef::Bankdef;
use iter::{Paced, Pos};
use nodes::Node;

// What an advance leaves behind: the record, and the step's numbers.
// stays: specs/Lent.left_by is said of it
#[derive(Clone, Copy)]
struct Left {
    at: Pos,
    step: Paced,
}

// The step by value, as the record to leave and the answer. Refused, the record is the one given.
fn advanced(def: Bankdef, at: Pos, node: Node) -> Left
    ensures { result ≡ left_by def at node }
{
    let step = iter::pace(def, at, node);
    Left {
        at: step.after,
        step,
    }
}

// The thin advance over the lent record, by the step that every walk makes: it is updated in place, and a refused call leaves it as it was. Answers what the
// node sees, what it skips and where it leads, or why it is refused.
pub fn advance_lent(def: Bankdef, at: &mut Pos, node: Node) -> Paced
    ensures { Advanced def at.old node at.new result }
{
    let next = advanced(def, *at, node);
    *at = next.at;
    next.step
}
