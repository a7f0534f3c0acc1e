// Where a position stands: its address, whether it is on an address boundary, and its place in the output.
ghost use Rattle.std.specs.Prelude.{◌≡◌, ℕ, ◌≤◌};
ghost use Rattle.prelude.specs.Limits.{max_offer};
ghost use Rattle.iter.specs.Address.{address_of, on_boundary, output_position};
ghost use Rattle.iter.specs.Figures.{told_address, Stands};

use crate::alignment::is_tellable;
use bankdef::Bankdef;
use prelude::Refusal;

// "The address is the start plus the whole units in the position". `node` is the place of a refusal.
pub fn get_address(def: Bankdef, position: u32, node: u64) -> Result<i64, Refusal>
    ensures value { result ≡ address_of def position node }
    ensures told { Stands def position node (told_address result) }
{
    if is_tellable(def) {
        let units = position / u32::from(def.unit);
        Ok(def.start + i64::from(units))
    } else {
        Err(Refusal::Malformed(node))
    }
}

// Whether no bits are left beyond whole units. A unit of 0 has a boundary at 0 alone.
pub fn on_boundary(def: Bankdef, position: u32) -> bool
    ensures { result ≡ on_boundary def position }
{
    position.is_multiple_of(u32::from(def.unit))
}

// "the output position is offset plus position", which is no further than an offer's position can be
pub fn get_output_position(def: Bankdef, position: u32) -> Option<u64>
    ensures value { result ≡ output_position def position }
    ensures by_index { (o : ℕ) → result ≡ Some o → o ≤ max_offer }
{
    match def.offset {
        Some(o) => Some(u64::from(o) + u64::from(position)),
        None => None,
    }
}
