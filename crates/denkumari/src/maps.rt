// The map of a layout whose tables are lent as lists of numbers.
ghost use Rattle.says.specs.Map.{MapSays};

use c_answers::{DkMap, tell_map};
use c_tables::{choose, make_banks};

// Where each node stands in the row of the last pass, as far as the layout goes, and the node at which it is refused.
pub fn dk_map(
    units: &[u16],
    starts: &[i64],
    bank_sizes: &[u32],
    bank_offsets: &[u32],
    aligns: &[u32],
    flags: &[u8],
    fill_bits: &[u8],
    kinds: &[u8],
    operands: &[u32],
    numbers: &[u32],
    states: &[u8],
    rows: u64,
    values: &[u8],
    limit: u8,
    fill: u8,
    closed: u8,
    banks_of: &mut [u64; 4096],
    positions: &mut [u32; 4096],
    outputs: &mut [u64; 4096],
    sizes: &mut [u32; 4096],
) -> DkMap
    ensures { MapSays (record {
      units = units.now;
      starts = starts.now;
      bank_sizes = bank_sizes.now;
      bank_offsets = bank_offsets.now;
      aligns = aligns.now;
      flags = flags.now;
      fill_bits = fill_bits.now;
      kinds = kinds.now;
      operands = operands.now;
      numbers = numbers.now;
      states = states.now;
      rows = rows;
      values = values.now;
      limit = limit;
      fill = fill;
      closed = closed;
    }) (record { banks = banks_of.old; positions = positions.old; outputs = outputs.old; sizes = sizes.old })
        (record {
          answer = result;
          lent = record { banks = banks_of.new; positions = positions.new; outputs = outputs.new; sizes = sizes.new };
        }) }
{
    let first: &[u64] = &*banks_of;
    let second: &[u32] = &*positions;
    let third: &[u64] = &*outputs;
    let fourth: &[u32] = &*sizes;
    let banks = make_banks(
        units,
        starts,
        bank_sizes,
        bank_offsets,
        aligns,
        flags,
        fill_bits,
    );
    let choices = choose(limit, fill, closed);
    tell_map(build_map::map_nodes(
        banks, kinds, operands, numbers, states, rows, values, choices, banks_of, positions,
        outputs, sizes,
    ))
}
