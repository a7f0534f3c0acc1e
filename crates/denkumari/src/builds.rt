// A layout whose tables are lent as lists of numbers, laid out in one call.
ghost use Rattle.says.specs.Build.{BuildSays};

use c_answers::{DkLayout, tell_layout};
use c_tables::{choose, make_banks};

// Lays tables out: the image, and the spans in three lists. A refused call changes nothing that is lent.
pub fn dk_build(
    units: &[u16],
    starts: &[i64],
    bank_sizes: &[u32],
    bank_offsets: &[u32],
    aligns: &[u32],
    flags: &[u8],
    fill_bits: &[u8],
    kinds: &[u8],
    operands: &[u32],
    numbers: &[u32],
    states: &[u8],
    rows: u64,
    values: &[u8],
    limit: u8,
    fill: u8,
    closed: u8,
    image: &mut [u8],
    addresses: &mut [i64],
    offsets: &mut [u64],
    sizes: &mut [u64],
) -> DkLayout
    ensures { BuildSays (record {
      units = units.now;
      starts = starts.now;
      bank_sizes = bank_sizes.now;
      bank_offsets = bank_offsets.now;
      aligns = aligns.now;
      flags = flags.now;
      fill_bits = fill_bits.now;
      kinds = kinds.now;
      operands = operands.now;
      numbers = numbers.now;
      states = states.now;
      rows = rows;
      values = values.now;
      limit = limit;
      fill = fill;
      closed = closed;
    }) (record { image = image.old; addresses = addresses.old; offsets = offsets.old; sizes = sizes.old })
        (record {
          answer = result;
          lent = record { image = image.new; addresses = addresses.new; offsets = offsets.new; sizes = sizes.new };
        }) }
{
    let banks = make_banks(
        units,
        starts,
        bank_sizes,
        bank_offsets,
        aligns,
        flags,
        fill_bits,
    );
    let choices = choose(limit, fill, closed);
    tell_layout(output::build_output(
        banks, kinds, operands, numbers, states, rows, values, choices, image, addresses, offsets,
        sizes,
    ))
}
