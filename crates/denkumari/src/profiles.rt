// The profile of a device with pages, and a build in it, of tables that are lent as lists of numbers.
ghost use Rattle.says.specs.Profile.{ProfileSays};
ghost use Rattle.says.specs.Paged.{PagedSays};

use c_answers::{DkLayout, DkProfile, tell_layout, tell_paged};
use c_tables::{choose, make_banks};

// Whether tables keep the profile of a device with pages of `page` bits.
pub fn dk_profile(
    page: u32,
    units: &[u16],
    starts: &[i64],
    bank_sizes: &[u32],
    bank_offsets: &[u32],
    aligns: &[u32],
    flags: &[u8],
    fill_bits: &[u8],
    kinds: &[u8],
    operands: &[u32],
    numbers: &[u32],
    states: &[u8],
    rows: u64,
    values: &[u8],
    fill: u8,
) -> DkProfile
    ensures { ProfileSays (record {
      units = units.now;
      starts = starts.now;
      bank_sizes = bank_sizes.now;
      bank_offsets = bank_offsets.now;
      aligns = aligns.now;
      flags = flags.now;
      fill_bits = fill_bits.now;
      kinds = kinds.now;
      operands = operands.now;
      numbers = numbers.now;
      states = states.now;
      rows = rows;
      values = values.now;
      limit = 0;
      fill = fill;
      closed = 0;
    }) page result }
{
    let banks = make_banks(
        units,
        starts,
        bank_sizes,
        bank_offsets,
        aligns,
        flags,
        fill_bits,
    );
    let choices = choose(0, fill, 0);
    tell_paged(build_profile::check_profile(
        banks, kinds, operands, numbers, states, rows, values, choices, page,
    ))
}

// Lays tables out in the profile of a device with pages of `page` bits. A refused call changes nothing that is lent.
pub fn dk_build_paged(
    page: u32,
    units: &[u16],
    starts: &[i64],
    bank_sizes: &[u32],
    bank_offsets: &[u32],
    aligns: &[u32],
    flags: &[u8],
    fill_bits: &[u8],
    kinds: &[u8],
    operands: &[u32],
    numbers: &[u32],
    states: &[u8],
    rows: u64,
    values: &[u8],
    limit: u8,
    fill: u8,
    closed: u8,
    image: &mut [u8],
    addresses: &mut [i64],
    offsets: &mut [u64],
    sizes: &mut [u64],
) -> DkLayout
    ensures { PagedSays (record {
      units = units.now;
      starts = starts.now;
      bank_sizes = bank_sizes.now;
      bank_offsets = bank_offsets.now;
      aligns = aligns.now;
      flags = flags.now;
      fill_bits = fill_bits.now;
      kinds = kinds.now;
      operands = operands.now;
      numbers = numbers.now;
      states = states.now;
      rows = rows;
      values = values.now;
      limit = limit;
      fill = fill;
      closed = closed;
    }) page (record { image = image.old; addresses = addresses.old; offsets = offsets.old; sizes = sizes.old })
        (record {
          answer = result;
          lent = record { image = image.new; addresses = addresses.new; offsets = offsets.new; sizes = sizes.new };
        }) }
{
    let banks = make_banks(
        units,
        starts,
        bank_sizes,
        bank_offsets,
        aligns,
        flags,
        fill_bits,
    );
    let choices = choose(limit, fill, closed);
    tell_layout(form_build::build_with(
        Some(page),
        banks,
        kinds,
        operands,
        numbers,
        states,
        rows,
        values,
        choices,
        image,
        addresses,
        offsets,
        sizes,
    ))
}
