// A table of banks that is lent as lists of numbers, one for each field, and what a caller chooses in numbers.
#![tactic(auto)]

ghost use Rattle.std.specs.Prelude.{◌≡◌, ◌++◌, ◌-◌, ◌≤◌, min, length, replicate};
ghost use Rattle.bankdef.specs.Check.{no_bank};
ghost use Rattle.c_tables.specs.Tables.{unit_of, bank_of, given, banks_in, agree, table_of, choices_by};

use bankdef::{Bankdef, Bankdefs};
use form_fields::{is_set, option};
use resolver::Choices;

// A bank with flags that mean nothing has no unit either, so that it is refused like any other whose numbers are beyond their limits.
fn unit_of(unit: u16, flags: u8) -> u16
    ensures { result ≡ unit_of unit flags }
{
    if flags <= 15 { unit } else { 0 }
}

fn make_bank(
    unit: u16,
    start: i64,
    size: u32,
    offset: u32,
    align: u32,
    flags: u8,
    bit: u8,
) -> Bankdef
    ensures { result ≡ bank_of unit start size offset align flags bit }
{
    Bankdef {
        unit: unit_of(unit, flags),
        start,
        size: option(flags, 1, size),
        offset: option(flags, 2, offset),
        align: option(flags, 4, align),
        fill: is_set(flags, 8),
        fill_bit: bit,
    }
}

// The first `count` banks, in a table of 16.
fn make_table(
    units: &[u16],
    starts: &[i64],
    sizes: &[u32],
    offsets: &[u32],
    aligns: &[u32],
    flags: &[u8],
    bits: &[u8],
    count: usize,
) -> [Bankdef; 16]
    requires count_bound { count ≤ 16 }
    requires count_in_bounds { (count ≤ length units.now) × (count ≤ length starts.now) × (count ≤ length sizes.now)
        × (count ≤ length offsets.now) × (count ≤ length aligns.now) × (count ≤ length flags.now)
        × (count ≤ length bits.now) }
    ensures { result ≡ banks_in (given units.now starts.now sizes.now offsets.now aligns.now
        flags.now bits.now) count ++ replicate (16 - count) no_bank }
{
    let mut defs = [Bankdef {
        unit: 0,
        start: 0,
        size: None,
        offset: None,
        align: None,
        fill: false,
        fill_bit: 0,
    }; 16];
    // stays: an index into seven lists at once; a zip of seven is no plainer
    for i in 0..count {
        let bank = make_bank(
            units[i], starts[i], sizes[i], offsets[i], aligns[i], flags[i], bits[i],
        );
        defs[i] = bank;
    }
    defs
}

// The count, if a list is as long as it should be.
fn agreed(len: usize, wanted: usize, count: usize) -> usize
    ensures { result ≡ agree len wanted count }
{
    if len == wanted { count } else { 0 }
}

// The table of banks; lists of different lengths make one without banks.
pub fn make_banks(
    units: &[u16],
    starts: &[i64],
    sizes: &[u32],
    offsets: &[u32],
    aligns: &[u32],
    flags: &[u8],
    bits: &[u8],
) -> Bankdefs
    ensures { result ≡ table_of (given units.now starts.now sizes.now offsets.now aligns.now
        flags.now bits.now) }
{
    let n = units.len();
    let with_starts = agreed(starts.len(), n, n);
    let with_sizes = agreed(sizes.len(), n, with_starts);
    let with_offsets = agreed(offsets.len(), n, with_sizes);
    let with_aligns = agreed(aligns.len(), n, with_offsets);
    let with_flags = agreed(flags.len(), n, with_aligns);
    let count = agreed(bits.len(), n, with_flags);
    let held = count.min(16);
    Bankdefs {
        defs: make_table(units, starts, sizes, offsets, aligns, flags, bits, held),
        len: count as u64,
    }
}

// What a caller chooses.
pub fn choose(limit: u8, fill: u8, closed: u8) -> Choices
    ensures { result ≡ choices_by limit fill closed }
{
    Choices {
        limit,
        fill,
        closed: 1 <= closed,
    }
}
