// The bank record and the table of banks: refusals 1, 2 and 3, and the fill's length.
#![tactic(auto)]

ghost use Rattle.std.specs.Prelude.{◌≡◌, ◌+◌, ◌≤◌, ◌<◌, eqb, ltb, nat_abs, drop, length, position};
ghost use Rattle.prelude.specs.Limits.{max_banks, max_offer};
ghost use Rattle.prelude.specs.Pick.{pick};
ghost use Rattle.bankdef.specs.Numbers.{is_zero, bank_fault};
ghost use Rattle.bankdef.specs.Overlap.{ranges_overlap, pair_overlaps};
ghost use Rattle.prelude.specs.Told.{told_verdict};
ghost use Rattle.bankdef.specs.Check.{first_fault, first_pair, banks_of, check_of};
ghost use Rattle.bankdef.specs.Told.{Checks};
ghost use Rattle.bankdef.specs.Fill.{fill_end, fill_by};

use prelude::{MAX_BANKS, MAX_START, Refusal};

// A bank: address unit in bits, start address, and, each optional, size in bits, output offset and label alignment; and
// whether its range is filled, and with which bit (Ticket 6). The types carry document 01's limits, but for a unit of 0 and the
// start's range; the fill bit is 0 or 1.
#[derive(Clone, Copy)]
pub struct Bankdef {
    pub unit: u16,
    pub start: i64,
    pub size: Option<u32>,
    pub offset: Option<u32>,
    pub align: Option<u32>,
    // stays: refusal 2 asks for the bit where the fill is off too, so the two are no option
    pub fill: bool,
    pub fill_bit: u8,
}

// The table: the first `len` of `defs`, bank 0 included.
#[derive(Clone, Copy)]
pub struct Bankdefs {
    pub defs: [Bankdef; 16],
    pub len: u64,
}

// A signed number's distance from 0, also of the least `i64`, which has no `-x`.
pub fn magnitude(x: i64) -> u64
    ensures { result ≡ nat_abs x }
{
    x.unsigned_abs()
}

// Whether a size is there and is 0.
fn is_zero(size: Option<u32>) -> bool
    ensures { result ≡ is_zero size }
{
    matches!(size, Some(0))
}

// The bit after the last of `size` bits from `offset`.
fn end(offset: u32, size: u32) -> u64
    ensures value { result ≡ offset + size }
    ensures upper_bound { result ≤ max_offer }
{
    u64::from(offset) + u64::from(size)
}

// Whether two ranges of the output overlap: of `m` bits from `o` and of `n` bits from `p`; one without size has no end.
fn ranges_overlap(o: u32, m: Option<u32>, p: u32, n: Option<u32>) -> bool
    ensures { result ≡ ranges_overlap o m p n }
{
    match (m, n) {
        (None, None) => true,
        (None, Some(n)) => u64::from(o) < end(p, n),
        (Some(m), None) => u64::from(p) < end(o, m),
        (Some(m), Some(n)) => u64::from(p) < end(o, m) && u64::from(o) < end(p, n),
    }
}

impl Bankdef {
    // Whether a number of the bank is beyond its limit, its fill bit is neither 0 nor 1, or the bank is filled and has size 0.
    fn at_fault(&self) -> bool
        ensures { result ≡ bank_fault self.now }
    {
        self.unit == 0
            || MAX_START < self.start.unsigned_abs()
            || 1 < self.fill_bit
            || self.fill && is_zero(self.size)
    }

    // Whether two banks overlap: both with an offset, and their ranges do.
    fn overlaps(&self, other: &Bankdef) -> bool
        ensures { result ≡ pair_overlaps self.now other.now }
    {
        match (self.offset, other.offset) {
            (Some(o), Some(p)) => ranges_overlap(o, self.size, p, other.size),
            _ => false,
        }
    }

    // The end of a bank with fill, size and offset; of any other, 0.
    fn fill_end(&self) -> u64
        ensures value { result ≡ fill_end self.now }
        ensures upper_bound { result ≤ max_offer }
    {
        match (self.fill, self.size, self.offset) {
            (true, Some(size), Some(offset)) => end(offset, size),
            _ => 0,
        }
    }

    // The image's length after the bank's fill, from `length` before it.
    fn filled(&self, length: u64, gap: u64) -> u64
        requires { (length ≤ max_offer) × (gap ≤ 1) }
        ensures value { result ≡ pick (ltb (length + gap) (fill_end self.now)) (fill_end self.now) length }
        ensures upper_bound { result ≤ max_offer }
    {
        let end = self.fill_end();
        if length + gap < end { end } else { length }
    }
}

// The first bank that is at fault by its own record.
fn first_unsound(banks: &[Bankdef]) -> Option<usize>
    ensures { result ≡ position bank_fault banks.now }
{
    banks.iter().position(|b| b.at_fault())
}

// The first bank that is at fault, or the banks' count where none is: bank 0 also for a fill bit of one.
fn first_fault(banks: &[Bankdef]) -> usize
    requires { 0 < length banks.now }
    ensures { result ≡ first_fault banks.now }
{
    if banks[0].fill_bit == 1 {
        return 0;
    }
    first_unsound(banks).unwrap_or(banks.len())
}

// The first of some banks that overlaps another one.
fn first_overlap(a: &Bankdef, later: &[Bankdef]) -> Option<usize>
    ensures { result ≡ position (pair_overlaps a.now) later.now }
{
    later.iter().position(|b| a.overlaps(b))
}

// The first pair of banks that overlaps, in rising order. Bank 0 is in no pair.
fn check_bank_overlap(banks: &[Bankdef]) -> Result<(), Refusal>
    requires { length banks.now ≤ max_banks }
    ensures { result ≡ first_pair 1 (drop 1 banks.now) }
{
    for (i, a) in banks.iter().enumerate().skip(1) {
        if let Some(j) = first_overlap(a, &banks[i + 1..]) {
            return Err(Refusal::BanksOverlap(i as u64, (i + 1 + j) as u64));
        }
    }
    Ok(())
}

// Whether the table is refused: its count, the numbers of each bank, the pairs.
pub fn check(banks: Bankdefs) -> Result<(), Refusal>
    ensures value { result ≡ check_of banks }
    ensures checks { Checks banks (told_verdict result) }
{
    let len = banks.len;
    if len == 0 || MAX_BANKS < len {
        return Err(Refusal::BankCount);
    }
    let table = &banks.defs[..len as usize];
    let fault = first_fault(table);
    if fault < table.len() {
        return Err(Refusal::BankNumber(fault as u64));
    }
    check_bank_overlap(table)
}

// How far below the end of a filled bank a length stays as it is: by full fill, choice 1, nowhere, and otherwise one bit. The bank's last bit is document
// 01's h, so its end is h + 1, and a length is below h where the length + 1 is below the end; that asks for no h where a bank ends at 0.
fn gap_of(choice: u8) -> u64
    ensures value { result ≡ pick (eqb choice 1) 0 1 }
    ensures upper_bound { result ≤ 1 }
{
    if choice == 1 { 0 } else { 1 }
}

// The length that fill gives an empty image, over some banks in order, by the choice.
fn fill_banks(banks: &[Bankdef], choice: u8) -> u64
    ensures value { result ≡ fill_by choice banks.now }
    ensures upper_bound { result ≤ max_offer }
{
    let gap = gap_of(choice);
    let mut length = 0;
    for b in banks {
        length = b.filled(length, gap);
    }
    length
}

// The length that fill gives an empty image: every bank of the table, bank 0 too; full fill where `choice` is 1, and otherwise inherited
// fill. A table has no bank past the sixteenth.
pub fn fill_length(banks: Bankdefs, choice: u8) -> u64
    ensures { (result ≡ fill_by choice (banks_of banks)) × (result ≤ max_offer) }
{
    let n = banks.len.min(MAX_BANKS) as usize;
    fill_banks(&banks.defs[..n], choice)
}
