// The distance to an alignment: the Rust's `bits_until_alignment`, over the address in bits.
ghost use Rattle.std.specs.Prelude.{◌≡◌, true, ◌<◌};
ghost use Rattle.iter.specs.Distance.{tellable, address_in_bits, gap, distance_to, skips_of, distance_of};
ghost use Rattle.iter.specs.Figures.{told_distance, Measures};
ghost use Rattle.iter.specs.Signs.{in_bits, remainder_of};

use crate::Skipped;
use bankdef::Bankdef;
use prelude::{MAX_START, Refusal};

// An address in bits, on its side of 0: so many bits before it, or from it on.
// stays: specs/Signs.in_bits and remainder_of are said of it, so no rem_euclid of an i64
#[derive(Clone, Copy)]
pub enum InBits {
    Below(u64),
    At(u64),
}

// Whether the bank's addresses can be told: its unit is not 0, and its start is within the limit.
pub fn is_tellable(def: Bankdef) -> bool
    ensures { result ≡ tellable def }
{
    def.unit != 0 && def.start.unsigned_abs() <= MAX_START
}

// "start × unit + position". Both sides of 0 are reckoned in 64 bits: a start of 2^40 units stays below 2^56.
fn address_in_bits(def: Bankdef, position: u32) -> InBits
    requires { tellable def ≡ true }
    ensures { result ≡ in_bits (address_in_bits def position) }
{
    let away = def.start.unsigned_abs() * u64::from(def.unit);
    let at = u64::from(position);
    if def.start >= 0 {
        InBits::At(away + at)
    } else if at < away {
        InBits::Below(away - at)
    } else {
        InBits::At(at - away)
    }
}

// "the remainder from 0 to alignment - 1"
fn remainder_by(bits: InBits, alignment: u32) -> u32
    requires { 0 < alignment }
    ensures { (result ≡ remainder_of bits alignment) × (result < alignment) }
{
    let a = u64::from(alignment);
    match bits {
        InBits::At(n) => (n % a) as u32,
        InBits::Below(n) => ((a - n % a) % a) as u32,
    }
}

// "with r the remainder .. by A, it is 0 for r = 0 and A - r for others"
fn gap_to(r: u32, alignment: u32) -> u32
    requires { r < alignment }
    ensures { result ≡ gap r alignment }
{
    if r == 0 { 0 } else { alignment - r }
}

// "the count of whole address units it skips (distance over unit, rounded down)"
pub(crate) fn in_units(def: Bankdef, bits: u32) -> Skipped
    requires { tellable def ≡ true }
    ensures { result ≡ skips_of def bits }
{
    Skipped {
        bits,
        units: bits / u32::from(def.unit),
    }
}

// "The distance to alignment A is 0 for A = 0. Otherwise, with r the remainder .. by A, it is 0 for r = 0 and A - r for others.", in bits.
pub(crate) fn distance_in_bits(def: Bankdef, position: u32, alignment: u32) -> u32
    requires { tellable def ≡ true }
    ensures { result ≡ distance_to (address_in_bits def position) alignment }
{
    if alignment == 0 {
        return 0;
    }
    gap_to(
        remainder_by(address_in_bits(def, position), alignment),
        alignment,
    )
}

// The way from a position to the next multiple of the alignment. `node` is the place of a refusal.
pub fn bits_until_alignment(
    def: Bankdef,
    position: u32,
    alignment: u32,
    node: u64,
) -> Result<Skipped, Refusal>
    ensures value { result ≡ distance_of def position alignment node }
    ensures told { Measures def position alignment node (told_distance result) }
{
    if !is_tellable(def) {
        return Err(Refusal::Malformed(node));
    }
    Ok(in_units(def, distance_in_bits(def, position, alignment)))
}
