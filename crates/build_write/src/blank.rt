// The image before any item is written.
ghost use Rattle.std.specs.Prelude.{◌≡◌, length};
ghost use Rattle.bankdef.specs.Check.{banks_of};
ghost use Rattle.build_write.specs.Blank.{blank_of};
ghost use Rattle.build_write.specs.Steps.{OnesOf};

use bankdef::{Bankdef, Bankdefs};
use prelude::MAX_BANKS;

// Where a bank's fill bits are ones, up to the image's length: from one bit to before another.
#[derive(Clone, Copy)]
pub struct Ones {
    pub from: u64,
    pub end: u64,
}

fn no_ones() -> Ones
    ensures { result ≡ record { from = 0; end = 0 } }
{
    Ones { from: 0, end: 0 }
}

// "In a bank .. with fill, size and offset, every bit of its range inside the image length": those of them that take a one.
fn ones_of(def: Bankdef, bits: u64) -> Ones
    ensures { OnesOf def bits result.from result.end }
{
    if !def.fill || def.fill_bit != 1 {
        return no_ones();
    }
    let size = def.size;
    let Some(size) = size else {
        return no_ones();
    };
    let offset = def.offset;
    let Some(offset) = offset else {
        return no_ones();
    };
    let from = u64::from(offset);
    Ones {
        from,
        end: bits.min(from + u64::from(size)),
    }
}

// The image before any item is written: all clear, then ones where a bank's fill bit is one. "In a bank other than bank 0".
pub fn lay_blank(banks: Bankdefs, bits: u64, image: &mut [u8])
    ensures { image.new ≡ blank_of (banks_of banks) bits (length image.old) }
{
    bitvec::clear(image);
    let end = banks.len.min(MAX_BANKS).max(1) as usize;
    for &def in &banks.defs[1..end] {
        let ones = ones_of(def, bits);
        bitvec::set_ones(image, ones.from, ones.end);
    }
}
