// Blocks, hex and parts of an image.
ghost use Rattle.says.specs.Blocks.{DkBlocksSay};
ghost use Rattle.says.specs.Hex.{HexSays};
ghost use Rattle.says.specs.Part.{PartSays};

use c_answers::{DkCount, DkPart};

// The blocks of spans that are lent as offsets and sizes; the largest number stands for no offset.
#[unsafe(no_mangle)]
pub extern "C" fn dk_blocks(
    offsets: &[u64],
    sizes: &[u64],
    block_offsets: &mut [u64],
    block_sizes: &mut [u64],
) -> DkCount
    ensures { DkBlocksSay offsets.now sizes.now block_offsets.old block_sizes.old
        (record { answer = result; starts = block_offsets.new; sizes = block_sizes.new }) }
{
    denkumari::dk_blocks(offsets, sizes, block_offsets, block_sizes)
}

// The first `bits` bits of some bytes in hex.
#[unsafe(no_mangle)]
pub extern "C" fn dk_hex(bytes: &[u8], bits: u64, hex: &mut [u8]) -> DkCount
    ensures { HexSays bytes.now bits hex.old (record { answer = result; hex = hex.new }) }
{
    denkumari::dk_hex(bytes, bits, hex)
}

// Where in an image the block of `size` bits from bit `offset` on stands, in bytes.
#[unsafe(no_mangle)]
pub extern "C" fn dk_part(image: &[u8], offset: u64, size: u64) -> DkPart
    ensures { PartSays image.now offset size result }
{
    denkumari::dk_part(image, offset, size)
}
