// Files of Intel HEX and of S-records: the blocks of an image written, and a file read into bytes and blocks.
ghost use Rattle.says.specs.Write.{HexSays, SrecSays};
ghost use Rattle.says.specs.Extent.{ExtentSays};
ghost use Rattle.says.specs.Read.{ReadSays, FaultSays};

use c_answers::{DkCount, DkExtent, DkFault, tell_blocks, tell_extent, tell_fault, tell_written};
use prelude::Refusal;

// Format 0 is Intel HEX, 1 S-records. There is no other.
const FORMATS: u8 = 2;

// The blocks of an image as Intel HEX from a load address on.
pub fn dk_write_hex(
    image: &[u8],
    offsets: &[u64],
    sizes: &[u64],
    load: u32,
    text: &mut [u8],
) -> DkCount
    ensures { HexSays
        (record { image = image.now; offsets = offsets.now; sizes = sizes.now; load = load })
        text.old (record { answer = result; text = text.new }) }
{
    tell_written(record_write::write_ihex(image, offsets, sizes, load, text))
}

// The blocks of an image as S-records from a load address on, with addresses of `width` bytes: 2 or 4.
pub fn dk_write_srec(
    image: &[u8],
    offsets: &[u64],
    sizes: &[u64],
    load: u32,
    width: u8,
    text: &mut [u8],
) -> DkCount
    ensures { SrecSays
        (record { image = image.now; offsets = offsets.now; sizes = sizes.now; load = load })
        text.old width (record { answer = result; text = text.new }) }
{
    tell_written(record_write::write_srec(image, offsets, sizes, load, width, text))
}

// A file's bytes and blocks, from a load address on. The scratch makes it quick where it is zeros, and is left as it was.
pub fn dk_read_records(
    format: u8,
    text: &[u8],
    load: u32,
    bytes: &mut [u8],
    offsets: &mut [u64],
    sizes: &mut [u64],
    scratch: &mut [u8],
) -> DkCount
    ensures { ReadSays format load text.now
        (record { bytes = bytes.old; offsets = offsets.old; sizes = sizes.old; scratch = scratch.old })
        (record {
          answer = result;
          lent = record { bytes = bytes.new; offsets = offsets.new; sizes = sizes.new; scratch = scratch.new };
        }) }
{
    if format >= FORMATS {
        return tell_blocks(Err(Refusal::Malformed(0)));
    }
    tell_blocks(record_read::read(format, text, load, bytes, offsets, sizes, scratch))
}

// Where a file's bytes stand: the lowest address that it gives a byte to, and the first behind the highest.
pub fn dk_record_extent(format: u8, text: &[u8], scratch: &mut [u8]) -> DkExtent
    ensures { ExtentSays format text.now scratch.old (result, scratch.new) }
{
    if format >= FORMATS {
        return tell_extent(Err(Refusal::Malformed(0)));
    }
    tell_extent(record_extent::extent_of(format, text, scratch))
}

// The line at which a file that is read so is at fault.
pub fn dk_record_fault(format: u8, text: &[u8], load: u32, scratch: &mut [u8]) -> DkFault
    ensures { FaultSays format load text.now scratch.old (result, scratch.new) }
{
    if format >= FORMATS {
        return tell_fault(Some(0));
    }
    tell_fault(record_scan::line_at_fault(format, text, load, scratch))
}
