// Files of Intel HEX and of S-records: the blocks of an image written, and a file read into bytes and blocks.
ghost use Rattle.says.specs.Write.{HexSays, SrecSays};
ghost use Rattle.says.specs.Extent.{ExtentSays};
ghost use Rattle.says.specs.Read.{ReadSays, FaultSays};

use c_answers::{DkCount, DkExtent, DkFault};

// The blocks of an image as Intel HEX from a load address on.
#[unsafe(no_mangle)]
pub extern "C" fn dk_write_hex(
    image: &[u8],
    offsets: &[u64],
    sizes: &[u64],
    load: u32,
    text: &mut [u8],
) -> DkCount
    ensures { HexSays
        (record { image = image.now; offsets = offsets.now; sizes = sizes.now; load = load })
        text.old (record { answer = result; text = text.new }) }
{
    denkumari::dk_write_hex(image, offsets, sizes, load, text)
}

// The blocks of an image as S-records from a load address on, with addresses of `width` bytes: 2 or 4.
#[unsafe(no_mangle)]
pub extern "C" fn dk_write_srec(
    image: &[u8],
    offsets: &[u64],
    sizes: &[u64],
    load: u32,
    width: u8,
    text: &mut [u8],
) -> DkCount
    ensures { SrecSays
        (record { image = image.now; offsets = offsets.now; sizes = sizes.now; load = load })
        text.old width (record { answer = result; text = text.new }) }
{
    denkumari::dk_write_srec(image, offsets, sizes, load, width, text)
}

// A file's bytes and blocks, from a load address on. The scratch makes it quick where it is zeros, and is left as it was.
#[unsafe(no_mangle)]
pub extern "C" fn dk_read_records(
    format: u8,
    text: &[u8],
    load: u32,
    bytes: &mut [u8],
    offsets: &mut [u64],
    sizes: &mut [u64],
    scratch: &mut [u8],
) -> DkCount
    ensures { ReadSays format load text.now
        (record { bytes = bytes.old; offsets = offsets.old; sizes = sizes.old; scratch = scratch.old })
        (record {
          answer = result;
          lent = record { bytes = bytes.new; offsets = offsets.new; sizes = sizes.new; scratch = scratch.new };
        }) }
{
    denkumari::dk_read_records(format, text, load, bytes, offsets, sizes, scratch)
}

// Where a file's bytes stand: the lowest address that it gives a byte to, and the first behind the highest.
#[unsafe(no_mangle)]
pub extern "C" fn dk_record_extent(format: u8, text: &[u8], scratch: &mut [u8]) -> DkExtent
    ensures { ExtentSays format text.now scratch.old (result, scratch.new) }
{
    denkumari::dk_record_extent(format, text, scratch)
}

// The line at which a file that is read so is at fault.
#[unsafe(no_mangle)]
pub extern "C" fn dk_record_fault(format: u8, text: &[u8], load: u32, scratch: &mut [u8]) -> DkFault
    ensures { FaultSays format load text.now scratch.old (result, scratch.new) }
{
    denkumari::dk_record_fault(format, text, load, scratch)
}
