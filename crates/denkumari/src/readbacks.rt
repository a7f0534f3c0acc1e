// Read-back: what was flashed, read back and held against the image.
ghost use Rattle.says.specs.Verify.{VerifySays};

use c_answers::{DkCount, tell_listed};

// The runs of bytes that the image's blocks ask for and that are not given, or given with another value: first byte, count of bytes and kind of each.
pub fn dk_verify(
    image: &[u8],
    offsets: &[u64],
    sizes: &[u64],
    bytes: &[u8],
    given_offsets: &[u64],
    given_sizes: &[u64],
    firsts: &mut [u64],
    counts: &mut [u64],
    kinds: &mut [u8],
) -> DkCount
    ensures { VerifySays image.now offsets.now sizes.now bytes.now given_offsets.now
        given_sizes.now firsts.old counts.old kinds.old
        (record { answer = result; firsts = firsts.new; counts = counts.new; kinds = kinds.new }) }
{
    tell_listed(verify::compare(
        image,
        offsets,
        sizes,
        bytes,
        given_offsets,
        given_sizes,
        firsts,
        counts,
        kinds,
    ))
}
