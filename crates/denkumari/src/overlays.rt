// The bench: a range from the released image or the overlay, and where the two differ.
ghost use Rattle.says.specs.Overlay.{RangeSays, RunsSay};

use c_answers::{DkCount, DkOverlay, tell_listed, tell_source};

// Which of the two images the `count` bytes from byte `first` on come from.
pub fn dk_overlay_range(
    overlay: &[u8],
    released: &[u8],
    offsets: &[u64],
    sizes: &[u64],
    first: u64,
    count: u64,
) -> DkOverlay
    ensures { RangeSays overlay.now released.now offsets.now sizes.now first count result }
{
    let source = overlay::which(overlay, released, offsets, sizes, first, count);
    tell_source(source, first, count)
}

// The runs of covered bytes, inside both images, that differ: first byte and count of bytes of each.
pub fn dk_overlay_runs(
    overlay: &[u8],
    released: &[u8],
    offsets: &[u64],
    sizes: &[u64],
    firsts: &mut [u64],
    counts: &mut [u64],
) -> DkCount
    ensures { RunsSay overlay.now released.now offsets.now sizes.now
        firsts.old counts.old (record { answer = result; firsts = firsts.new; counts = counts.new }) }
{
    tell_listed(overlay::differences(overlay, released, offsets, sizes, firsts, counts))
}
